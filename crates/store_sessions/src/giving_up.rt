//! A transaction is given up: all that it took is undone, and it ends.

ghost use Rattle.std.specs.Prelude.{◌≡◌, ℕ, List, Some, None, IfSome, IfNone};
ghost use Rattle.core_calls.specs.Calls.{Gives};
ghost use Rattle.core_calls.specs.Events.{Told};
ghost use Rattle.graph_workers.specs.Passes.{IsFaulted};
ghost use Rattle.turn_board.specs.Board.{known};
ghost use Rattle.store_turns.specs.Fits.{actor_at, name_in};
ghost use Rattle.store_board.specs.Standing.{Stands, Goes};
ghost use Rattle.store_turns.specs.declared.session.Work.{Work};
ghost use Rattle.store_turns.specs.Moves.{IsFree, IsLost, IsNext};

use core_states::Stage;
use graph_model::Outcome;
use std::sync::Wait;
use store_board::{StoreBoard, StorePass};
use store_calls::End;
use store_rows::{ShardHome, Undo};
use store_turns::Session;
use turn_board::ShowsLog;

/// The next vertex that the transaction has to give free; none exactly where all that it took is free.
pub fn next_taken(session: &Session) -> Option<u64>
    ensures some { IfSome result (λ v. (t : Work) × (session.now.work ≡ Some t) × IsNext v t) }
    ensures none { IfNone result ((t : Work) → session.now.work ≡ Some t → IsFree t) }
{
    let work = session.work.as_ref()?;
    let (v, _) = work.touched.get(work.settled)?;
    Some(v)
}

/// The transaction is given up: each vertex that it took is undone, in their order, and it ends. It takes no memory.
///
/// Time: for each vertex one turn of its shard, and one of the clock. Nothing here says that the waits end.
pub fn give_up<W: ShowsLog, R: Wait>(
    rt: &R,
    board: &StoreBoard<ShardHome, W>,
    pass: &mut StorePass<ShardHome, W>,
    session: &mut Session,
)
    requires stands { Stands board.now.turns board.now.shards pass.old session.old }
    requires lost { (t : Work) × (session.old.work ≡ Some t) × IsLost t }
    ensures goes { (ts : List Told) × Gives ts
        × Goes board.now.turns board.now.shards ts pass.old pass.new session.old session.new }
    ensures idle { session.new ≡ record session.old { work = None } }
    ensures faulted { (before after : ℕ) (t : Work) → session.old.work ≡ Some t
        → t.stage ≡ Stage.Decided (Outcome.Failed before after)
        → IsFaulted before after (actor_at (known pass.new) (name_in (known pass.old) session.old.index)).receipts }
{
    while let Some(v) = next_taken(session) {
        drop(board.by_shard(rt, pass, session, &Undo { v }));
    }
    drop(board.by_clock(rt, pass, session, &End));
}
