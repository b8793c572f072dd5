//! A committed record is applied.

ghost use Rattle.std.specs.Prelude.{◌≡◌, ℕ, List, Some};
ghost use Rattle.core_calls.specs.Events.{Told};
ghost use Rattle.store_turns.specs.declared.session.Work.{Work};
ghost use Rattle.store_turns.specs.Moves.{Won, IsFree};
ghost use Rattle.store_board.specs.Standing.{Stands, Goes};
ghost use Rattle.store_commits.specs.Committing.{AreApplies};

use std::sync::Wait;
use store_board::{StoreBoard, StorePass};
use store_rows::{Apply, ShardHome};
use store_sessions::next_taken;
use store_turns::Session;
use turn_board::ShowsLog;

/// Applies the record at each vertex that the transaction took, in their order. It takes no memory.
///
/// Time: for each vertex one turn of its shard. Nothing here says that the waits end.
pub(crate) fn apply_all<W: ShowsLog, R: Wait>(
    rt: &R,
    board: &StoreBoard<ShardHome, W>,
    pass: &mut StorePass<ShardHome, W>,
    session: &mut Session,
)
    requires stands { Stands board.now.turns board.now.shards pass.old session.old }
    requires won { (t : Work) × (e : ℕ) × Won session.old t e }
    ensures goes { (ts : List Told) × AreApplies ts
        × Goes board.now.turns board.now.shards ts pass.old pass.new session.old session.new }
    ensures won { (t : Work) (e : ℕ) → Won session.old t e → (u : Work) × Won session.new u e × IsFree u
        × (session.new ≡ record session.old { work = Some u }) }
{
    while let Some(v) = next_taken(session) {
        drop(board.by_shard(rt, pass, session, &Apply { v }));
    }
}
