//! The sessions of one worker.

ghost use Rattle.std.specs.Prelude.{◌≡◌, List, None};
ghost use Rattle.core_calls.specs.Events.{Told};
ghost use Rattle.store_board.specs.Standing.{Stands, Goes, IsAtBoard};
ghost use Rattle.graph_workers.specs.Passes.{SessionCloses};
ghost use Rattle.turn_board.specs.Board.{known};
ghost use Rattle.store_turns.specs.Fits.{actor_at, name_in};
ghost use Rattle.worker_sessions.specs.Sessions.{AllFit, AreApart, indices, IsShut, IsIdle, MayClose, IsDone, EachIs, HaveOpened, HaveClosed};

use std::sync::Wait;
use store_board::{StoreBoard, StorePass};
use store_rows::ShardHome;
use store_sessions::{close_session, give_up, open_session};
use store_turns::Session;
use turn_board::ShowsLog;

/// Opens each of the sessions. It takes no memory.
///
/// Time: one turn of the clock for each. Nothing here says that the waits end.
pub fn open_all<W: ShowsLog, R: Wait>(
    rt: &R,
    board: &StoreBoard<ShardHome, W>,
    pass: &mut StorePass<ShardHome, W>,
    sessions: &mut [Session],
)
    requires stands { IsAtBoard board.now.turns board.now.shards pass.old }
    requires fit { AllFit sessions.old (known pass.old) }
    requires apart { AreApart (indices sessions.old) }
    requires shut { EachIs IsShut sessions.old }
    ensures stands { IsAtBoard board.now.turns board.now.shards pass.new }
    ensures fit { AllFit sessions.new (known pass.new) }
    ensures same { indices sessions.new ≡ indices sessions.old }
    ensures idle { EachIs IsIdle sessions.new }
    ensures opened { HaveOpened (indices sessions.old) (known pass.old) (known pass.new) }
{
    for i in 0..sessions.len() {
        open_session(rt, board, pass, &mut sessions[i]);
    }
}

// Gives up what the session has open, and closes it.
fn close_one<W: ShowsLog, R: Wait>(
    rt: &R,
    board: &StoreBoard<ShardHome, W>,
    pass: &mut StorePass<ShardHome, W>,
    session: &mut Session,
)
    requires stands { Stands board.now.turns board.now.shards pass.old session.old }
    requires may { MayClose session.old }
    ensures goes { (ts : List Told)
        × SessionCloses (actor_at (known pass.old) (name_in (known pass.old) session.old.index)).txn ts
        × Goes board.now.turns board.now.shards ts pass.old pass.new session.old session.new }
    ensures done { IsDone session.new }
{
    if session.work.is_some() {
        give_up(rt, board, pass, session);
    }
    close_session(rt, board, pass, session);
}

/// Closes each of the sessions. What one has open is given up before. It takes no memory.
///
/// Time: one turn of the clock for each, and what is given up takes its own. Nothing here says that the waits end.
pub fn close_all<W: ShowsLog, R: Wait>(
    rt: &R,
    board: &StoreBoard<ShardHome, W>,
    pass: &mut StorePass<ShardHome, W>,
    sessions: &mut [Session],
)
    requires stands { IsAtBoard board.now.turns board.now.shards pass.old }
    requires fit { AllFit sessions.old (known pass.old) }
    requires apart { AreApart (indices sessions.old) }
    requires may { EachIs MayClose sessions.old }
    ensures stands { IsAtBoard board.now.turns board.now.shards pass.new }
    ensures fit { AllFit sessions.new (known pass.new) }
    ensures same { indices sessions.new ≡ indices sessions.old }
    ensures done { EachIs IsDone sessions.new }
    ensures closed { HaveClosed (indices sessions.old) (known pass.old) (known pass.new) }
{
    for i in 0..sessions.len() {
        close_one(rt, board, pass, &mut sessions[i]);
    }
}
