//! A session opens its row, and closes it.

ghost use Rattle.std.specs.Prelude.{◌≡◌, List, None, true, false};
ghost use Rattle.core_calls.specs.Calls.{Opens, Closes};
ghost use Rattle.core_calls.specs.Events.{Told};
ghost use Rattle.store_board.specs.Standing.{Stands, Goes};

use std::sync::Wait;
use store_board::{StoreBoard, StorePass};
use store_calls::{CloseRow, OpenRow};
use store_rows::ShardHome;
use store_turns::Session;
use turn_board::ShowsLog;

/// The session opens its row. It takes no memory.
///
/// Time: one turn of the clock. Nothing here says that the wait ends.
pub fn open_session<W: ShowsLog, R: Wait>(
    rt: &R,
    board: &StoreBoard<ShardHome, W>,
    pass: &mut StorePass<ShardHome, W>,
    session: &mut Session,
)
    requires stands { Stands board.now.turns board.now.shards pass.old session.old }
    requires closed { session.old.is_open ≡ false }
    ensures goes { (ts : List Told) × Opens ts
        × Goes board.now.turns board.now.shards ts pass.old pass.new session.old session.new }
    ensures session { session.new ≡ record session.old { is_open = true } }
{
    drop(board.by_clock(rt, pass, session, &OpenRow));
}

/// The session closes its row. It takes no memory.
///
/// Time: one turn of the clock. Nothing here says that the wait ends.
pub fn close_session<W: ShowsLog, R: Wait>(
    rt: &R,
    board: &StoreBoard<ShardHome, W>,
    pass: &mut StorePass<ShardHome, W>,
    session: &mut Session,
)
    requires stands { Stands board.now.turns board.now.shards pass.old session.old }
    requires idle { (session.old.is_open ≡ true) × (session.old.work ≡ None) }
    ensures goes { (ts : List Told) × Closes ts
        × Goes board.now.turns board.now.shards ts pass.old pass.new session.old session.new }
    ensures session { session.new ≡ record session.old { is_open = false } }
{
    drop(board.by_clock(rt, pass, session, &CloseRow));
}
