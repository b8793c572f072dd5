//! A transaction begins, if the clock's turn is free.

ghost use Rattle.std.specs.Prelude.{◌≡◌, List, None, true};
ghost use Rattle.core_calls.specs.Events.{Told};
ghost use Rattle.store_board.specs.Standing.{Stands};
ghost use Rattle.store_tries.specs.Trying.{TryBegins};

use crate::trying::try_by_clock;
use std::alloc::Global;
use store_board::{StoreBoard, StorePass};
use store_calls::Begin;
use store_rows::ShardHome;
use store_sessions::{Begun, Refusal, begun_by};
use store_turns::Session;
use turn_board::ShowsLog;

/// A transaction begins, in one try at the clock's turn. `Busy` comes exactly where another thread had the turn, and `Spent`
/// where no number is left for the transaction. After a refusal the session is as before.
///
/// Time: logarithmic in the transactions that run, and where there is no more room for what commits keep one step for
/// each commit since the store was opened; it never waits.
pub fn try_begin<W: ShowsLog>(
    board: &StoreBoard<ShardHome, W>,
    pass: &mut StorePass<ShardHome, W>,
    session: &mut Session,
    alloc: Global,
) -> Result<Begun, Refusal>
    requires stands { Stands board.now.turns board.now.shards pass.old session.old }
    requires idle { (session.old.is_open ≡ true) × (session.old.work ≡ None) }
    ensures { TryBegins board.now.turns board.now.shards result pass.old pass.new session.old session.new }
{
    match try_by_clock(board, pass, session, &Begin { alloc }) {
        Ok(answer) => begun_by(answer),
        Err(turn) => Err(Refusal::Busy { turn }),
    }
}
