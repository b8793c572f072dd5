//! A transaction of a session begins.

ghost use Rattle.std.specs.Prelude.{◌≡◌, List, None, true};
ghost use Rattle.core_calls.specs.Events.{Told};
ghost use Rattle.turn_board.specs.Board.{known};
ghost use Rattle.store_board.specs.Standing.{Stands, Goes};
ghost use Rattle.store_sessions.specs.Beginning.{BeginTells, BeginLeaves, BeginSees, begun_by};

use crate::refusal::Refusal;
use core_states::CoreAnswer;
use std::alloc::Global;
use std::sync::Wait;
use store_board::{StoreBoard, StorePass};
use store_calls::Begin;
use store_rows::ShardHome;
use store_turns::Session;
use turn_board::ShowsLog;

/// The number of a transaction, and the epoch of its snapshot.
#[derive(Clone, Copy, Debug, PartialEq, Eq)]
pub struct Begun {
    pub tid: u64,
    pub read: u64,
}

/// How a begin ends that the core answers so; None is want of memory.
pub fn begun_by(answer: Option<CoreAnswer>) -> Result<Begun, Refusal>
    ensures { result ≡ begun_by answer }
{
    match answer {
        Some(CoreAnswer::Begun { tid, read }) => Ok(Begun { tid, read }),
        Some(CoreAnswer::Spent) => Err(Refusal::Spent),
        _ => Err(Refusal::NoMemory),
    }
}

/// A transaction begins. `Spent` comes where no number is left for it. After a refusal the session is as before.
///
/// Its snapshot is of an epoch that is at least each that the pass has seen visible.
///
/// Time: one turn of the clock. Nothing here says that the wait ends.
pub fn begin<W: ShowsLog, R: Wait>(
    rt: &R,
    board: &StoreBoard<ShardHome, W>,
    pass: &mut StorePass<ShardHome, W>,
    session: &mut Session,
    alloc: Global,
) -> Result<Begun, Refusal>
    requires stands { Stands board.now.turns board.now.shards pass.old session.old }
    requires idle { (session.old.is_open ≡ true) × (session.old.work ≡ None) }
    ensures goes { (ts : List Told) × BeginTells result ts
        × Goes board.now.turns board.now.shards ts pass.old pass.new session.old session.new }
    ensures session { BeginLeaves result session.old session.new }
    ensures newest { BeginSees result (known pass.old) (known pass.new) }
{
    begun_by(board.by_clock(rt, pass, session, &Begin { alloc }))
}
