//! A session changes a vertex.

ghost use Rattle.std.specs.Prelude.{◌≡◌, List, Some};
ghost use Rattle.core_calls.specs.Events.{Told};
ghost use Rattle.store_board.specs.Standing.{Stands, Goes};
ghost use Rattle.store_rows.specs.Alters.{AltersVertex};
ghost use Rattle.store_turns.specs.declared.session.Work.{Work};
ghost use Rattle.store_sessions.specs.Changing.{HasDestination, IsAtWork, ChangeTells, ChangeLeaves, TriedTells, TriedLeaves, changed};

use crate::giving_up::give_up;
use crate::refusal::Refusal;
use core_states::CoreAnswer;
use graph_model::Change;
use std::sync::Wait;
use std::thread::yield_now;
use store_board::{StoreBoard, StorePass};
use store_rows::{Alter, ShardHome};
use store_turns::Session;
use turn_board::ShowsLog;

/// How often a call looks at a vertex that another transaction holds.
const LOOKS: u32 = 16;

/// What came of a try: another transaction holds the vertex, or the call ends.
#[derive(Drop)]
enum Tried {
    Held { owner: u64 },
    Ends { end: Result<CoreAnswer, Refusal> },
}

// How a call ends that the core answers so.
fn changed(says: CoreAnswer) -> Result<CoreAnswer, Refusal>
    ensures { result ≡ changed says }
{
    match says {
        CoreAnswer::NoVertex => Err(Refusal::NoVertex),
        CoreAnswer::TxnFull => Err(Refusal::TxnFull),
        CoreAnswer::LogFull => Err(Refusal::LogFull),
        says => Ok(says),
    }
}

// The snapshot of the session's transaction.
fn read_of(session: &Session) -> u64
    ensures { (t : Work) → session.now.work ≡ Some t → result ≡ t.read }
{
    match &session.work {
        Some(work) => work.read,
        None => 0,
    }
}

// Tries the change once. Where a later commit changed the vertex the transaction is given up.
fn try_change<W: ShowsLog, R: Wait>(
    rt: &R,
    board: &StoreBoard<ShardHome, W>,
    pass: &mut StorePass<ShardHome, W>,
    session: &mut Session,
    change: &Change,
) -> Tried
    requires stands { Stands board.now.turns board.now.shards pass.old session.old }
    requires works { IsAtWork session.old }
    ensures goes { (ts : List Told) × TriedTells change.now result ts
        × Goes board.now.turns board.now.shards ts pass.old pass.new session.old session.new }
    ensures session { TriedLeaves result session.old session.new }
{
    let Some(says) = board.by_shard(rt, pass, session, &Alter { change }) else {
        return Tried::Ends {
            end: Err(Refusal::NoMemory),
        };
    };
    match says {
        CoreAnswer::Held { owner } => Tried::Held { owner },
        CoreAnswer::Conflict { committed } => {
            let read = read_of(session);
            give_up(rt, board, pass, session);
            Tried::Ends {
                end: Err(Refusal::Conflict {
                    vertex: change.vertex(),
                    committed,
                    read,
                }),
            }
        }
        says => Tried::Ends { end: changed(says) },
    }
}

/// The transaction changes a vertex that is there. Where another transaction holds it, it is looked at again, 16 times in
/// all; between two looks other threads run.
///
/// After `Held` and `Conflict` the transaction is undone and has ended. After each other refusal it goes on.
///
/// Time: one turn of the vertex's shard for each look. Nothing here says that the waits end.
pub fn change<W: ShowsLog, R: Wait>(
    rt: &R,
    board: &StoreBoard<ShardHome, W>,
    pass: &mut StorePass<ShardHome, W>,
    session: &mut Session,
    change: &Change,
) -> Result<CoreAnswer, Refusal>
    requires stands { Stands board.now.turns board.now.shards pass.old session.old }
    requires works { IsAtWork session.old }
    requires alters { AltersVertex change.now }
    requires destination { HasDestination change.now }
    ensures goes { (ts : List Told) × ChangeTells change.now result ts
        × Goes board.now.turns board.now.shards ts pass.old pass.new session.old session.new }
    ensures session { ChangeLeaves result session.old session.new }
{
    for looks in 1..LOOKS {
        match try_change(rt, board, pass, session, change) {
            Tried::Held { .. } => yield_now(),
            Tried::Ends { end } => return end,
        }
    }
    match try_change(rt, board, pass, session, change) {
        Tried::Held { owner } => {
            give_up(rt, board, pass, session);
            Err(Refusal::Held {
                vertex: change.vertex(),
                holder: owner,
                looks: LOOKS,
            })
        }
        Tried::Ends { end } => end,
    }
}
