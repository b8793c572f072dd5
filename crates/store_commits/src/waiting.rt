//! The wait for the outcome of a record.

ghost use Rattle.std.specs.Prelude.{◌≡◌, List, Some, None, IfSome, IfNone};
ghost use Rattle.core_calls.specs.Events.{Told};
ghost use Rattle.turn_board.specs.Board.{known};
ghost use Rattle.store_turns.specs.declared.session.Work.{Work};
ghost use Rattle.store_turns.specs.Moves.{Waits};
ghost use Rattle.store_board.specs.Standing.{Stands, Goes};
ghost use Rattle.store_leads.specs.Leads.{AreWaits};
ghost use Rattle.store_log.specs.LogChanges.{IsBaseOf};
ghost use Rattle.store_commits.specs.Committing.{Knows, KnowsNone};

use core_states::Stage;
use disk_model::Disk;
use graph_model::Outcome;
use std::sync::Wait;
use store_board::{StoreBoard, StorePass};
use store_calls::Hear;
use store_leads::lead;
use store_log::LogHome;
use store_rows::ShardHome;
use store_turns::Session;

// The outcome of the session's record, where it knows it.
fn known_outcome(session: &Session) -> Option<Outcome>
    ensures some { IfSome result (λ o. Knows session.now o) }
    ensures none { IfNone result (KnowsNone session.now) }
{
    match session.work.as_ref()?.stage {
        Stage::Decided { outcome } => Some(outcome),
        _ => None,
    }
}

/// Leads, or asks, until the outcome of the session's record is known.
///
/// Nothing here says that the wait ends. It takes no memory.
pub(crate) fn wait_for_outcome<D: Disk, R: Wait>(
    rt: &R,
    board: &StoreBoard<ShardHome, LogHome<D>>,
    pass: &mut StorePass<ShardHome, LogHome<D>>,
    session: &mut Session,
) -> Outcome
    requires stands { Stands board.now.turns board.now.shards pass.old session.old }
    requires found { IsBaseOf (known pass.old).base (known pass.old).found.records }
    requires waits { (t : Work) × Waits session.old t }
    ensures goes { (ts : List Told) × AreWaits ts
        × Goes board.now.turns board.now.shards ts pass.old pass.new session.old session.new }
    ensures known { (t : Work) × Waits session.old t
        × (session.new ≡ record session.old { work = Some (record t { stage = Stage.Decided result }) }) }
{
    for _ in rt.forever() {
        lead(rt, board, pass, session);
        if let Some(outcome) = known_outcome(session) {
            return outcome;
        }
        drop(board.by_clock(rt, pass, session, &Hear));
        if let Some(outcome) = known_outcome(session) {
            return outcome;
        }
    }
    unreachable!()
}
