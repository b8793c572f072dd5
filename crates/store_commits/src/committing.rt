//! The commit.

ghost use Rattle.std.specs.Prelude.{◌≡◌, List};
ghost use Rattle.core_calls.specs.Events.{Told};
ghost use Rattle.turn_board.specs.Board.{known};
ghost use Rattle.store_turns.specs.Fits.{actor_at, name_in};
ghost use Rattle.store_board.specs.Standing.{Stands, Goes};
ghost use Rattle.store_log.specs.LogChanges.{IsBaseOf};
ghost use Rattle.store_sessions.specs.Changing.{IsAtWork};
ghost use Rattle.store_commits.specs.Committing.{CommitTells, CommitLeaves, CommitSees, HasNoChange};

use crate::applying::apply_all;
use crate::finishing::finish;
use crate::waiting::wait_for_outcome;
use disk_model::Disk;
use graph_model::Outcome;
use std::alloc::Global;
use std::sync::Wait;
use store_board::{StoreBoard, StorePass};
use store_calls::Enqueue;
use store_log::LogHome;
use store_rows::ShardHome;
use store_sessions::{Refusal, give_up};
use store_turns::Session;

/// How a commit ends.
#[derive(Clone, Copy, Debug, PartialEq, Eq)]
pub enum CommitEnd {
    /// The record is durable, and its epoch, which is this, is visible.
    Committed { epoch: u64 },
    /// The transaction had changed nothing: it has ended without a record.
    Ended,
}

// Whether the transaction has changed nothing.
fn is_empty(session: &Session) -> bool
    requires { IsAtWork session.now }
    ensures { HasNoChange session.now result }
{
    match &session.work {
        Some(work) => work.changes.is_empty(),
        None => true,
    }
}

/// The transaction commits: its record is queued, and the session leads until the record's outcome is known, or waits for
/// another leader's; a committed record is applied at each vertex that was taken, and answered once its epoch is visible.
///
/// `LogFault`: the append of the record's group met a fault of the disk; the transaction was undone. In each case the
/// transaction has ended. It takes no memory.
///
/// Time: the bytes of the group and two syncs, and one turn of a shard for each vertex that was taken. Nothing here says
/// that the waits end.
pub fn commit<D: Disk, R: Wait>(
    rt: &R,
    alloc: Global,
    board: &StoreBoard<ShardHome, LogHome<D>>,
    pass: &mut StorePass<ShardHome, LogHome<D>>,
    session: &mut Session,
) -> Result<CommitEnd, Refusal>
    requires stands { Stands board.now.turns board.now.shards pass.old session.old }
    requires found { IsBaseOf (known pass.old).base (known pass.old).found.records }
    requires works { IsAtWork session.old }
    ensures goes { (ts : List Told) × CommitTells session.old result ts
        × Goes board.now.turns board.now.shards ts pass.old pass.new session.old session.new }
    ensures ends { CommitLeaves result session.old session.new
        (actor_at (known pass.new) (name_in (known pass.old) session.old.index)) }
    ensures seen { CommitSees result (known pass.new) }
{
    if is_empty(session) {
        give_up(rt, board, pass, session);
        return Ok(CommitEnd::Ended);
    }
    drop(board.by_clock(rt, pass, session, &Enqueue { alloc }));
    match wait_for_outcome(rt, board, pass, session) {
        Outcome::Committed { epoch } => {
            apply_all(rt, board, pass, session);
            finish(rt, board, pass, session);
            Ok(CommitEnd::Committed { epoch })
        }
        Outcome::Failed { before, after } => {
            give_up(rt, board, pass, session);
            Err(Refusal::LogFault { before, after })
        }
    }
}
