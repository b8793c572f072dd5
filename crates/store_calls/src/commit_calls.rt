//! The events of a commit on the clock: a record is queued, its outcome is heard, it is done, and its epoch is seen.

ghost use Rattle.std.specs.Prelude.{◌≡◌};
ghost use Rattle.store_turns.specs.Moves.{IsQueuedOf};

use crate::stages::is_queued;
use core_states::{CoreAnswer, Stage};
use graph_model::{Bytes, Changes, Record};
use group_commit::Member;
use std::alloc::Global;
use store_turns::{ClockCall, ClockHome, Session, Work};

// The record that a transaction has for the log, and the rest of the transaction, which waits for the outcome. It takes
// no memory.
fn queued(alloc: Global, work: Work) -> (Member, Work)
    ensures member { result.0.draft ≡ record { tid = work.tid; read = work.read; epoch = 0; changes = work.changes } }
    ensures waits { IsQueuedOf work result.1 }
    ensures keeps { (result.1.drawn ≡ work.drawn) × (result.1.left ≡ work.left) }
{
    let member = Member::new(
        Record {
            tid: work.tid,
            read: work.read,
            epoch: 0,
            changes: work.changes,
        },
        work.spelling,
    );
    let waits = Work {
        tid: work.tid,
        read: work.read,
        row: work.row,
        stage: Stage::Queued,
        drawn: work.drawn,
        changes: Changes::new(alloc),
        spelling: Bytes::new(alloc),
        left: work.left,
        touched: work.touched,
        settled: work.settled,
    };
    (member, waits)
}

/// The transaction's record is queued. Nothing is done where no transaction works, or where it has changed nothing. It
/// takes no memory.
#[derive(Drop)]
pub struct Enqueue {
    pub alloc: Global,
}

impl ClockCall for Enqueue {
    ghost use Rattle.core_states.specs.declared.event.Act.TheVariants as act;
    ghost use Rattle.store_turns.specs.Moves.{QueuesWork};

    ghost acts = { λ _ _. act.Enqueue };

    ghost leaves = { λ _ o s s'. QueuesWork o s s' };

    fn call(&self, home: &mut ClockHome, session: &mut Session) -> Option<CoreAnswer> {
        if session.working()?.changes.is_empty() {
            return None;
        }
        let (member, waits) = queued(self.alloc, session.work.take()?);
        session.work = Some(waits);
        let learnt = home.part.enqueue(member);
        Some(CoreAnswer::Learnt {
            horizon: learnt.horizon,
            oldest: learnt.oldest,
        })
    }
}

/// The record's outcome is asked for. Nothing is done where no record waits for one.
#[derive(Drop)]
pub struct Hear;

impl ClockCall for Hear {
    ghost use Rattle.core_states.specs.declared.event.Act.TheVariants as act;
    ghost use Rattle.store_turns.specs.Moves.{HearsOutcome};

    ghost acts = { λ _ _. act.Outcome };

    ghost leaves = { λ _ o s s'. HearsOutcome o s s' };

    fn call(&self, home: &mut ClockHome, session: &mut Session) -> Option<CoreAnswer> {
        let work = session.work.as_ref()?;
        if !is_queued(work.stage) {
            return None;
        }
        match home.part.outcome(work.tid) {
            Some(outcome) => {
                session.work.as_mut()?.stage = Stage::Decided { outcome };
                Some(CoreAnswer::Kept {
                    outcome: Some(outcome),
                })
            }
            None => Some(CoreAnswer::Kept { outcome: None }),
        }
    }
}

/// The record is done, and with it the transaction. Nothing is done where no record is committed, or where it is not
/// applied everywhere.
#[derive(Drop)]
pub struct Finish;

impl ClockCall for Finish {
    ghost use Rattle.core_states.specs.declared.event.Act.TheVariants as act;
    ghost use Rattle.store_turns.specs.Moves.{FinishesWork};

    ghost acts = { λ _ _. act.Done };

    ghost leaves = { λ _ o s s'. FinishesWork o s s' };

    fn call(&self, home: &mut ClockHome, session: &mut Session) -> Option<CoreAnswer> {
        let work = session.work.as_ref()?;
        let epoch = work.won()?;
        if work.settled < work.touched.len() {
            return None;
        }
        let row = home.part.row_of(work.row, work.tid);
        home.part.done(row, work.tid);
        home.part.close_row(row);
        session.work = None;
        session.finished = Some(epoch);
        Some(CoreAnswer::Done)
    }
}

/// It is asked whether the epoch of the last record is visible. Nothing is done where a transaction runs, or where none
/// was committed since the last one began.
#[derive(Drop)]
pub struct See;

impl ClockCall for See {
    ghost use Rattle.core_states.specs.declared.event.Act.TheVariants as act;
    ghost use Rattle.store_turns.specs.Moves.{SeesEpoch};

    ghost acts = { λ _ _. act.Seen };

    ghost leaves = { λ _ o s s'. SeesEpoch o s s' };

    fn call(&self, home: &mut ClockHome, session: &mut Session) -> Option<CoreAnswer> {
        if session.work.is_some() {
            return None;
        }
        let epoch = session.finished?;
        Some(CoreAnswer::Visible {
            yes: home.part.seen(epoch),
        })
    }
}
