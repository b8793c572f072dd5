//! The end of a group on the clock, as the disk answered its append.

ghost use Rattle.std.specs.Prelude.{◌≡◌, ◌<◌, ◌++◌, Some, slice_get, length};
ghost use Rattle.core_states.specs.Numbers.{has_record};
ghost use Rattle.epoch_clock.specs.Decided.{Awaited};
ghost use Rattle.group_commit.specs.Members.{records_at};
ghost use Rattle.store_leads.specs.Endings.{EndsGroup, IsEndOf, RoseIf, clock_by, outcome_by, own_in, told_if};

use crate::appending::Tried;
use core_states::Stage;
use graph_model::Outcome;
use graph_wal::DiskFault;
use group_commit::{Group, Member};
use store_turns::{ClockHome, Session};
use turn_board::Happens;

/// What became of a group: it was published with this epoch, durable since a moment, or it has failed.
#[derive(Clone, Copy, Debug, PartialEq, Eq)]
pub(crate) enum End {
    Published { moment: u64, epoch: u64 },
    Failed { before: u64, after: u64 },
}

/// How a leader's group ended, and whether the log was mended before its append.
#[derive(Drop)]
pub(crate) struct Ended {
    pub index: u64,
    pub mended: bool,
    pub end: End,
}

impl Happens for Ended {
    ghost use Rattle.store_turns.specs.Fits.{name_in};
    ghost use Rattle.store_leads.specs.Endings.{ending_told, dones};

    ghost events = { λ x v. dones (name_in v x.index) (ending_told x.mended x.end) };
}

// The member at a place.
fn member_at(group: &Group, i: usize) -> &Member
    requires { i < length group.now }
    ensures { slice_get group.now i ≡ Some result.now }
{
    group.get(i).unwrap()
}

// Whether the record of a transaction is in the group.
fn has_member(group: &Group, tid: u64) -> bool
    ensures { result ≡ has_record tid (records_at 0 group.now) }
{
    for i in 0..group.len() {
        if member_at(group, i).record().tid == tid {
            return true;
        }
    }
    false
}

// Whether the group has the record of the session's transaction.
fn is_own(session: &Session, group: &Group) -> bool
    ensures { result ≡ own_in (records_at 0 group.now) session.now.work }
{
    match &session.work {
        Some(work) => has_member(group, work.tid),
        None => false,
    }
}

// The session knows this outcome of its record, where it is its own.
fn tell(session: &mut Session, own: bool, outcome: Outcome)
    ensures { session.new ≡ record session.old { work = told_if own outcome session.old.work } }
{
    if !own {
        return;
    }
    if let Some(work) = session.work.as_mut() {
        work.stage = Stage::Decided { outcome };
    }
}

// Publishes the group, or gives it up, as the disk answered.
fn end_on(home: &mut ClockHome, group: &mut Group, answer: Result<u64, DiskFault>) -> End
    requires some { 0 < length group.old }
    requires collected { Awaited home.old.part.clock.rows home.old.part.clock.outcomes
        (records_at 0 group.old ++ home.old.part.clock.queue) }
    requires rose { RoseIf answer }
    ensures end { IsEndOf answer home.old.part.clock result }
    ensures clock { home.new.part.clock ≡ clock_by result (records_at 0 group.old) home.old.part.clock }
{
    match answer {
        Ok(moment) => {
            let epoch = home.part.publish_from(group, moment);
            End::Published { moment, epoch }
        }
        Err(DiskFault { before, after }) => {
            home.part.fail_from(group, before, after);
            End::Failed { before, after }
        }
    }
}

// The outcome of each record of a group that ended so.
fn outcome_of(end: End) -> Outcome
    ensures { result ≡ outcome_by end }
{
    match end {
        End::Published { epoch, .. } => Outcome::Committed { epoch },
        End::Failed { before, after } => Outcome::Failed { before, after },
    }
}

/// Publishes the group, or gives it up; the session knows its record's outcome where it is of the group.
///
/// It takes no memory. Time: one step for each member.
pub(crate) fn end_group(
    home: &mut Box<ClockHome>,
    session: &mut Session,
    group: &mut Group,
    tried: Tried,
) -> Ended
    requires some { 0 < length group.old }
    requires collected { Awaited home.old.value.part.clock.rows home.old.value.part.clock.outcomes
        (records_at 0 group.old ++ home.old.value.part.clock.queue) }
    requires rose { RoseIf tried.answer }
    ensures ends { EndsGroup (records_at 0 group.old) tried home.old.value.part.clock session.old
        result home.new.value.part.clock session.new }
{
    let Tried { mended, answer } = tried;
    let own = is_own(session, group);
    let end = end_on(home.as_mut(), group, answer);
    tell(session, own, outcome_of(end));
    Ended {
        index: session.index,
        mended,
        end,
    }
}
