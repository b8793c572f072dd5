//! The events that work on the log part, alone or with the clock. After want of memory these and the actor are as
//! they were.

ghost use Rattle.std.specs.Prelude.{◌≡◌, ◌+◌, ◌≤◌, ◌<◌, ◌++◌, IfOk, OnOk, OnErr, take, drop, length, [], ◌∷◌, ◌^◌};
ghost use Rattle.graph_model.specs.Records.{number_end};
ghost use Rattle.graph_model.specs.declared.record.Outcome.TheVariants as outcomes;
ghost use Rattle.core_states.specs.Numbers.{numbered, settled_as, pending_of};
ghost use Rattle.core_states.specs.States.{first_name};
ghost use Rattle.core_states.specs.LogParts.{is_held_by, may_take, more_tried};
ghost use Rattle.core_states.specs.LogEvents.{told, without_group, writes, mends, collects, publishes, fails};
ghost use Rattle.core_states.specs.Moves.{DoesOnLog, DoesOnGroup};
ghost use Rattle.core_events.specs.CoreLogs.{named, log_of};

use crate::CoreLog;
use core_states::copies::copy_changes;
use core_states::lists::{can_join, join, one};
use core_states::numbers::has_record;
use core_states::{Active, Actor, Clock, CoreAnswer, KeptOutcome, Listed, Stage, Transaction};
use graph_model::{GROUP_MOST, NoMemory, Outcome, Record};
use std::alloc::Global;
use std::collections::LinkedList;
use std::mem;

// Whether the actor holds the log turn.
fn is_held_by(me: u32, holder: Option<u32>) -> bool
    ensures { result ≡ is_held_by (first_name me) (named holder) }
{
    match holder {
        Some(actor) => me == actor,
        None => false,
    }
}

// Whether nobody else holds the log turn.
fn may_take(me: u32, holder: Option<u32>) -> bool
    ensures { result ≡ may_take (first_name me) (named holder) }
{
    match holder {
        Some(actor) => me == actor,
        None => true,
    }
}

/// Notes that the group that the actor collected is durable. Time: one step for each byte of the group.
pub fn write_group(
    alloc: Global,
    moment: u64,
    me: u32,
    log: &mut CoreLog,
    actor: &mut Actor,
) -> Result<CoreAnswer, NoMemory>
    requires { log.old.durable ≤ number_end }
    ensures done { IfOk result (λ answer.
        DoesOnLog (writes moment (first_name me) (log_of log.old) actor.old)
        (log_of log.old) actor.old answer (log_of log.new) actor.new) }
    ensures unchanged { OnErr result ((log.new ≡ log.old) × (actor.new ≡ actor.old)) }
{
    if !is_held_by(me, log.holder) {
        return Ok(CoreAnswer::NotEnabled);
    }
    if actor.written || !log.mended || moment < log.moment {
        return Ok(CoreAnswer::NotEnabled);
    }
    let written = numbered_copies(alloc, log.durable + 1, &actor.group)?;
    let moments = one(alloc, moment)?;
    if !can_join(&log.disk.durable, &written) || !can_join(&log.disk.moments, &moments) {
        return Err(NoMemory);
    }
    join(&mut log.disk.durable, written);
    join(&mut log.disk.moments, moments);
    log.durable += 1;
    log.moment = moment;
    actor.written = true;
    actor.looked = None;
    Ok(CoreAnswer::Done)
}

// A copy of each record, with this epoch.
fn numbered_copies(
    alloc: Global,
    epoch: u64,
    records: &LinkedList<Record>,
) -> Result<LinkedList<Record>, NoMemory>
    ensures { IfOk result (λ copies. copies ≡ numbered epoch records.now) }
{
    let mut copies = LinkedList::new(alloc);
    for record in records {
        let changes = copy_changes(alloc, &record.changes)?;
        copies.push_back(Record {
            tid: record.tid,
            read: record.read,
            epoch,
            changes,
        })?;
    }
    Ok(copies)
}

/// Notes that the failed attempt is gone from the disk.
pub fn mend(me: u32, log: &mut CoreLog, actor: &mut Actor) -> CoreAnswer
    ensures { DoesOnLog (mends (first_name me) (log_of log.old) actor.old)
        (log_of log.old) actor.old result (log_of log.new) actor.new }
{
    if log.mended {
        return CoreAnswer::NotEnabled;
    }
    if !may_take(me, log.holder) {
        return CoreAnswer::NotEnabled;
    }
    log.mended = true;
    log.disk.attempt = None;
    actor.looked = None;
    CoreAnswer::Done
}

/// Takes the log turn and the first queued records, 64 at most.
pub fn collect(
    me: u32,
    log: &mut CoreLog,
    clock: &mut Clock,
    actor: &mut Actor,
) -> Result<CoreAnswer, NoMemory>
    ensures done { IfOk result (λ answer. DoesOnGroup (collects (first_name me) (log_of log.old) clock.old actor.old)
        (log_of log.old) clock.old actor.old answer (log_of log.new) clock.new actor.new) }
    ensures unchanged { OnErr result ((log.new ≡ log.old) × (clock.new ≡ clock.old) × (actor.new ≡ actor.old)) }
{
    if log.holder.is_some() {
        return Ok(CoreAnswer::NotEnabled);
    }
    if clock.queue.is_empty() {
        return Ok(CoreAnswer::NotEnabled);
    }
    actor.group = take_first(&mut clock.queue, GROUP_MOST)?;
    actor.looked = None;
    log.holder = Some(me);
    Ok(CoreAnswer::Collected {
        members: actor.group.len() as u32,
    })
}

// Takes the first records off, as many as this or all.
fn take_first(
    records: &mut LinkedList<Record>,
    count: usize,
) -> Result<LinkedList<Record>, NoMemory>
    ensures first { IfOk result (λ first. first ≡ take count records.old) }
    ensures few { IfOk result (λ first. length first ≤ count) }
    ensures rest { OnOk result (records.new ≡ drop count records.old) }
    ensures unchanged { OnErr result (records.new ≡ records.old) }
{
    let count = count.min(records.len());
    let rest = records.split_off(count)?;
    Ok(mem::replace(records, rest))
}

/// Gives the records that the actor collected and wrote the next epoch, keeps them with the moment of their
/// append, and gives the log turn back.
pub fn publish(
    alloc: Global,
    me: u32,
    log: &mut CoreLog,
    clock: &mut Clock,
    actor: &mut Actor,
) -> Result<CoreAnswer, NoMemory>
    requires { clock.old.last < number_end }
    ensures done { IfOk result (λ answer. DoesOnGroup (publishes (first_name me) (log_of log.old) clock.old actor.old)
        (log_of log.old) clock.old actor.old answer (log_of log.new) clock.new actor.new) }
    ensures unchanged { OnErr result ((log.new ≡ log.old) × (clock.new ≡ clock.old) × (actor.new ≡ actor.old)) }
{
    if !is_held_by(me, log.holder) {
        return Ok(CoreAnswer::NotEnabled);
    }
    if !actor.written {
        return Ok(CoreAnswer::NotEnabled);
    }
    let epoch = clock.last + 1;
    keep(alloc, epoch, log.moment, &actor.group, clock)?;
    leave_group(alloc, Outcome::Committed { epoch }, actor);
    log.holder = None;
    Ok(CoreAnswer::Published { epoch })
}

// Keeps the records of a group, all of this epoch, with their outcomes and the moment of their append, and notes
// that they are not done.
fn keep(
    alloc: Global,
    epoch: u64,
    moment: u64,
    group: &LinkedList<Record>,
    clock: &mut Clock,
) -> Result<(), NoMemory>
    ensures kept { OnOk result (clock.new ≡ record clock.old {
      last = epoch;
      moments = clock.old.moments ++ moment ∷ [];
      pending = clock.old.pending ++ pending_of epoch group.now;
      outcomes = clock.old.outcomes ++ settled_as (outcomes.Committed epoch) group.now;
      records = clock.old.records ++ numbered epoch group.now;
    }) }
    ensures unchanged { OnErr result (clock.new ≡ clock.old) }
{
    let records = numbered_copies(alloc, epoch, group)?;
    let outcomes = outcomes_of(alloc, Outcome::Committed { epoch }, group)?;
    let moments = one(alloc, moment)?;
    let pending = pending_of(alloc, epoch, group)?;
    if !can_join(&clock.records, &records) || !can_join(&clock.outcomes, &outcomes) {
        return Err(NoMemory);
    }
    if !can_join(&clock.moments, &moments) {
        return Err(NoMemory);
    }
    clock.pending.append(pending)?;
    join(&mut clock.records, records);
    join(&mut clock.outcomes, outcomes);
    join(&mut clock.moments, moments);
    clock.last = epoch;
    Ok(())
}

// This outcome for each record of a group.
fn outcomes_of(
    alloc: Global,
    outcome: Outcome,
    group: &LinkedList<Record>,
) -> Result<LinkedList<KeptOutcome>, NoMemory>
    ensures { IfOk result (λ kept. kept ≡ settled_as outcome group.now) }
{
    let mut kept = LinkedList::new(alloc);
    for record in group {
        kept.push_back(KeptOutcome {
            tid: record.tid,
            outcome,
        })?;
    }
    Ok(kept)
}

// Each record of a group, with this epoch, as not done.
fn pending_of(
    alloc: Global,
    epoch: u64,
    group: &LinkedList<Record>,
) -> Result<Listed<Active>, NoMemory>
    ensures { IfOk result (λ pending. pending ≡ pending_of epoch group.now) }
{
    let mut pending = Listed::new(alloc);
    for record in group {
        pending.push_back(Active {
            tid: record.tid,
            epoch,
        })?;
    }
    Ok(pending)
}

// Takes the group off the actor. Where the actor's own record is in it, it knows the outcome.
fn leave_group(alloc: Global, outcome: Outcome, actor: &mut Actor)
    ensures { actor.new ≡ without_group outcome actor.old }
{
    actor.txn = told(outcome, &actor.group, actor.txn.take());
    actor.group = LinkedList::new(alloc);
    actor.written = false;
    actor.looked = None;
}

// A transaction whose record is in the group knows the outcome.
fn told(
    outcome: Outcome,
    group: &LinkedList<Record>,
    txn: Option<Transaction>,
) -> Option<Transaction>
    ensures { result ≡ told outcome group.now txn }
{
    match txn {
        None => None,
        Some(mut txn) => {
            if has_record(txn.tid, group) {
                txn.stage = Stage::Decided { outcome };
            }
            Some(txn)
        }
    }
}

// The group as one that was tried, with the epoch after the last durable one; none where an attempt stands.
fn newly_tried(
    alloc: Global,
    log: &CoreLog,
    group: &LinkedList<Record>,
) -> Result<LinkedList<LinkedList<Record>>, NoMemory>
    requires { log.now.durable ≤ number_end }
    ensures { IfOk result (λ tried. tried
        ≡ more_tried log.now.disk.attempt (numbered (log.now.durable + 1) group.now) []) }
{
    if log.disk.attempt.is_some() {
        return Ok(LinkedList::new(alloc));
    }
    one(alloc, numbered_copies(alloc, log.durable + 1, group)?)
}

/// Gives up the records that the actor collected, whose append met a fault of the disk, and gives the log
/// turn back. Time: one step for each byte of the group.
pub fn fail(
    alloc: Global,
    before: u64,
    after: u64,
    me: u32,
    log: &mut CoreLog,
    clock: &mut Clock,
    actor: &mut Actor,
) -> Result<CoreAnswer, NoMemory>
    requires { log.old.durable ≤ number_end }
    ensures done { IfOk result (λ answer.
        DoesOnGroup (fails before after (first_name me) (log_of log.old) clock.old actor.old)
        (log_of log.old) clock.old actor.old answer (log_of log.new) clock.new actor.new) }
    ensures unchanged { OnErr result ((log.new ≡ log.old) × (clock.new ≡ clock.old) × (actor.new ≡ actor.old)) }
{
    if !is_held_by(me, log.holder) {
        return Ok(CoreAnswer::NotEnabled);
    }
    if actor.written {
        return Ok(CoreAnswer::NotEnabled);
    }
    if !(before < after && log.greatest <= before) {
        return Ok(CoreAnswer::NotEnabled);
    }
    let outcome = Outcome::Failed { before, after };
    let outcomes = outcomes_of(alloc, outcome, &actor.group)?;
    let tried = newly_tried(alloc, log, &actor.group)?;
    let attempt = numbered_copies(alloc, log.durable + 1, &actor.group)?;
    if !can_join(&clock.outcomes, &outcomes) || !can_join(&tried, &log.disk.tried) {
        return Err(NoMemory);
    }
    join(&mut clock.outcomes, outcomes);
    leave_group(alloc, outcome, actor);
    let before = mem::replace(&mut log.disk.tried, tried);
    join(&mut log.disk.tried, before);
    if log.disk.attempt.is_none() {
        log.disk.attempt = Some(attempt);
    }
    log.holder = None;
    log.mended = false;
    log.greatest = after;
    Ok(CoreAnswer::Done)
}
