//! The acts of an actor on the clock, as the core's events on it.

ghost use Rattle.std.specs.Prelude.{◌≡◌, true, Ok};
ghost use Rattle.core_states.specs.declared.event.Act.TheVariants as act;
ghost use Rattle.core_states.specs.ClockEvents.{told_learnt};
ghost use Rattle.reader_table.specs.Rows.{is_active};
ghost use Rattle.epoch_clock.specs.ActiveRows.{tid_in};
ghost use Rattle.clock_facts.specs.Known.{KnowsActor};
ghost use Rattle.part_scripts.specs.Clocks.{DidOnClock};

use crate::members::member_of;
use core_states::numbers::all_in;
use core_states::{Act, Actor, CoreAnswer, Learnt};
use epoch_clock::{BeginRefusal, EpochPart};
use graph_model::NoMemory;
use reader_table::Row;
use std::alloc::Global;

/// Does an act of an actor on the clock, whose reader row this is, and tells what it answers; none where the actor may
/// not do it, and then nothing is done.
pub fn act_on_clock(
    alloc: Global,
    part: &mut EpochPart,
    actor: &Actor,
    row: &mut u32,
    act: &Act,
) -> Result<Option<CoreAnswer>, NoMemory>
    requires { KnowsActor part.old.clock actor.now }
    ensures { DidOnClock act.now actor.now part.old.clock result part.new.clock }
{
    match act {
        Act::Open => open(part, actor, row),
        Act::Close => Ok(close(part, actor, *row)),
        Act::Begin => begin(part, actor, *row),
        Act::Draw => Ok(draw(part, actor)),
        Act::Enqueue => enqueue(alloc, part, actor),
        Act::Outcome => Ok(hear(part, actor)),
        Act::Done => Ok(finish(part, actor, *row)),
        Act::Seen => Ok(see(part, actor)),
        Act::End => Ok(end(part, actor, *row)),
        Act::Horizon => Ok(Some(told(part.horizon()))),
        _ => Ok(None),
    }
}

// Opens a reader row for an actor that has none.
fn open(part: &mut EpochPart, actor: &Actor, row: &mut u32) -> Result<Option<CoreAnswer>, NoMemory>
    ensures { DidOnClock act.Open actor.now part.old.clock result part.new.clock }
{
    if actor.row {
        return Ok(None);
    }
    *row = part.open_row()?;
    Ok(Some(CoreAnswer::Done))
}

// Closes the row of an idle actor.
fn close(part: &mut EpochPart, actor: &Actor, row: u32) -> Option<CoreAnswer>
    ensures { DidOnClock act.Close actor.now part.old.clock (Ok result) part.new.clock }
{
    if !actor.row || actor.txn.is_some() || part.row(row) != Some(Row::Idle) {
        return None;
    }
    part.close_row(row);
    Some(CoreAnswer::Done)
}

// Begins a transaction of an idle actor.
fn begin(part: &mut EpochPart, actor: &Actor, row: u32) -> Result<Option<CoreAnswer>, NoMemory>
    ensures { DidOnClock act.Begin actor.now part.old.clock result part.new.clock }
{
    if !actor.row || actor.txn.is_some() || part.row(row) != Some(Row::Idle) {
        return Ok(None);
    }
    match part.begin(row) {
        Ok(drawn) => Ok(Some(CoreAnswer::Begun {
            tid: drawn.tid,
            read: drawn.read,
        })),
        Err(BeginRefusal::Spent) => Ok(Some(CoreAnswer::Spent)),
        Err(BeginRefusal::NoMemory) => Err(NoMemory),
    }
}

// Draws a vertex number.
fn draw(part: &mut EpochPart, actor: &Actor) -> Option<CoreAnswer>
    ensures { DidOnClock act.Draw actor.now part.old.clock (Ok result) part.new.clock }
{
    let x = actor.txn.as_ref()?;
    if !x.is_working() {
        return None;
    }
    match part.draw() {
        Some(v) => Some(CoreAnswer::Number { v }),
        None => Some(CoreAnswer::Spent),
    }
}

// Queues the record of a transaction.
fn enqueue(
    alloc: Global,
    part: &mut EpochPart,
    actor: &Actor,
) -> Result<Option<CoreAnswer>, NoMemory>
    requires { KnowsActor part.old.clock actor.now }
    ensures { DidOnClock act.Enqueue actor.now part.old.clock result part.new.clock }
{
    let Some(x) = &actor.txn else {
        return Ok(None);
    };
    if !x.is_working() || x.own.is_empty() {
        return Ok(None);
    }
    let changes = x.own.copy(alloc)?;
    let member = member_of(alloc, x.tid, x.read, changes)?;
    Ok(Some(told(part.enqueue(member))))
}

// What is told of the horizon and the oldest number.
fn told(learnt: Learnt) -> CoreAnswer
    ensures { result ≡ told_learnt learnt }
{
    CoreAnswer::Learnt {
        horizon: learnt.horizon,
        oldest: learnt.oldest,
    }
}

// Hears the outcome of a record that waits.
fn hear(part: &EpochPart, actor: &Actor) -> Option<CoreAnswer>
    ensures { DidOnClock act.Outcome actor.now part.now.clock (Ok result) part.now.clock }
{
    let x = actor.txn.as_ref()?;
    if !x.is_queued() {
        return None;
    }
    Some(CoreAnswer::Kept {
        outcome: part.outcome(x.tid),
    })
}

// Notes that a published record is applied everywhere.
fn finish(part: &mut EpochPart, actor: &Actor, row: u32) -> Option<CoreAnswer>
    requires { KnowsActor part.old.clock actor.now }
    ensures { DidOnClock act.Done actor.now part.old.clock (Ok result) part.new.clock }
{
    let x = actor.txn.as_ref()?;
    let _epoch = x.won_epoch()?;
    if !all_in(&x.touched, &x.settled) || !is_of(part.row(row), x.tid) {
        return None;
    }
    part.done(row, x.tid);
    Some(CoreAnswer::Done)
}

// Whether this transaction runs in a row.
fn is_of(row: Option<Row>, tid: u64) -> bool
    ensures active { result ≡ true → is_active row ≡ true }
    ensures own { result ≡ true → tid_in row ≡ tid }
{
    match row {
        Some(Row::Active { tid: other, .. }) => other == tid,
        _ => false,
    }
}

// Whether the epoch of the last record is visible.
fn see(part: &EpochPart, actor: &Actor) -> Option<CoreAnswer>
    ensures { DidOnClock act.Seen actor.now part.now.clock (Ok result) part.now.clock }
{
    if actor.txn.is_some() {
        return None;
    }
    let epoch = actor.finished?;
    Some(CoreAnswer::Visible {
        yes: part.seen(epoch),
    })
}

// Ends a transaction that has no record.
fn end(part: &mut EpochPart, actor: &Actor, row: u32) -> Option<CoreAnswer>
    requires { KnowsActor part.old.clock actor.now }
    ensures { DidOnClock act.End actor.now part.old.clock (Ok result) part.new.clock }
{
    let x = actor.txn.as_ref()?;
    if !x.is_loser() || !all_in(&x.touched, &x.settled) || !is_of(part.row(row), x.tid) {
        return None;
    }
    part.end(row);
    Some(CoreAnswer::Done)
}
