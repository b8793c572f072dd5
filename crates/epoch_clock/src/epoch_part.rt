//! The clock's part.

ghost use Rattle.std.specs.Prelude.{◌≡◌, ◌↔◌, ◌+◌, ◌^◌, ◌<◌, [], ◌∷◌, ◌++◌, ◌==◌, nat_le, false, true, Some, None, Err, length, take, slice_get, slice_set, IfOk, OnOk, OnErr, IfSome, OnSome, IfNone, IsTrue};
ghost use Rattle.graph_model.specs.Records.{IsGood, number_end, group_most};
ghost use Rattle.group_commit.specs.Members.{records_at};
ghost use Rattle.reader_table.specs.Rows.{is_active, is_open, first_closed, opened};
ghost use Rattle.core_states.specs.Numbers.{outcome_of, has_record};
ghost use Rattle.core_states.specs.ClockEvents.{learn, told_learnt};
ghost use Rattle.core_states.specs.declared.event.CoreAnswer.TheVariants as answer;
ghost use Rattle.core_states.specs.Openings.{opened_clock};
ghost use Rattle.epoch_clock.specs.ActiveRows.{actives_of, is_running, tid_in, RunsIn};
ghost use Rattle.epoch_clock.specs.Decided.{Awaited, is_lost, epoch_in, undecided};
ghost use Rattle.epoch_clock.specs.ClockCalls.{waiting_record, begun_clock, drawn_clock, queued_clock, collected_clock, published_clock, failed_clock, finished_clock, ended_clock};
ghost use Rattle.epoch_clock.specs.Events.{OpensRow, ClosesRow, BeginsAs, DrawsAs, Enqueues, Collects, Publishes, Fails, Hears, Finishes, Sees, EndsWithout, Asks};

use crate::commits::Commits;
use crate::drawn::{BeginRefusal, Drawn};
use crate::rising::rise;
use core_states::Learnt;
use graph_model::{Base, Moments, NUMBER_END, NoMemory, Outcome, Records};
use group_commit::{Group, Member};
use reader_table::{ReaderTable, Row};
use std::alloc::Global;
use std::marker::Model;

/// The clock's part. Contracts see the clock of the core, and the rows by their numbers.
#[derive(Drop)]
pub struct EpochPart {
    next_tid: u64,
    next_vertex: u64,
    last: u64,
    visible: u64,
    // How many of the transactions that run have no outcome. There is room for what the commits of these keep.
    undecided: usize,
    readers: ReaderTable,
    commits: Commits,
}

impl Model for EpochPart {
    ghost use Rattle.epoch_clock.specs.EpochStates.{EpochState};

    ghost Value = { EpochState };

    ghost use Rattle.epoch_clock.specs.EpochKept.{epoch_state, IsKept};

    ghost view = { epoch_state };

    ghost invariant = { IsKept };
}

impl EpochPart {
    /// The clock that a run of the base starts with, and these rows, in none of which a transaction runs. It takes
    /// no memory.
    pub fn new(alloc: Global, base: &Base, readers: ReaderTable) -> EpochPart
        requires good { IsGood base.now }
        requires idle { actives_of readers ≡ [] }
        ensures clock { result.clock ≡ opened_clock base.now }
        ensures readers { result.readers ≡ readers }
    {
        EpochPart {
            next_tid: base.next_tid,
            next_vertex: base.next_vertex,
            last: base.epoch,
            visible: base.epoch,
            undecided: 0,
            readers,
            commits: Commits::new(alloc),
        }
    }

    /// Opens the first closed row, or a new one where none is closed. After NoMemory all is as before; it is the
    /// answer only where no row is closed.
    ///
    /// Time: one step for each doubling of the number of rows; where that number has doubled, as much for each row.
    pub fn open_row(&mut self) -> Result<u32, NoMemory>
        ensures row { IfOk result (λ row. row ≡ first_closed self.old.readers) }
        ensures event { OnOk result (OpensRow self.old.clock answer.Done self.new.clock) }
        ensures opened { OnOk result (self.new.readers ≡ opened self.old.readers) }
        ensures not_open { IfOk result (λ row. is_open (slice_get self.old.readers row) ≡ false) }
        ensures no_memory { OnErr result (first_closed self.old.readers ≡ length self.old.readers) }
        ensures unchanged { OnErr result (self.new ≡ self.old) }
        ensures keeps { self.new.clock ≡ self.old.clock }
    {
        self.readers.open_row()
    }

    /// Closes a row in which no transaction runs. It takes no memory. Time: one step for each doubling of the number
    /// of rows.
    pub fn close_row(&mut self, row: u32)
        requires { slice_get self.old.readers row ≡ Some Row.Idle }
        ensures event { ClosesRow self.old.clock answer.Done self.new.clock }
        ensures closed { self.new.readers ≡ slice_set self.old.readers row Row.Closed }
        ensures keeps { self.new.clock ≡ self.old.clock }
    {
        self.readers.close_row(row);
    }

    /// Begins a transaction in a row: it has the next number, and reads the visible epoch. After a refusal all is as
    /// before. Spent comes exactly where no number is left, which is told first; NoMemory where there is no room
    /// for what its commit keeps.
    ///
    /// Time: one step for each doubling of the number of rows; where there is no room, one for each thing that is
    /// kept, after which there is room for twice as many.
    pub fn begin(&mut self, row: u32) -> Result<Drawn, BeginRefusal>
        requires { slice_get self.old.readers row ≡ Some Row.Idle }
        ensures event { BeginsAs self.old.clock result self.new.clock }
        ensures begun { OnOk result (self.new.clock ≡ begun_clock self.old.clock) }
        ensures drawn { IfOk result (λ drawn.
            drawn ≡ record { tid = self.old.clock.next_tid; read = self.old.clock.visible }) }
        ensures row { OnOk result (self.new.readers
            ≡ slice_set self.old.readers row (Row.Active self.old.clock.next_tid self.old.clock.visible)) }
        ensures fresh { (outcome_of self.old.clock.next_tid self.old.clock.outcomes ≡ None)
            × (has_record self.old.clock.next_tid self.old.clock.queue ≡ false) }
        ensures unchanged { OnErr result (self.new ≡ self.old) }
        ensures spent { (result ≡ Err BeginRefusal.Spent) ↔ (self.old.clock.next_tid ≡ number_end) }
    {
        if self.next_tid == NUMBER_END {
            return Err(BeginRefusal::Spent);
        }
        let oldest = self.readers.oldest(self.next_tid);
        let room = self
            .commits
            .reserve(self.undecided + 1, self.next_tid, oldest);
        if room.is_err() {
            return Err(BeginRefusal::NoMemory);
        }
        let drawn = Drawn {
            tid: self.next_tid,
            read: self.visible,
        };
        self.readers.enter(row, drawn.tid, drawn.read);
        self.next_tid += 1;
        self.undecided += 1;
        Ok(drawn)
    }

    /// Draws a vertex number; none exactly where none is left, and then all is as before. It takes no memory.
    /// Time: constant.
    pub fn draw(&mut self) -> Option<u64>
        ensures event { DrawsAs self.old.clock result self.new.clock }
        ensures drawn { OnSome result (self.new.clock ≡ drawn_clock self.old.clock) }
        ensures number { IfSome result (λ v. v ≡ self.old.clock.next_vertex) }
        ensures unchanged { IfNone result (self.new ≡ self.old) }
        ensures spent { (result ≡ None) ↔ (self.old.clock.next_vertex ≡ number_end) }
        ensures keeps { self.new.readers ≡ self.old.readers }
    {
        if self.next_vertex == NUMBER_END {
            return None;
        }
        let v = self.next_vertex;
        self.next_vertex += 1;
        Some(v)
    }

    /// Queues the member of a transaction that runs, has no outcome and does not wait yet, and tells the horizon and
    /// the oldest number. It takes no memory. Time: constant.
    pub fn enqueue(&mut self, m: Member) -> Learnt
        requires runs { is_running m.draft.tid self.old.clock.rows ≡ true }
        requires undecided { outcome_of m.draft.tid self.old.clock.outcomes ≡ None }
        requires not_queued { has_record m.draft.tid self.old.clock.queue ≡ false }
        ensures event { Enqueues (waiting_record m) self.old.clock (told_learnt result) self.new.clock }
        ensures queued { self.new.clock ≡ queued_clock (waiting_record m) self.old.clock }
        ensures learnt { result ≡ learn self.old.clock }
        ensures keeps { self.new.readers ≡ self.old.readers }
    {
        self.commits.queue.push(m);
        self.horizon()
    }

    /// Takes the first members off the queue, 64 at most. It takes no memory. Time: one step for each of them.
    pub fn collect(&mut self) -> Group
        requires { 0 < length self.old.clock.queue }
        ensures event { Collects (records_at 0 result) self.old.clock
            (answer.Collected (length result)) self.new.clock }
        ensures group { records_at 0 result ≡ take group_most self.old.clock.queue }
        ensures collected { self.new.clock ≡ collected_clock self.old.clock }
        ensures keeps { self.new.readers ≡ self.old.readers }
    {
        let mut group = Group::new();
        self.collect_into(&mut group);
        group
    }

    /// The same into an empty group, so that no group is copied.
    pub fn collect_into(&mut self, g: &mut Group)
        requires some { 0 < length self.old.clock.queue }
        requires empty { g.old ≡ [] }
        ensures event { Collects (records_at 0 g.new) self.old.clock
            (answer.Collected (length g.new)) self.new.clock }
        ensures group { records_at 0 g.new ≡ take group_most self.old.clock.queue }
        ensures collected { self.new.clock ≡ collected_clock self.old.clock }
        ensures keeps { self.new.readers ≡ self.old.readers }
    {
        self.commits.queue.collect_into(g);
    }

    /// Publishes a group that was collected and is durable since this moment: it has the epoch after the last one,
    /// which is answered. It takes no memory. Time: one step for each member.
    pub fn publish(&mut self, g: Group, moment: u64) -> u64
        requires some { 0 < length g }
        requires collected { Awaited self.old.clock.rows self.old.clock.outcomes
            (records_at 0 g ++ self.old.clock.queue) }
        ensures event { Publishes moment (records_at 0 g) self.old.clock
            (answer.Published result) self.new.clock }
        ensures published { self.new.clock ≡ published_clock moment (records_at 0 g) self.old.clock }
        ensures epoch { result ≡ self.old.clock.last + 1 }
        ensures keeps { self.new.readers ≡ self.old.readers }
    {
        let mut group = g;
        self.publish_from(&mut group, moment)
    }

    /// The same of a group that is lent, which is empty then, so that no group is copied.
    pub fn publish_from(&mut self, g: &mut Group, moment: u64) -> u64
        requires some { 0 < length g.old }
        requires collected { Awaited self.old.clock.rows self.old.clock.outcomes
            (records_at 0 g.old ++ self.old.clock.queue) }
        ensures event { Publishes moment (records_at 0 g.old) self.old.clock
            (answer.Published result) self.new.clock }
        ensures published { self.new.clock ≡ published_clock moment (records_at 0 g.old) self.old.clock }
        ensures epoch { result ≡ self.old.clock.last + 1 }
        ensures emptied { g.new ≡ [] }
        ensures keeps { self.new.readers ≡ self.old.readers }
    {
        let epoch = self.last + 1;
        self.undecided -= g.len();
        self.commits.publish(g, epoch, moment);
        self.last = epoch;
        epoch
    }

    /// Keeps that a group which was collected has failed: its append met a fault of the disk, whose count rose
    /// between these two. It takes no memory. Time: one step for each member.
    pub fn fail(&mut self, g: Group, before: u64, after: u64)
        requires collected { Awaited self.old.clock.rows self.old.clock.outcomes
            (records_at 0 g ++ self.old.clock.queue) }
        requires counts { before < after }
        ensures event { Fails before after (records_at 0 g) self.old.clock answer.Done self.new.clock }
        ensures failed { self.new.clock ≡ failed_clock before after (records_at 0 g) self.old.clock }
        ensures keeps { self.new.readers ≡ self.old.readers }
    {
        self.fail_from(&g, before, after);
    }

    /// The same of a group that is lent.
    pub fn fail_from(&mut self, g: &Group, before: u64, after: u64)
        requires collected { Awaited self.old.clock.rows self.old.clock.outcomes
            (records_at 0 g.now ++ self.old.clock.queue) }
        requires counts { before < after }
        ensures event { Fails before after (records_at 0 g.now) self.old.clock answer.Done self.new.clock }
        ensures failed { self.new.clock ≡ failed_clock before after (records_at 0 g.now) self.old.clock }
        ensures keeps { self.new.readers ≡ self.old.readers }
    {
        self.undecided -= g.len();
        self.commits.fail(g, Outcome::Failed { before, after });
    }

    /// The outcome that is kept for a transaction; none exactly where none is kept. Time: constant.
    pub fn outcome(&self, tid: u64) -> Option<Outcome>
        ensures event { Hears tid self.now.clock (answer.Kept result) self.now.clock }
        ensures kept { result ≡ outcome_of tid self.now.clock.outcomes }
    {
        self.commits.outcomes.of(tid)
    }

    /// Notes that the published record of the transaction of a row is applied everywhere: the transaction leaves its
    /// row, and the visible epoch rises as far as all records allow. It takes no memory.
    ///
    /// Time: one step for each doubling of the number of rows, and one for each epoch that becomes visible.
    pub fn done(&mut self, row: u32, tid: u64)
        requires active { is_active (slice_get self.old.readers row) ≡ true }
        requires own { tid_in (slice_get self.old.readers row) ≡ tid }
        requires undone { is_running tid self.old.clock.pending ≡ true }
        ensures event { Finishes tid self.old.clock answer.Done self.new.clock }
        ensures finished { self.new.clock ≡ finished_clock tid self.old.clock }
        ensures row { self.new.readers ≡ slice_set self.old.readers row Row.Idle }
    {
        let epoch = epoch_of(self.outcome(tid));
        self.readers.leave(row);
        self.commits.undone[(epoch - self.visible - 1) as usize] -= 1;
        self.visible = rise(self.visible, &mut self.commits.undone);
    }

    /// The visible epoch. Time: constant.
    pub fn visible(&self) -> u64
        ensures { result ≡ self.now.clock.visible }
    {
        self.visible
    }

    /// Whether the epoch is visible. Time: constant.
    pub fn seen(&self, epoch: u64) -> bool
        ensures event { Sees epoch self.now.clock (answer.Visible result) self.now.clock }
        ensures visible { result ≡ nat_le epoch self.now.clock.visible }
    {
        epoch <= self.visible
    }

    /// Ends the transaction of a row, which has no record, or one that has failed. It takes no memory. Time: one step
    /// for each doubling of the number of rows.
    pub fn end(&mut self, row: u32)
        requires active { is_active (slice_get self.old.readers row) ≡ true }
        requires lost { is_lost (outcome_of (tid_in (slice_get self.old.readers row)) self.old.clock.outcomes) ≡ true }
        requires not_queued { has_record (tid_in (slice_get self.old.readers row)) self.old.clock.queue ≡ false }
        ensures event { EndsWithout (tid_in (slice_get self.old.readers row)) self.old.clock
            answer.Done self.new.clock }
        ensures ended { self.new.clock ≡ ended_clock (tid_in (slice_get self.old.readers row)) self.old.clock }
        ensures row { self.new.readers ≡ slice_set self.old.readers row Row.Idle }
    {
        let decided = self.outcome(tid_of(self.readers.row(row))).is_some();
        self.readers.leave(row);
        if !decided {
            self.undecided -= 1;
        }
    }

    /// What a row is; none where there never was a row of this number. The transaction of a row runs. Time: constant.
    pub fn row(&self, row: u32) -> Option<Row>
        ensures row { result ≡ slice_get self.now.readers row }
        ensures runs { is_active result ≡ true → is_running (tid_in result) self.now.clock.rows ≡ true }
    {
        self.readers.row(row)
    }

    /// The row of a transaction that runs. Time: constant, where it is the likely one; else one step for each row.
    pub fn row_of(&self, likely: u32, tid: u64) -> u32
        requires { is_running tid self.now.clock.rows ≡ true }
        ensures { RunsIn (slice_get self.now.readers result) tid }
    {
        if runs_in(self.readers.row(likely), tid) {
            return likely;
        }
        for row in 0..u32::MAX {
            let Some(found) = self.readers.row(row) else {
                unreachable!()
            };
            if runs_in(Some(found), tid) {
                return row;
            }
        }
        unreachable!()
    }

    /// How many members wait to be collected. Time: constant.
    pub fn waiting(&self) -> usize
        ensures { result ≡ length self.now.clock.queue }
    {
        self.commits.queue.len()
    }

    /// How many of the transactions that run have no outcome: those that wait to be collected or were collected, and those
    /// that may commit yet. Time: constant.
    pub fn undecided(&self) -> usize
        ensures { result ≡ undecided self.now.clock.outcomes self.now.clock.rows }
    {
        self.undecided
    }

    /// The least read epoch of the transactions that run, or the visible epoch, and the least of their numbers, or
    /// the next one. Time: constant.
    pub fn horizon(&self) -> Learnt
        ensures event { Asks self.now.clock (told_learnt result) self.now.clock }
        ensures learnt { result ≡ learn self.now.clock }
    {
        Learnt {
            horizon: self.readers.horizon(self.visible),
            oldest: self.readers.oldest(self.next_tid),
        }
    }

    /// The published records, and the moments of their groups. It takes no memory.
    ///
    /// Ends: the part.
    pub fn into_ends(self) -> (Records, Moments)
        ensures records { result.0 ≡ self.clock.records }
        ensures moments { result.1 ≡ self.clock.moments }
    {
        self.commits.into_ends()
    }
}

// Whether the transaction runs in the row.
fn runs_in(row: Option<Row>, tid: u64) -> bool
    ensures { IsTrue result ↔ RunsIn row tid }
{
    match row {
        Some(Row::Active { tid: found, .. }) => found == tid,
        _ => false,
    }
}

// The number of the transaction of a row.
fn tid_of(row: Option<Row>) -> u64
    ensures { result ≡ tid_in row }
{
    match row {
        Some(Row::Active { tid, .. }) => tid,
        _ => 0,
    }
}

// The epoch of a published record.
fn epoch_of(outcome: Option<Outcome>) -> u64
    ensures { result ≡ epoch_in outcome }
{
    match outcome {
        Some(Outcome::Committed { epoch }) => epoch,
        _ => 0,
    }
}
