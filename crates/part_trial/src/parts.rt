//! Transactions, one after another, through the clock and the one shard of a store.

ghost use Rattle.std.specs.Prelude.{◌≡◌, ◌<◌, ◌≤◌, [], Some, None, true, slice_get, slice_set, IfOk};
ghost use Rattle.graph_model.specs.Records.{IsGood};
ghost use Rattle.core_states.specs.Numbers.{outcome_of};
ghost use Rattle.epoch_clock.specs.ActiveRows.{is_running};
ghost use Rattle.part_trial.specs.Only.{IsOnly};

use crate::work::Work;
use block_pool::Pool;
use epoch_clock::EpochPart;
use graph_model::{Answer, Base, Change, LIST_MOST, NUMBER_END, Payload, Query};
use group_commit::Member;
use reader_table::{ReaderTable, Row};
use shard_state::Shard;
use std::alloc::Global;
use std::marker::Model;
use tel_block::TelBlock;

/// Destinations are below this: 2^63.
const DESTINATION_END: u64 = 1 << 63;

/// The parts of a store with one shard, and the row of its one session. Contracts see the clock.
#[derive(Drop)]
pub struct Parts {
    clock: EpochPart,
    shard: Shard<TelBlock, Pool>,
    row: u32,
}

impl Model for Parts {
    ghost use Rattle.epoch_clock.specs.EpochStates.{EpochState};
    ghost use Rattle.part_trial.specs.Only.{IsOnly};

    ghost Value = { EpochState };

    ghost view = { λ parts. parts.clock };

    ghost invariant = { λ parts. IsOnly parts.shard };
}

impl Parts {
    /// The parts of an empty store; None where memory runs out.
    pub fn new(alloc: Global, base: &Base) -> Option<Parts>
        requires { IsGood base.now }
    {
        let Ok(shard) = Shard::new(alloc, 0, 1, LIST_MOST, Pool::new(alloc)) else {
            return None;
        };
        let mut clock = EpochPart::new(alloc, base, ReaderTable::new(alloc));
        let row = clock.open_row().ok()?;
        Some(Parts { clock, shard, row })
    }

    /// Begins a transaction; None where one runs, or memory runs out.
    pub fn begin(&mut self, alloc: Global) -> Option<Work> {
        if self.clock.row(self.row) != Some(Row::Idle) {
            return None;
        }
        let drawn = self.clock.begin(self.row).ok()?;
        Some(Work::new(alloc, drawn.tid, drawn.read))
    }

    /// Makes a vertex; None where its change is too long, or memory runs out.
    pub fn make_vertex(&mut self, work: &mut Work, p: &Payload) -> Option<u64> {
        let v = self.clock.draw()?;
        if self.shard.is_kept(v) || work.who.left < 11 + p.len() as u64 {
            return None;
        }
        self.shard.new_vertex(&work.who, v, p).ok()?;
        let p = p.copy().ok()?;
        work.note(Change::New { v, p })?;
        Some(v)
    }

    /// Sets an edge; None where the transaction may not, or memory runs out.
    pub fn put(&mut self, work: &mut Work, v: u64, l: u16, d: u64, p: &Payload) -> Option<()> {
        if d >= DESTINATION_END || work.who.tid >= NUMBER_END {
            return None;
        }
        if !self.shard.may_change(&work.who, v) {
            return None;
        }
        self.shard.put(&work.who, v, l, d, p).ok()?;
        let p = p.copy().ok()?;
        work.note(Change::Put { v, l, d, p })
    }

    /// Reads an edge; None where memory runs out.
    pub fn has_edge(&mut self, work: &Work, v: u64, l: u16, d: u64) -> Option<bool> {
        match self.shard.read(&work.who, &Query::Edge { v, l, d }) {
            Ok(answer) => Some(matches!(answer, Answer::Value { .. })),
            Err(_) => None,
        }
    }

    /// Commits a transaction, while no other one runs. It answers the epoch; None where the row is not the
    /// transaction's.
    pub fn commit(&mut self, work: Work) -> Option<u64> {
        let tid = work.who.tid;
        let read = work.who.read;
        if self.clock.row(self.row) != Some(Row::Active { tid, read }) {
            return None;
        }
        if self.clock.outcome(tid).is_some() || self.clock.waiting() != 0 {
            return None;
        }
        let (member, touched) = work.finish();
        let epoch = publish(&mut self.clock, self.row, member);
        if epoch == 0 || epoch >= NUMBER_END {
            return None;
        }
        apply_all(&mut self.shard, &touched, tid, epoch);
        self.clock.done(self.row, tid);
        Some(epoch)
    }
}

// Publishes the member of the transaction of a row as a group of its own.
fn publish(clock: &mut EpochPart, row: u32, member: Member) -> u64
    requires row { slice_get clock.old.readers row ≡ Some (Row.Active member.draft.tid member.draft.read) }
    requires runs { is_running member.draft.tid clock.old.clock.rows ≡ true }
    requires undecided { outcome_of member.draft.tid clock.old.clock.outcomes ≡ None }
    requires idle { clock.old.clock.queue ≡ [] }
    ensures row { clock.new.readers ≡ clock.old.readers }
    ensures undone { is_running member.draft.tid clock.new.clock.pending ≡ true }
{
    let _learnt = clock.enqueue(member);
    let group = clock.collect();
    clock.publish(group, 0)
}

// Applies a record at each of these vertices.
fn apply_all(shard: &mut Shard<TelBlock, Pool>, touched: &[u64], tid: u64, epoch: u64)
    requires only { IsOnly shard.old }
    requires epoch { 0 < epoch }
    ensures { IsOnly shard.new }
{
    for v in touched {
        apply(shard, *v, tid, epoch);
    }
}

// Applies a record at a vertex that its transaction owns still.
fn apply(shard: &mut Shard<TelBlock, Pool>, v: u64, tid: u64, epoch: u64)
    requires only { IsOnly shard.old }
    requires epoch { 0 < epoch }
    ensures { IsOnly shard.new }
{
    let lock = shard.lock(v);
    if lock.owner == Some(tid) && lock.committed <= epoch && epoch < NUMBER_END {
        shard.apply(v, tid, epoch, true);
    }
}
