//! An edge log over a vector, which needs no room.

ghost use Rattle.std.specs.Prelude.{◌+◌, ◌^◌, ◌<◌, ◌≤◌, vec_len, vec_capacity, OnOk};

use crate::slot::Slot;
use crate::stored::Stored;
use crate::{EdgeLog, LogRefusal, Part, Place, slots};
use graph_model::{NoMemory, Pair, Pairs, Payload};
use stamps::Stamp;
use std::alloc::{AllocError, Global};
use std::mem;

/// A log whose entries lie in a vector, oldest first. It never moves.
///
/// `find` looks at every entry that is newer than the one that it finds. A log that transactions change one after
/// another notes the committed entries that the present one has ended, and `convert`, `undo` and `has_entry_of`
/// go over these and the entries that are not committed.
#[derive(Drop)]
pub struct PlainLog {
    slots: Vec<Slot>,
    // Memory for the payload that is appended next.
    ready: Vec<u8>,
    committed: u32,
    epoch: u64,
    // The sum of the entries' sizes, and its limit.
    size: u64,
    most: u64,
    // The bytes of all payloads, and of those of the committed entries.
    props: u32,
    committed_props: u32,
    // Below `settled`, which is `committed` where each transaction ends before the next one begins, private
    // stamps stand at the noted places alone.
    noted: Vec<u32>,
    settled: u32,
    ghost few: { vec_len slots < 2 ^ 32 },
}

impl PlainLog {
    ghost use Rattle.std.specs.Prelude.{◌≡◌, length, nat_lt, IfOk};
    ghost use Rattle.graph_model.specs.Graph.{pair_to};
    ghost use Rattle.stamps.specs.Stamps.{Txn};
    ghost use Rattle.edge_log.specs.Entries.{shown};
    ghost use Rattle.edge_log.specs.Plain.{content_of, limit_of, MayEnd, IsPlain, GrowsTo};

    /// Whether the transaction `tid` sees an edge. Time: at most one step for each entry.
    pub fn shows_any(&self, read: u64, tid: u64) -> bool
        ensures { result ≡ nat_lt 0 (length (shown (content_of self.now).entries read (Txn tid))) }
    {
        slots::shows_any(&self.slots, read, tid)
    }

    /// The edges that the transaction sees, newest first. Time: one step for each entry and each byte.
    pub fn seen_pairs(&self, alloc: Global, read: u64, tid: u64) -> Result<Pairs, NoMemory>
        ensures { IfOk result (λ pairs. pairs ≡ shown (content_of self.now).entries read (Txn tid)) }
    {
        slots::seen_pairs(alloc, &self.slots, read, tid)
    }

    /// The edge to `d` that the transaction sees. Time: one step for each newer entry, and each byte.
    pub fn seen_pair(
        &self,
        alloc: Global,
        d: u64,
        read: u64,
        tid: u64,
    ) -> Result<Option<Pair>, NoMemory>
        ensures { IfOk result (λ pair. pair ≡ pair_to d (shown (content_of self.now).entries read (Txn tid))) }
    {
        slots::seen_pair(alloc, &self.slots, d, read, tid)
    }

    // Takes memory for one more entry of this size, and for one more note.
    fn reserve(&mut self, size: u64) -> Result<(), AllocError>
        ensures has_room { OnOk result (
            (vec_len self.new.slots < vec_capacity self.new.slots)
            × (size ≤ 28 + vec_capacity self.new.ready)) }
        ensures may_end { OnOk result (MayEnd self.new) }
        ensures keeps { GrowsTo self.old self.new }
    {
        self.noted.reserve(1)?;
        self.slots.reserve(1)?;
        self.ready
            .reserve(size.saturating_sub(Slot::HEADER) as usize)
    }

    // Takes the notes away where nothing is private any more.
    fn settle(&mut self)
        requires { IsPlain self.old }
        ensures stands { IsPlain self.new }
        ensures content { content_of self.new ≡ content_of self.old }
        ensures limit { limit_of self.new ≡ limit_of self.old }
    {
        if !slots::has_private(&self.slots, &self.noted, self.settled as usize, None) {
            self.noted.clear();
            self.settled = self.committed;
        }
    }
}

impl EdgeLog for PlainLog {
    type Room = ();

    type Old = PlainLog;

    ghost use Rattle.std.specs.Prelude.{◌≡◌, ◌↔◌, ◌+◌, ◌<◌, ◌≤◌, [], None, Ok, Err, IfOk, OnOk, OnErr, IsSome};
    ghost use Rattle.edge_log.specs.Entries.{sizes};
    ghost use Rattle.edge_log.specs.Places.{entry_at};
    ghost use Rattle.edge_log.specs.Contents.{with_ended, with_converted, with_undone};
    ghost use Rattle.edge_log.specs.Plain.{content_of, limit_of, spare_of, MayEnd, IsPlain};

    ghost content = { λ log _. content_of log };

    ghost old_content = { λ log _. content_of log };

    ghost stands = { λ log _. IsPlain log };

    ghost old_stands = { λ log _. IsPlain log };

    ghost footprint = { λ _. [] };

    ghost old_footprint = { λ _. [] };

    ghost blocks_out = { λ _. [] };

    ghost limit = { limit_of };

    ghost spare = { λ log _. spare_of log };

    ghost may_end = { MayEnd };

    ghost keeps_number = { λ _. Unit {0} };

    ghost keeps_epoch = { λ _. Unit {0} };

    fn start(
        alloc: Global,
        _room: &mut (),
        _v: u64,
        _l: u16,
        size: u64,
        most: u64,
    ) -> Result<PlainLog, LogRefusal> {
        if size > most {
            return Err(LogRefusal::LogFull);
        }
        let mut log = PlainLog {
            slots: Vec::new(alloc),
            ready: Vec::new(alloc),
            committed: 0,
            epoch: 0,
            size: 0,
            most,
            props: 0,
            committed_props: 0,
            noted: Vec::new(alloc),
            settled: 0,
        };
        log.reserve(size)?;
        Ok(log)
    }

    // Clauses of its own, since a caller may know that it never moves.
    fn prepare(&mut self, _room: &mut (), size: u64) -> Result<Option<PlainLog>, LogRefusal>
        requires { IsPlain self.old }
        ensures full { (result ≡ Err LogRefusal.LogFull)
            ↔ (limit_of self.old < sizes (content_of self.old).entries + size) }
        ensures never_moves { IfOk result (λ moved. moved ≡ None) }
        ensures stands { IsPlain self.new }
        ensures content { content_of self.new ≡ content_of self.old }
        ensures limit { limit_of self.new ≡ limit_of self.old }
        ensures has_room { OnOk result (size ≤ spare_of self.new) }
        ensures may_end { OnOk result (MayEnd self.new) }
        ensures unchanged { OnErr result (
            (spare_of self.old ≤ spare_of self.new) × (MayEnd self.old → MayEnd self.new)) }
    {
        if size > self.most - self.size {
            return Err(LogRefusal::LogFull);
        }
        self.reserve(size)?;
        Ok(None)
    }

    fn append(&mut self, _room: &mut (), tid: u64, d: u64, p: &Payload) {
        let alloc = *self.ready.allocator();
        let mut bytes = mem::replace(&mut self.ready, Vec::new(alloc));
        bytes.extend_from_slice(p.as_slice()).unwrap();
        let slot = Slot {
            d,
            payload: Stored::new(bytes),
            created: Stamp::By(tid),
            ended: Stamp::Never,
        };
        self.size += slot.size();
        self.props += p.len() as u32;
        self.slots.push_reserved(slot);
    }

    fn find(&self, _room: &(), d: u64, read: u64, tid: u64) -> Option<u32> {
        slots::newest_visible(&self.slots, d, read, tid)
    }

    fn payload_at(&self, alloc: Global, _room: &(), place: u32) -> Result<Payload, NoMemory> {
        self.slots[place as usize].payload(alloc)
    }

    // Clauses of its own, since it asks only that an entry stands there.
    fn end_entry(&mut self, _room: &mut (), place: u32, tid: u64)
        requires stands { IsPlain self.old }
        requires there { IsSome (entry_at (content_of self.old).entries place) }
        requires may_end { MayEnd self.old }
        ensures stands { IsPlain self.new }
        ensures ended { content_of self.new ≡ with_ended place tid (content_of self.old) }
        ensures limit { limit_of self.new ≡ limit_of self.old }
        ensures room { spare_of self.new ≡ spare_of self.old }
    {
        self.slots[place as usize].ended = Stamp::By(tid);
        if place < self.settled {
            self.noted.push_reserved(place);
        }
    }

    fn has_entry_of(&self, _room: &(), tid: u64) -> bool {
        slots::has_private(&self.slots, &self.noted, self.settled as usize, Some(tid))
    }

    // Clauses of its own, since it asks nothing of the tail. So does `undo`.
    fn convert(&mut self, _room: &mut (), tid: u64, epoch: u64)
        requires { IsPlain self.old }
        ensures stands { IsPlain self.new }
        ensures converted { content_of self.new ≡ with_converted tid epoch (content_of self.old) }
        ensures limit { limit_of self.new ≡ limit_of self.old }
    {
        slots::convert_reached(
            &mut self.slots,
            &self.noted,
            self.settled as usize,
            tid,
            epoch,
        );
        self.committed = self.slots.len() as u32;
        self.committed_props = self.props;
        self.epoch = epoch;
        self.settle();
    }

    fn undo(&mut self, _room: &mut (), tid: u64)
        requires { IsPlain self.old }
        ensures stands { IsPlain self.new }
        ensures undone { content_of self.new ≡ with_undone tid (content_of self.old) }
        ensures limit { limit_of self.new ≡ limit_of self.old }
    {
        self.slots.truncate(self.committed as usize);
        slots::clear_reached(&mut self.slots, &self.noted, self.settled as usize, tid);
        self.size = Slot::HEADER * self.committed as u64 + self.committed_props as u64;
        self.props = self.committed_props;
        self.settle();
    }

    fn cursor(&self, own: bool) -> Place {
        if own {
            Place {
                below: self.slots.len() as u32,
                props: self.props,
            }
        } else {
            Place {
                below: self.committed,
                props: self.committed_props,
            }
        }
    }

    fn part(&self, _room: &(), place: Place, read: u64, tid: u64, out: &mut Part) -> Option<Place> {
        slots::scan_down(&self.slots, place, read, tid, out)
    }

    fn copy_keeping(&self, _room: &mut (), horizon: u64) -> Result<PlainLog, NoMemory> {
        let alloc = *self.slots.allocator();
        let mut kept = Vec::new(alloc);
        let committed = self.committed as usize;
        slots::push_kept(&self.slots[..committed], horizon, &mut kept)?;
        let kept_end = slots::end_of(&kept);
        slots::push_kept(&self.slots[committed..], horizon, &mut kept)?;
        let end = slots::end_of(&kept);
        Ok(PlainLog {
            noted: slots::private_places(alloc, &kept, kept_end.below)?,
            slots: kept,
            ready: Vec::new(alloc),
            committed: kept_end.below,
            epoch: self.epoch,
            size: Slot::HEADER * end.below as u64 + end.props as u64,
            most: self.most,
            props: end.props,
            committed_props: kept_end.props,
            settled: kept_end.below,
        })
    }

    fn retire(self) -> PlainLog {
        self
    }

    fn old_part(
        _room: &(),
        old: &PlainLog,
        place: Place,
        read: u64,
        tid: u64,
        out: &mut Part,
    ) -> Option<Place> {
        slots::scan_down(&old.slots, place, read, tid, out)
    }

    fn release(_room: &mut (), _old: PlainLog) {}

    ghost use Rattle.std.proofs.Common.{arith};
    ghost use Rattle.std.proofs.lemmas.Bool.Decides.{nat_tests};

    ghost fits = { λ log _ plain. (plain.fits, Prim.grind (arith, nat_tests)) };

    ghost lies_out = { λ _ _ _ _ _ none. absurd (Prim.omega (arith, none)) };

    ghost old_lies_out = { λ _ _ _ _ _ none. absurd (Prim.omega (arith, none)) };
}
