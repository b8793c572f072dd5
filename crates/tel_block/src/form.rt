//! The log in a block, as a form of an edge log.

ghost use Rattle.std.specs.Prelude.{◌≡◌, ℕ, ◌+◌, ◌-◌, ◌<◌, ◌≤◌, IfOk, OnOk, OnErr};
ghost use Rattle.graph_model.specs.Records.{list_most};
ghost use Rattle.stamps.specs.Stamps.{Txn};
ghost use Rattle.edge_log.specs.Places.{newest_place};
ghost use Rattle.block_layout.specs.Sizes.{block_len, props_start};
ghost use Rattle.tel_block.specs.Logs.{limit_of, used_by, free_in};
ghost use Rattle.tel_block.specs.Places.{content_of, StandsIn, LogBegins, Moves};

use crate::moves::{copy_of, kept_fill};
use crate::orders::order_for;
use crate::{OldBlock, TelBlock};
use block_index::EntryIndex;
use block_pool::Pool;
use edge_log::{EdgeLog, LogRefusal, Part, Place};
use graph_model::{NoMemory, Payload};
use std::alloc::Global;

impl EdgeLog for TelBlock {
    type Room = Pool;

    type Old = OldBlock;

    ghost use Rattle.std.specs.Prelude.{ℕ, ◌<◌};
    ghost use Rattle.tel_entry.specs.RawStamps.{private_from};
    ghost use Rattle.tel_block.specs.Logs.{limit_of, spare_of, MayEnd};
    ghost use Rattle.tel_block.specs.Places.{content_of, old_content_of, StandsIn, OldStandsIn, footprint_of, old_footprint_of, blocks_of};

    ghost content = { content_of };

    ghost old_content = { old_content_of };

    ghost stands = { StandsIn };

    ghost old_stands = { OldStandsIn };

    ghost footprint = { footprint_of };

    ghost old_footprint = { old_footprint_of };

    ghost blocks_out = { blocks_of };

    ghost limit = { limit_of };

    ghost spare = { λ log _. spare_of log };

    ghost may_end = { MayEnd };

    ghost keeps_number = { λ n. n < private_from };

    ghost keeps_epoch = { λ n. (0 < n) × (n < private_from) };

    fn start(
        alloc: Global,
        room: &mut Pool,
        v: u64,
        l: u16,
        size: u64,
        most: u64,
    ) -> Result<TelBlock, LogRefusal> {
        if size > most {
            return Err(LogRefusal::LogFull);
        }
        let log = TelBlock::begin(alloc, room, v, l, size, most)?;
        Ok(log)
    }

    fn prepare(&mut self, room: &mut Pool, size: u64) -> Result<Option<OldBlock>, LogRefusal> {
        let left = self.most - self.used();
        if size > left {
            return Err(LogRefusal::LogFull);
        }
        self.noted.reserve(1)?;
        let free = self.free();
        if size <= free {
            return Ok(None);
        }
        let old = self.grow(room, size)?;
        Ok(Some(old))
    }

    fn append(&mut self, room: &mut Pool, tid: u64, d: u64, p: &Payload) {
        let bytes = room.bytes_mut(&self.block);
        self.append_in(bytes, tid, d, p);
    }

    fn find(&self, room: &Pool, d: u64, read: u64, tid: u64) -> Option<u32> {
        self.find_in(room.bytes(&self.block), d, read, tid)
    }

    fn payload_at(&self, alloc: Global, room: &Pool, place: u32) -> Result<Payload, NoMemory> {
        self.payload_in(alloc, room.bytes(&self.block), place)
    }

    fn end_entry(&mut self, room: &mut Pool, place: u32, tid: u64) {
        let bytes = room.bytes_mut(&self.block);
        self.end_in(bytes, place, tid);
    }

    fn has_entry_of(&self, room: &Pool, tid: u64) -> bool {
        self.has_entry_in(room.bytes(&self.block), tid)
    }

    fn convert(&mut self, room: &mut Pool, tid: u64, epoch: u64) {
        let bytes = room.bytes_mut(&self.block);
        self.convert_in(bytes, tid, epoch);
    }

    fn undo(&mut self, room: &mut Pool, tid: u64) {
        let bytes = room.bytes_mut(&self.block);
        self.undo_in(bytes, tid);
    }

    fn cursor(&self, own: bool) -> Place {
        self.first_place(own)
    }

    fn part(
        &self,
        room: &Pool,
        place: Place,
        read: u64,
        tid: u64,
        out: &mut Part,
    ) -> Option<Place> {
        self.part_in(room.bytes(&self.block), place, read, tid, out)
    }

    fn copy_keeping(&self, room: &mut Pool, horizon: u64) -> Result<TelBlock, NoMemory> {
        let alloc = *self.noted.allocator();
        let from = copy_of(alloc, room.bytes(&self.block))?;
        let fill = kept_fill(&from, self.fill.entries, horizon);
        let committed = kept_fill(&from, self.committed.entries, horizon);
        let size = 28 * fill.entries as u64 + fill.props as u64;
        let smallest = order_for(0, size);
        let index = EntryIndex::for_block(alloc, smallest)?;
        let block = room.take(smallest)?;
        let to = room.bytes_mut(&block);
        Ok(self.kept_in(
            &from,
            fill,
            committed,
            block,
            to,
            Vec::new(alloc),
            index,
            horizon,
        ))
    }

    fn retire(self) -> OldBlock {
        self.retired()
    }

    fn old_part(
        room: &Pool,
        old: &OldBlock,
        place: Place,
        read: u64,
        tid: u64,
        out: &mut Part,
    ) -> Option<Place> {
        old.part_in(room.bytes(&old.block), place, read, tid, out)
    }

    fn release(room: &mut Pool, old: OldBlock) {
        room.give(old.block);
    }

    ghost use Rattle.std.specs.Prelude.{[], length, Contains};
    ghost use Rattle.std.proofs.Common.{ap, ◌∙◌, arith};
    ghost use Rattle.std.proofs.Math.ListN.{get_or-map};
    ghost use Rattle.std.proofs.lemmas.List.{length-map};
    ghost use Rattle.std.proofs.lemmas.List.Elements.{All-cons};
    ghost use Rattle.edge_log.proofs.EntryLemmas.{sizes-payloads};
    ghost use Rattle.block_layout.specs.Sizes.{props_start};
    ghost use Rattle.block_pool.specs.Pools.{bytes_of, out_blocks};
    ghost use Rattle.block_reading.proofs.BelowLemmas.{length-entries_in};
    ghost use Rattle.tel_block.specs.Places.{block_of};

    ghost fits = { λ log pool stands.
        let bytes = bytes_of pool log.block in
        let count = length-entries_in (props_start log.block.order) log.fill.entries log.fill.props bytes in
        let sum = sizes-payloads (content_of log pool).entries in
        let is = stands.is_log in
        let props = is.filled.props in
        let within = is.within in
        let committed = is.filled.within in (
          record {
            committed = Prim.omega (arith, count, committed);
            within = Prim.omega (arith, count, sum, props, within);
            bounded = is.bounded;
          },
          Prim.omega (arith, count, sum, props, within),
        ) };

    ghost lies_out = { λ log pool stands.
        let has = stands.lies.out in
        let few = has.1 in
        let same = length-map (out_blocks pool) block_of in
        All-cons (λ b. Contains (blocks_of pool) b) (block_of log.block) [] (
          has.0,
          Prim.omega (arith, few, same),
          get_or-map block_of (out_blocks pool) has.0 log.block ∙ ap block_of has.2,
        )
        (λ k d h. absurd (Prim.omega (arith, h))) };

    ghost old_lies_out = { λ old pool stands.
        let has = stands.lies.out in
        let few = has.1 in
        let same = length-map (out_blocks pool) block_of in
        All-cons (λ b. Contains (blocks_of pool) b) (block_of old.block) [] (
          has.0,
          Prim.omega (arith, few, same),
          get_or-map block_of (out_blocks pool) has.0 old.block ∙ ap block_of has.2,
        )
        (λ k d h. absurd (Prim.omega (arith, h))) };
}

impl TelBlock {
    /// The place that `find` gives, by a walk alone, which does not ask the filter. Time: one step for each entry from
    /// the newest down to it.
    pub fn search(&self, room: &Pool, d: u64, read: u64, tid: u64) -> Option<u32>
        requires { StandsIn self.now room.now }
        ensures { result ≡ newest_place (content_of self.now room.now).entries d read (Txn tid) }
    {
        block_reading::search(room.bytes(&self.block), self.fill.entries, d, read, tid)
    }

    // Begins in the smallest block with room for one entry of this size.
    fn begin(
        alloc: Global,
        room: &mut Pool,
        v: u64,
        l: u16,
        size: u64,
        most: u64,
    ) -> Result<TelBlock, NoMemory>
        requires within { size ≤ most }
        requires most { most ≤ list_most }
        ensures begins { IfOk result (λ log. LogBegins size most log room.old room.new) }
        ensures smallest { IfOk result (λ log. (o : ℕ) → o < log.block.order → block_len o - props_start o < size) }
        ensures unchanged { OnErr result (room.new ≡ room.old) }
    {
        let noted = Vec::with_capacity(alloc, 1)?;
        let least = order_for(0, size);
        let index = EntryIndex::for_block(alloc, least)?;
        let block = room.take(least)?;
        let bytes = room.bytes_mut(&block);
        Ok(TelBlock::begun(block, bytes, v, l, most, noted, index))
    }

    // Moves to the smallest larger block with room for one entry of this size more.
    fn grow(&mut self, room: &mut Pool, size: u64) -> Result<OldBlock, NoMemory>
        requires stands { StandsIn self.old room.old }
        requires within { used_by self.old.fill + size ≤ limit_of self.old }
        ensures moves { IfOk result (λ old. Moves size self.old self.new old room.old room.new) }
        ensures smallest { OnOk result ((o : ℕ) → self.old.block.order ≤ o → o < self.new.block.order
            → block_len o - props_start o < used_by self.old.fill + size) }
        ensures unchanged { OnErr result ((self.new ≡ self.old) × (room.new ≡ room.old)) }
    {
        let order = order_for(self.block.order(), self.used() + size);
        let index = self.index_for(room.bytes(&self.block), order)?;
        let block = room.take(order)?;
        let moving = self.moving_to(&block);
        room.transfer(&self.block, &block, &moving);
        Ok(self.move_to(block, index))
    }
}
