//! A log that begins in a block, and one that moves to another.

ghost use Rattle.std.specs.Prelude.{◌≡◌, ◌+◌, ◌-◌, ◌*◌, ◌^◌, ◌<◌, ◌≤◌, [], List, ℕ, length, vec_len, vec_capacity, IfOk};
ghost use Rattle.graph_model.specs.Records.{list_most};
ghost use Rattle.edge_log.specs.Entries.{Entry as LogEntry, kept, payload_sum};
ghost use Rattle.edge_log.specs.Places.{oldest};
ghost use Rattle.edge_log.specs.Contents.{empty_content, with_kept};
ghost use Rattle.tel_entry.specs.Layouts.{entry_len};
ghost use Rattle.block_layout.specs.Blocks.{HoldsEntries};
ghost use Rattle.block_layout.specs.Sizes.{order_most, block_len, props_start};
ghost use Rattle.block_index.specs.Indexed.{Indexes, HasRoom, IsFresh, most_in};
ghost use Rattle.tel_block.specs.Logs.{content_in, old_content_in, old_of, limit_of, used_by, free_in, spare_of, MayEnd, IsFillOf, IsLog, IsOld};

use crate::moving::Moving;
use crate::orders::room_of;
use crate::{OldBlock, TelBlock};
use block_index::EntryIndex;
use block_pool::Block;
use block_writing::{Fill, begin_block, begin_kept, copy_kept, kept_size};
use graph_model::NoMemory;
use std::alloc::Global;
use std::mem;

impl TelBlock {
    /// A log without entries, in a block whose bytes may be any.
    pub(crate) fn begun(
        block: Block,
        bytes: &mut [u8],
        v: u64,
        l: u16,
        most: u64,
        noted: Vec<u32>,
        index: EntryIndex,
    ) -> TelBlock
        requires small { block.order ≤ order_most }
        requires long { length bytes.old ≡ block_len block.order }
        requires most { most ≤ list_most }
        requires noted { noted.items ≡ [] }
        requires index { IsFresh block.order index }
        requires may_end { vec_len noted < vec_capacity noted }
        ensures is_log { IsLog result bytes.new }
        ensures empty { content_in result bytes.new ≡ empty_content }
        ensures block { result.block ≡ block }
        ensures limit { limit_of result ≡ most }
        ensures may_end { MayEnd result }
        ensures fill { result.fill ≡ record { entries = 0; props = 0 } }
    {
        begin_block(bytes, v, l, block.order() as u8, 0);
        let none = Fill {
            entries: 0,
            props: 0,
        };
        TelBlock {
            block,
            fill: none,
            committed: none,
            epoch: 0,
            latest: 0,
            most,
            noted,
            settled: 0,
            index,
        }
    }

    /// How many bytes its entries and payloads take. Time: constant.
    pub(crate) fn used(&self) -> u64
        ensures { result ≡ used_by self.now.fill }
    {
        28 * self.fill.entries as u64 + self.fill.props as u64
    }

    /// How many bytes of its block are free. Time: constant.
    pub(crate) fn free(&self) -> u64
        requires order { self.now.block.order ≤ order_most }
        requires within { used_by self.now.fill ≤ block_len self.now.block.order - props_start self.now.block.order }
        ensures { result ≡ free_in self.now.block.order self.now.fill }
    {
        room_of(self.block.order()) - self.used()
    }

    /// How its block is copied into a larger one.
    pub(crate) fn moving_to(&self, block: &Block) -> Moving
        requires small { (self.now.block.order ≤ order_most) × (block.now.order ≤ order_most) }
        ensures orders { (result.from_order ≡ self.now.block.order) × (result.order ≡ block.now.order) }
        ensures fill { result.fill ≡ self.now.fill }
    {
        Moving {
            from_order: self.block.order() as u8,
            order: block.order() as u8,
            fill: self.fill,
            previous: name_of(&self.block),
        }
    }

    /// An index of its entries for a block of an order. Time: one step for each entry and for each place of the block.
    pub(crate) fn index_for(&self, bytes: &[u8], order: u32) -> Result<EntryIndex, NoMemory>
        requires is_log { IsLog self.now bytes.now }
        requires order { order ≤ order_most }
        requires room { used_by self.now.fill ≤ block_len order - props_start order }
        ensures indexes { IfOk result (λ index. Indexes index (content_in self.now bytes.now).entries) }
        ensures room { IfOk result (HasRoom (most_in order)) }
    {
        let mut index = EntryIndex::for_block(*self.noted.allocator(), order)?;
        index.note(bytes, self.fill.entries);
        Ok(index)
    }

    /// Lies in a block from now on to which its own was copied, with this index, and hands out what it was.
    pub(crate) fn move_to(&mut self, block: Block, index: EntryIndex) -> OldBlock
        ensures moved { self.new ≡ record self.old { block = block; index = index } }
        ensures old { result ≡ old_of self.old }
    {
        self.index = index;
        OldBlock {
            block: mem::replace(&mut self.block, block),
            fill: self.fill,
            committed: self.committed.entries,
            epoch: self.epoch,
        }
    }

    /// A copy in another block, whose bytes may be any, without the entries that ended at an epoch at most `horizon`.
    pub(crate) fn kept_in(
        &self,
        from: &[u8],
        fill: Fill,
        committed: Fill,
        block: Block,
        to: &mut [u8],
        noted: Vec<u32>,
        mut index: EntryIndex,
        horizon: u64,
    ) -> TelBlock
        requires is_log { IsLog self.now from.now }
        requires order { block.order ≤ order_most }
        requires long { length to.old ≡ block_len block.order }
        requires noted { noted.items ≡ [] }
        requires index { IsFresh block.order index }
        requires fill { IsFillOf fill (kept horizon (content_in self.now from.now).entries) }
        requires committed { let entries = (content_in self.now from.now).entries in
            IsFillOf committed (kept horizon (oldest self.now.committed.entries entries)) }
        requires room { used_by fill ≤ block_len block.order - props_start block.order }
        ensures is_log { IsLog result to.new }
        ensures kept { content_in result to.new ≡ with_kept horizon (content_in self.now from.now) }
        ensures block { result.block ≡ block }
        ensures limit { limit_of result ≡ limit_of self.now }
    {
        let order = block.order() as u8;
        let previous = name_of(&self.block);
        begin_kept(
            from,
            to,
            order,
            committed.entries,
            committed.props,
            previous,
        );
        copy_kept(
            from,
            self.block.order() as u8,
            self.fill,
            to,
            order,
            horizon,
        );
        index.note(to, fill.entries);
        let mut copy = TelBlock {
            block,
            fill,
            committed,
            epoch: self.epoch,
            latest: self.latest,
            most: self.most,
            noted,
            settled: 0,
            index,
        };
        copy.settle(to);
        copy
    }
}

/// How much of the oldest `count` entries did not end at an epoch at most `horizon`. Time: one step for each of these.
pub fn kept_fill(from: &[u8], count: u32, horizon: u64) -> Fill
    requires rows { entry_len * count ≤ length from.now }
    requires holds { (start : ℕ) × (xs : List LogEntry)
        × (HoldsEntries start xs from.now × (count ≤ length xs) × (payload_sum xs < 2 ^ 32)) }
    ensures { (start : ℕ) (xs : List LogEntry) → HoldsEntries start xs from.now → count ≤ length xs
        → IsFillOf result (kept horizon (oldest count xs)) }
{
    let (entries, props) = kept_size(from, count, horizon);
    Fill {
        entries,
        props: props as u32,
    }
}

/// A copy of bytes. Time: one step for each.
pub fn copy_of(alloc: Global, bytes: &[u8]) -> Result<Vec<u8>, NoMemory>
    ensures { IfOk result (λ copy. copy.items ≡ bytes.now) }
{
    let copy = bytes.to_vec(alloc)?;
    Ok(copy)
}

// What names a block in the header of the one that replaces it. It is never 0.
fn name_of(block: &Block) -> u64 {
    ((block.chunk() as u64) << 32) + block.start() as u64 / 64 + 1
}
