//! An index of the entries of a log, where the log is a long one.

ghost use Rattle.std.specs.Prelude.{◌≡◌, ℕ, ◌+◌, ◌*◌, ◌^◌, ◌<◌, ◌≤◌, List, [], ◌∷◌, length, IfOk, IfSome, is_some};
ghost use Rattle.stamps.specs.Stamps.{Txn};
ghost use Rattle.edge_log.specs.Entries.{Entry as LogEntry, payload_sum};
ghost use Rattle.edge_log.specs.Places.{newest_place, oldest, IsPlaceIn};
ghost use Rattle.tel_entry.specs.declared.header.Header.{Header};
ghost use Rattle.tel_entry.specs.Layouts.{entry_len};
ghost use Rattle.block_layout.specs.Sizes.{block_len, order_most};
ghost use Rattle.block_layout.specs.Blocks.{HoldsEntries, IsBlock};
ghost use Rattle.block_index.specs.Indexed.{Indexes, HasRoom, MayPush, MayTakeBack, MayFind, IsFresh, most_in};

use crate::finds;
use crate::notes::Notes;
use block_layout::props_start;
use block_reading::{entry_at, may_lead_to};
use edge_log::Place;
use graph_model::NoMemory;
use std::alloc::Global;

// The least order of a block whose log has an index: in smaller ones a walk is as short as the look into an index.
const INDEX_ORDER: u32 = 7;

// How many slots fit well into a processor's second cache.
const CACHED_SLOTS: usize = 65_536;

// How many slots there are for a block of an order: about one for two entries, as long as they fit into the cache, and then
// one for nine.
fn slots_for(order: u32) -> usize
    requires { order ≤ order_most }
    ensures { (0 < result) × (result ≤ 2 ^ 31) }
{
    let most = 1usize << order;
    most.min(CACHED_SLOTS).max(most / 4)
}

/// An index of the entries of a log in a block; none where the block is small, through which a walk is short.
#[derive(Drop)]
pub struct EntryIndex {
    notes: Option<Box<Notes>>,
}

impl EntryIndex {
    /// An index of a log without entries in a block of an order, with room for as many as the block has. Time: one step
    /// for each of these.
    pub fn for_block(alloc: Global, order: u32) -> Result<EntryIndex, NoMemory>
        requires { order ≤ order_most }
        ensures fresh { IfOk result (IsFresh order) }
    {
        if order < INDEX_ORDER {
            return Ok(EntryIndex { notes: None });
        }
        let most = ((64 << order) - props_start(order as u8)) / 28;
        let notes = Notes::with_room(alloc, slots_for(order), most)?;
        Ok(EntryIndex {
            notes: Some(Box::new(alloc, notes)?),
        })
    }

    /// Notes that the next entry leads to `d`, where the payloads of all others have so many bytes. Time: constant.
    pub fn push(&mut self, d: u64, props: u32)
        requires { MayPush self.old }
        ensures pushed { (xs : List LogEntry) (x : LogEntry) → Indexes self.old xs → d ≡ x.d → props ≡ payload_sum xs
            → Indexes self.new (x ∷ xs) }
        ensures room { (n : ℕ) → HasRoom n self.old → HasRoom n self.new }
    {
        if let Some(notes) = &mut self.notes {
            notes.push(d, props);
        }
    }

    /// Notes the oldest `count` entries of a block, where none was noted. Time: one step for each of these.
    pub fn note(&mut self, block: &[u8], count: u32)
        requires empty { Indexes self.old [] }
        requires room { HasRoom count self.old }
        requires few { count + 1 < 2 ^ 32 }
        requires rows { entry_len * count ≤ length block.now }
        requires holds { (start : ℕ) × (xs : List LogEntry)
            × (HoldsEntries start xs block.now × (length xs ≡ count) × (payload_sum xs < 2 ^ 32)) }
        ensures indexed { (start : ℕ) (xs : List LogEntry) → HoldsEntries start xs block.now → length xs ≡ count
            → Indexes self.new xs }
        ensures room { (n : ℕ) → HasRoom n self.old → HasRoom n self.new }
    {
        if let Some(notes) = &mut self.notes {
            notes.note(block, count);
        }
    }

    /// Takes back what was noted of the entries from the place `from` on, of `count` in the block. Time: one step for
    /// each of these.
    pub fn take_back(&mut self, block: &[u8], from: u32, count: u32)
        requires may { MayTakeBack self.old }
        requires from { from ≤ count }
        requires rows { entry_len * count ≤ length block.now }
        ensures indexed { (start : ℕ) (xs : List LogEntry) → HoldsEntries start xs block.now → length xs ≡ count
            → Indexes self.old xs → Indexes self.new (oldest from xs) }
        ensures room { (n : ℕ) → HasRoom n self.old → HasRoom n self.new }
    {
        if let Some(notes) = &mut self.notes {
            notes.take_back(block, from, count);
        }
    }

    /// The place of the newest of the `count` entries in a block of an order that leads to `d` and that the transaction
    /// `tid` sees at the epoch `read`; none exactly where it sees no edge to `d`. The filter of the block is asked first
    /// where there are more than a few entries.
    ///
    /// Time: constant where there are few, or the filter holds not all three bits of `d`; else one step for each entry of
    /// the slot of `d` from the newest down to it, or, without an index, for each entry.
    pub fn find(
        &self,
        block: &[u8],
        order: u8,
        count: u32,
        d: u64,
        read: u64,
        tid: u64,
    ) -> Option<u32>
        requires small { order ≤ order_most }
        requires long { length block.now ≡ block_len order }
        requires rows { entry_len * count ≤ length block.now }
        requires may { MayFind count self.now }
        ensures { (h : Header) (filter : List ℕ) (xs : List LogEntry) → IsBlock order h filter xs block.now
            → length xs ≡ count → Indexes self.now xs → result ≡ newest_place xs d read (Txn tid) }
    {
        let Some(notes) = &self.notes else {
            return block_reading::find(block, order, count, d, read, tid);
        };
        if !may_lead_to(block, order, d) {
            return None;
        }
        finds::find(block, &notes.places, d, read, tid)
    }

    /// The place right above that of an entry, of `count` in a block: how many entries are below it, and how many bytes
    /// their payloads have; none without an index. Time: constant.
    pub fn place_above(&self, block: &[u8], count: u32, place: u32) -> Option<Place>
        requires there { place < count }
        requires few { count < 2 ^ 31 }
        requires rows { entry_len * count ≤ length block.now }
        requires may { MayFind count self.now }
        requires holds { (start : ℕ) × (xs : List LogEntry)
            × (HoldsEntries start xs block.now × (length xs ≡ count) × (payload_sum xs < 2 ^ 32) × Indexes self.now xs) }
        ensures told { is_some result ≡ is_some self.now.notes }
        ensures above { IfSome result (λ above. above.below ≡ place + 1) }
        ensures place { (start : ℕ) (xs : List LogEntry) → HoldsEntries start xs block.now → length xs ≡ count
            → Indexes self.now xs → IfSome result (λ above. IsPlaceIn xs above) }
    {
        match &self.notes {
            Some(notes) => Some(Place {
                below: place + 1,
                props: notes.props_below(place) + entry_at(block, place).len,
            }),
            None => None,
        }
    }
}
