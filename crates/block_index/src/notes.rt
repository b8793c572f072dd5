//! What is noted of the entries of a long log.

ghost use Rattle.std.specs.Prelude.{◌≡◌, ℕ, ◌+◌, ◌*◌, ◌^◌, ◌<◌, ◌≤◌, List, [], ◌∷◌, length, get_or, vec_len, IfOk};
ghost use Rattle.edge_log.specs.Entries.{Entry as LogEntry, payload_sum};
ghost use Rattle.edge_log.specs.Places.{oldest};
ghost use Rattle.tel_entry.specs.Layouts.{entry_len};
ghost use Rattle.block_layout.specs.Blocks.{HoldsEntries};
ghost use Rattle.place_index.specs.Chains.{HasSlots, places_of};
ghost use Rattle.block_index.specs.Noted.{AreNoted, HasRoomFor, MayNote};

use crate::takes::take_back;
use block_reading::entry_at;
use graph_model::NoMemory;
use place_index::PlaceIndex;
use std::alloc::Global;

/// Where the entries of a log lead to, and where their payloads begin.
#[derive(Drop)]
pub struct Notes {
    pub places: PlaceIndex,
    // For each place, how many bytes the payloads of the older entries have.
    pub props: Vec<u32>,
}

impl Notes {
    /// Of no entries, with so many slots and room for so many entries. Time: one step for each slot.
    pub fn with_room(alloc: Global, slots: usize, room: usize) -> Result<Notes, NoMemory>
        requires slots { (0 < slots) × (slots ≤ 2 ^ 31) }
        ensures empty { IfOk result (λ notes. AreNoted notes []) }
        ensures room { IfOk result (HasRoomFor room) }
    {
        let places = PlaceIndex::with_room(alloc, slots, room)?;
        let props = Vec::with_capacity(alloc, room)?;
        Ok(Notes { places, props })
    }

    /// Of one entry more, which leads to `d`, where the payloads of all others have so many bytes. Time: constant.
    pub fn push(&mut self, d: u64, props: u32)
        requires { MayNote self.old }
        ensures pushed { (xs : List LogEntry) (x : LogEntry) → AreNoted self.old xs → d ≡ x.d → props ≡ payload_sum xs
            → AreNoted self.new (x ∷ xs) }
        ensures slots { HasSlots self.new.places }
        ensures places { places_of self.new.places ≡ places_of self.old.places + 1 }
        ensures props { vec_len self.new.props ≡ vec_len self.old.props + 1 }
        ensures room { (n : ℕ) → HasRoomFor n self.old → HasRoomFor n self.new }
    {
        self.places.push(d);
        self.props.push_reserved(props);
    }

    /// Of the oldest `count` entries of a block, where there were none. Time: one step for each of these.
    pub fn note(&mut self, block: &[u8], count: u32)
        requires empty { AreNoted self.old [] }
        requires room { HasRoomFor count self.old }
        requires few { count + 1 < 2 ^ 32 }
        requires rows { entry_len * count ≤ length block.now }
        requires holds { (start : ℕ) × (xs : List LogEntry)
            × (HoldsEntries start xs block.now × (length xs ≡ count) × (payload_sum xs < 2 ^ 32)) }
        ensures noted { (start : ℕ) (xs : List LogEntry) → HoldsEntries start xs block.now → length xs ≡ count
            → AreNoted self.new xs }
        ensures room { (n : ℕ) → HasRoomFor n self.old → HasRoomFor n self.new }
    {
        let mut props = 0;
        for place in 0..count {
            let entry = entry_at(block, place);
            self.push(entry.d, props);
            props += entry.len;
        }
    }

    /// Of the entries below the place `from` alone, of `count` in a block. Time: one step for each of the others.
    pub fn take_back(&mut self, block: &[u8], from: u32, count: u32)
        requires slots { HasSlots self.old.places }
        requires from { from ≤ count }
        requires rows { entry_len * count ≤ length block.now }
        ensures noted { (start : ℕ) (xs : List LogEntry) → HoldsEntries start xs block.now → length xs ≡ count
            → AreNoted self.old xs → AreNoted self.new (oldest from xs) }
        ensures room { (n : ℕ) → HasRoomFor n self.old → HasRoomFor n self.new }
    {
        take_back(&mut self.places, block, from, count);
        self.props.truncate(from as usize);
    }

    /// How many bytes the payloads of the entries below a place have. Time: constant.
    pub fn props_below(&self, place: u32) -> u32
        requires { place < vec_len self.now.props }
        ensures { result ≡ get_or self.now.props.items place 0 }
    {
        self.props[place as usize]
    }
}
