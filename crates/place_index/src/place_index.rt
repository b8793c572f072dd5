//! The index.

ghost use Rattle.std.specs.Prelude.{◌≡◌, ℕ, ◌+◌, ◌^◌, ◌<◌, ◌≤◌, List, [], ◌∷◌, length, get_or, IfOk, IfSome};
ghost use Rattle.place_index.specs.Slots.{slot_of};
ghost use Rattle.place_index.specs.Chains.{last_in, place_up_to, slots_of, places_of, room_of, HasSlots, IsIndexOf, GoesDown};

use crate::slots::slot_of;
use graph_model::NoMemory;
use std::alloc::Global;

/// The places of a log by the slots of their destinations.
#[derive(Drop)]
pub struct PlaceIndex {
    // For each slot, its newest place with one added; 0 where it has none.
    newest: Vec<u32>,
    // For each place, the next older one of its slot with one added; 0 where there is none.
    older: Vec<u32>,
}

impl PlaceIndex {
    /// An index of a log without entries, with so many slots and room for so many places. Time: one step for each slot.
    pub fn with_room(alloc: Global, slots: usize, room: usize) -> Result<PlaceIndex, NoMemory>
        requires slots { (0 < slots) × (slots ≤ 2 ^ 31) }
        ensures empty { IfOk result (λ index. IsIndexOf index []) }
        ensures room { IfOk result (λ index. room ≤ room_of index) }
    {
        let newest = vec![in alloc; 0u32; slots]?;
        let older = Vec::with_capacity(alloc, room)?;
        Ok(PlaceIndex { newest, older })
    }

    /// Notes the destination of the next place. Time: constant.
    pub fn push(&mut self, d: u64)
        requires slots { HasSlots self.old }
        requires room { places_of self.old < room_of self.old }
        requires few { places_of self.old + 1 < 2 ^ 32 }
        ensures pushed { (ds : List ℕ) → IsIndexOf self.old ds → IsIndexOf self.new (d ∷ ds) }
        ensures slots { slots_of self.new ≡ slots_of self.old }
        ensures len { places_of self.new ≡ places_of self.old + 1 }
        ensures room { room_of self.new ≡ room_of self.old }
    {
        let slot = slot_of(self.newest.len(), d);
        let older = self.newest[slot];
        self.newest[slot] = self.older.len() as u32 + 1;
        self.older.push_reserved(older);
    }

    /// Takes the newest place away, whose destination is `d`. Time: constant.
    pub fn pop(&mut self, d: u64)
        requires slots { HasSlots self.old }
        ensures popped { (ds : List ℕ) → IsIndexOf self.old (d ∷ ds) → IsIndexOf self.new ds }
        ensures slots { slots_of self.new ≡ slots_of self.old }
        ensures room { room_of self.new ≡ room_of self.old }
    {
        if let Some(older) = self.older.pop() {
            let slot = slot_of(self.newest.len(), d);
            self.newest[slot] = older;
        }
    }

    /// The newest place of the slot of `d`; none where the slot has none, and so `d` has none. Time: constant.
    #[inline(always)]
    pub fn newest(&self, d: u64) -> Option<u32>
        requires slots { HasSlots self.now }
        ensures newest { (ds : List ℕ) → IsIndexOf self.now ds
            → result ≡ place_up_to (last_in (slots_of self.now) (slot_of (slots_of self.now) d) ds) }
        ensures there { GoesDown self.now → IfSome result (λ p. p < places_of self.now) }
    {
        self.newest[slot_of(self.newest.len(), d)].checked_sub(1)
    }

    /// The next older place of the slot of a place; none where it is the oldest. Time: constant.
    #[inline(always)]
    pub fn older(&self, place: u32) -> Option<u32>
        requires within { place < places_of self.now }
        ensures older { result ≡ place_up_to (get_or self.now.older.items place 0) }
        ensures below { GoesDown self.now → IfSome result (λ p. p < place) }
    {
        self.older[place as usize].checked_sub(1)
    }
}
