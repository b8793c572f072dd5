//! Edges that stand in slots, each found by its destination.
//!
//! The slots are in a deque, newest first. A map tells the place of the edge to each destination, so that a put in
//! place of an edge, or a del, leaves a gap there without a walk of the list. Once more than half of the slots
//! are gaps, these are closed: the memory and the time of a walk stay within a constant of the edges.

ghost use Rattle.std.specs.Prelude.{◌≡◌, ◌==◌, [], ◌∷◌, length, OnOk, OnErr, IfOk, is_some};
ghost use Rattle.std.specs.Iterator.{YieldsFirstRef, item_count};
ghost use Rattle.std.specs.Option.{option_copied};
ghost use Rattle.graph_model.specs.Graph.{without_pair, pair_to};
ghost use Rattle.graph_model.specs.Sizes.{list_size};

use crate::slots::{Places, Slots, close_gaps, take_out};
use crate::{NoMemory, Pair, Pairs};
use std::alloc::{AllocError, Global};
use std::collections::vec_deque::Iter;
use std::collections::{BTreeMap, VecDeque};
use std::marker::Model;

/// Edges with distinct destinations, newest first, which contracts see as a list.
#[derive(Drop)]
pub struct SlotList {
    slots: Slots,
    places: Places,
    size: u64,
}

impl Model for SlotList {
    ghost use Rattle.std.specs.Prelude.{List};
    ghost use Rattle.graph_model.specs.declared.pairs.Pair.{Pair};
    ghost use Rattle.graph_model.specs.Gaps.{edges_in, IsKept};

    ghost Value = { List Pair };

    ghost view = { λ a. edges_in a.slots.items };

    ghost invariant = { λ a. IsKept a.slots.items a.places a.size };
}

/// The edges of a list that are still to come, newest first, which contracts see as a list.
#[derive(Drop)]
pub struct SlotEdges<'a> {
    slots: Iter<'a, Option<Pair>>,
}

impl<'a> Model for SlotEdges<'a> {
    ghost use Rattle.std.specs.Prelude.{List};
    ghost use Rattle.std.specs.VecDeque.Iter.{deque_iter_rest};
    ghost use Rattle.graph_model.specs.declared.pairs.Pair.{Pair};
    ghost use Rattle.graph_model.specs.Gaps.{edges_in};

    ghost Value = { List Pair };

    ghost view = { λ a. edges_in (deque_iter_rest a.slots) };
}

impl<'a> Iterator for SlotEdges<'a> {
    type Item = &'a Pair;

    ghost next_gives = { YieldsFirstRef (λ s. s) };

    ghost remaining = { item_count (λ s. s) };

    fn next(&mut self) -> Option<&'a Pair> {
        while let Some(slot) = self.slots.next() {
            if let Some(pair) = slot {
                return Some(pair);
            }
        }
        None
    }
}

impl SlotList {
    /// No edges. It takes no memory.
    pub fn new(alloc: Global) -> SlotList
        ensures { result ≡ [] }
    {
        SlotList {
            slots: VecDeque::new(alloc),
            places: BTreeMap::new(alloc),
            size: 0,
        }
    }

    /// The sum of the sizes of the edges.
    pub fn size(&self) -> u64
        ensures { result ≡ list_size self.now }
    {
        self.size
    }

    /// The number of edges.
    pub fn len(&self) -> usize
        ensures { result ≡ length self.now }
    {
        self.places.len()
    }

    /// Whether there are no edges.
    pub fn is_empty(&self) -> bool
        ensures { result ≡ (length self.now == 0) }
    {
        self.len() == 0
    }

    /// Whether there is an edge to `d`. Time: logarithmic.
    pub fn has(&self, d: u64) -> bool
        ensures { result ≡ is_some (pair_to d self.now) }
    {
        self.places.contains_key(&d)
    }

    /// The edges, newest first. It takes no memory. Time: constant for each edge, over a whole walk.
    pub fn edges(&self) -> SlotEdges<'_>
        ensures { result ≡ self.now }
    {
        SlotEdges {
            slots: self.slots.iter(),
        }
    }

    /// The edges, newest first, as a list of their own; payloads are shared. Time: one step for each edge.
    pub fn to_pairs(&self, alloc: Global) -> Result<Pairs, NoMemory>
        ensures { IfOk result (λ pairs. pairs ≡ self.now) }
    {
        let mut pairs = Pairs::with_capacity(alloc, self.places.len())?;
        for pair in self.edges() {
            pairs.push(pair.clone()?)?;
        }
        Ok(pairs)
    }

    /// The edge to `d`, where it is there. Time: logarithmic.
    pub fn pair_to(&self, d: u64) -> Option<&Pair>
        ensures { option_copied result ≡ pair_to d self.now }
    {
        let place = self.places.get(&d)?;
        self.slots[self.slots.len() - 1 - *place].as_ref()
    }

    /// Sets an edge in front, in place of the edge to the same destination. After NoMemory the list is as
    /// before. Time: logarithmic, amortized.
    pub fn put(&mut self, pair: Pair) -> Result<(), NoMemory>
        ensures set { OnOk result (self.new ≡ pair ∷ without_pair pair.d self.old) }
        ensures unchanged { OnErr result (self.new ≡ self.old) }
    {
        // No memory holds edges of 2^64 bytes.
        let Some(size) = self.size.checked_add(pair.size()) else {
            return Err(NoMemory);
        };
        self.slots.reserve(1)?;
        let Some(place) = self.places.insert(pair.d, self.slots.len())? else {
            self.slots.push_front_reserved(Some(pair));
            self.size = size;
            return Ok(());
        };
        self.size = size - take_out(&mut self.slots, place).size();
        self.slots.push_front_reserved(Some(pair));
        close_gaps(&mut self.slots, &mut self.places);
        Ok(())
    }

    /// Takes the edge to `d` out, where it is there. Time: logarithmic, amortized.
    pub fn delete(&mut self, d: u64)
        ensures { self.new ≡ without_pair d self.old }
    {
        if let Some(place) = self.places.remove(&d) {
            self.size -= take_out(&mut self.slots, place).size();
            close_gaps(&mut self.slots, &mut self.places);
        }
    }
}

impl Clone for SlotList {
    ghost is_clone = { λ x y. y ≡ x };

    fn clone(&self) -> Result<SlotList, AllocError> {
        Ok(SlotList {
            slots: self.slots.clone()?,
            places: self.places.clone()?,
            size: self.size,
        })
    }
}
