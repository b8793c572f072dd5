//! The edges of one list, newest first.

ghost use Rattle.std.specs.Prelude.{◌≡◌, ◌==◌, ◌<◌, ◌↔◌, [], ◌∷◌, ◌++◌, length, slice_get, is_ok, IfOk, IsSome, if◌then◌else◌};
ghost use Rattle.std.specs.Option.{option_copied, option_to_list};
ghost use Rattle.graph_model.specs.Change.{edge_size};
ghost use Rattle.graph_model.specs.Graph.{pair_to};

use crate::{NoMemory, Payload};
use std::alloc::{AllocError, Global};
use std::marker::Model;

/// An edge as its list shows it: a destination and a payload.
#[derive(Drop)]
pub struct Pair {
    pub d: u64,
    pub p: Payload,
}

/// Edges, which contracts see as a list.
#[derive(Drop)]
pub struct Pairs {
    items: Vec<Pair>,
}

impl Model for Pairs {
    ghost use Rattle.std.specs.Prelude.{List};
    ghost use Rattle.graph_model.specs.declared.pairs.Pair.{Pair};

    ghost Value = { List Pair };

    ghost view = { λ a. a.items.items };
}

impl Pair {
    /// What the edge takes in its log: 28 and the length of its payload.
    pub fn size(&self) -> u64
        ensures { result ≡ edge_size self.now.p }
    {
        28 + self.p.len() as u64
    }
}

impl Pairs {
    /// No edges. It takes no memory.
    pub fn new(alloc: Global) -> Pairs
        ensures { result ≡ [] }
    {
        Pairs {
            items: Vec::new(alloc),
        }
    }

    /// No edges, and room for this many.
    pub(crate) fn with_capacity(alloc: Global, capacity: usize) -> Result<Pairs, NoMemory>
        ensures { IfOk result (λ pairs. pairs ≡ []) }
    {
        Ok(Pairs {
            items: Vec::with_capacity(alloc, capacity)?,
        })
    }

    /// The number of edges.
    pub fn len(&self) -> usize
        ensures { result ≡ length self.now }
    {
        self.items.len()
    }

    /// Whether there are no edges.
    pub fn is_empty(&self) -> bool
        ensures { result ≡ (length self.now == 0) }
    {
        self.items.is_empty()
    }

    /// The edge at a place from 0 on; none past the end.
    pub fn get(&self, i: usize) -> Option<&Pair>
        ensures { option_copied result ≡ slice_get self.now i }
    {
        self.items.get(i)
    }

    /// Makes room for so many edges more, or in twice as much memory for more. After NoMemory the list has the room that it
    /// had. Time: amortized constant for each edge.
    pub fn reserve(&mut self, additional: usize) -> Result<(), NoMemory>
        ensures { self.new ≡ self.old }
    {
        self.items.reserve(additional)?;
        Ok(())
    }

    /// Appends an edge. Time: amortized constant.
    pub fn push(&mut self, item: Pair) -> Result<(), NoMemory>
        ensures { self.new ≡ (if is_ok result then self.old ++ item ∷ [] else self.old) }
    {
        self.items.push(item)?;
        Ok(())
    }

    /// Takes the last edge off; none from the empty list. It takes no memory.
    pub(crate) fn pop(&mut self) -> Option<Pair>
        ensures items { self.old ≡ self.new ++ option_to_list result }
        ensures variant { IsSome result ↔ (0 < length self.old) }
    {
        self.items.pop()
    }

    /// The edge to `d`, where it is there. Time: one pass.
    pub fn pair_to(&self, d: u64) -> Option<&Pair>
        ensures { option_copied result ≡ pair_to d self.now }
    {
        self.items.iter().find(|x| x.d == d)
    }
}

impl Clone for Pairs {
    ghost is_clone = { λ x y. y ≡ x };

    fn clone(&self) -> Result<Pairs, AllocError> {
        Ok(Pairs {
            items: self.items.clone()?,
        })
    }
}

impl Clone for Pair {
    ghost is_clone = { λ x y. y ≡ x };

    fn clone(&self) -> Result<Pair, AllocError> {
        Ok(Pair {
            d: self.d,
            p: self.p.clone()?,
        })
    }
}
