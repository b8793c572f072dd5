//! The edges of one vertex under one label, each found by its destination.
//!
//! Transactions copy the lists of a vertex that they touch, and mostly change little in them. So the older
//! edges of a long list stand in a part that its copies share, and an edge that is put while others share it
//! stands in a front of the list's own. Where nobody else shares that part any more, the front is brought into
//! it at the next put, and all further edges go there.

ghost use Rattle.std.specs.Prelude.{◌≡◌, ◌==◌, [], ◌∷◌, ◌++◌, length, IsTrue, OnOk, OnErr, IfOk, is_some};
ghost use Rattle.std.specs.Iterator.{YieldsFirstRef, item_count};
ghost use Rattle.std.specs.Option.{option_copied};
ghost use Rattle.std.specs.Arc.{arc_value};
ghost use Rattle.graph_model.specs.Graph.{without_pair, pair_to};
ghost use Rattle.graph_model.specs.Sizes.{list_size};
ghost use Rattle.graph_model.specs.Whole.{are_pairs};

use crate::slot_list::{SlotEdges, SlotList};
use crate::{NoMemory, Pair, Pairs};
use std::alloc::{AllocError, Global};
use std::marker::Model;
use std::mem;
use std::sync::Arc;

/// A front of so many edges becomes a part that copies share. A copy of fewer costs little.
const WORTH_SHARING: usize = 32;

/// Edges with distinct destinations, newest first, which contracts see as a list.
#[derive(Drop)]
pub struct EdgeList {
    alloc: Global,
    front: SlotList,
    shared: Option<Arc<SlotList>>,
}

impl Model for EdgeList {
    ghost use Rattle.std.specs.Prelude.{List};
    ghost use Rattle.graph_model.specs.declared.pairs.Pair.{Pair};
    ghost use Rattle.graph_model.specs.Shared.{edges_of, IsSummed};

    ghost Value = { List Pair };

    ghost view = { λ a. edges_of a.front a.shared };

    ghost invariant = { λ a. IsSummed (edges_of a.front a.shared) };
}

/// The edges of a list that are still to come, newest first, which contracts see as a list.
#[derive(Drop)]
pub struct Edges<'a> {
    front: SlotEdges<'a>,
    shared: Option<SlotEdges<'a>>,
}

impl<'a> Model for Edges<'a> {
    ghost use Rattle.std.specs.Prelude.{List, ◌++◌, [], unwrap_or};
    ghost use Rattle.graph_model.specs.declared.pairs.Pair.{Pair};

    ghost Value = { List Pair };

    ghost view = { λ a. a.front ++ unwrap_or a.shared [] };
}

impl<'a> Iterator for Edges<'a> {
    type Item = &'a Pair;

    ghost next_gives = { YieldsFirstRef (λ s. s) };

    ghost remaining = { item_count (λ s. s) };

    fn next(&mut self) -> Option<&'a Pair> {
        if let Some(pair) = self.front.next() {
            return Some(pair);
        }
        match &mut self.shared {
            Some(shared) => shared.next(),
            None => None,
        }
    }
}

impl EdgeList {
    /// No edges. It takes no memory.
    pub fn new(alloc: Global) -> EdgeList
        ensures { result ≡ [] }
    {
        EdgeList {
            alloc,
            front: SlotList::new(alloc),
            shared: None,
        }
    }

    /// The sum of the sizes of the edges.
    pub fn size(&self) -> u64
        ensures { result ≡ list_size self.now }
    {
        match &self.shared {
            Some(shared) => self.front.size() + shared.size(),
            None => self.front.size(),
        }
    }

    /// The number of edges.
    fn len(&self) -> usize
        ensures { result ≡ length self.now }
    {
        match &self.shared {
            Some(shared) => self.front.len() + shared.len(),
            None => self.front.len(),
        }
    }

    /// Whether there are no edges.
    pub fn is_empty(&self) -> bool
        ensures { result ≡ (length self.now == 0) }
    {
        // An edge takes at least 28 bytes.
        self.size() == 0
    }

    /// Whether there is an edge to `d`. Time: logarithmic.
    pub fn has(&self, d: u64) -> bool
        ensures { result ≡ is_some (pair_to d self.now) }
    {
        self.pair_to(d).is_some()
    }

    /// The edges, newest first. It takes no memory. Time: constant for each edge, over a whole walk.
    pub fn edges(&self) -> Edges<'_>
        ensures { result ≡ self.now }
    {
        let shared = match &self.shared {
            Some(shared) => Some(shared.edges()),
            None => None,
        };
        Edges {
            front: self.front.edges(),
            shared,
        }
    }

    /// The edges, newest first, as a list of their own; payloads are shared. Time: one step for each edge.
    pub fn to_pairs(&self, alloc: Global) -> Result<Pairs, NoMemory>
        ensures { IfOk result (λ pairs. pairs ≡ self.now) }
    {
        let mut pairs = Pairs::with_capacity(alloc, self.len())?;
        for pair in self.edges() {
            pairs.push(pair.clone()?)?;
        }
        Ok(pairs)
    }

    /// The edge to `d`, where it is there. Time: logarithmic.
    pub fn pair_to(&self, d: u64) -> Option<&Pair>
        ensures { option_copied result ≡ pair_to d self.now }
    {
        if let Some(pair) = self.front.pair_to(d) {
            return Some(pair);
        }
        match &self.shared {
            Some(shared) => shared.pair_to(d),
            None => None,
        }
    }

    /// Sets an edge in front, in place of the edge to the same destination. After NoMemory the list is as
    /// before. Time: logarithmic, amortized; while others share a part of the list, the first edge that
    /// replaces one of that part, and one that finds an eighth of it in front, costs a copy of it, after which
    /// the part is the list's own.
    pub(crate) fn put(&mut self, pair: Pair) -> Result<(), NoMemory>
        ensures set { OnOk result (self.new ≡ pair ∷ without_pair pair.d self.old) }
        ensures unchanged { OnErr result (self.new ≡ self.old) }
    {
        // No memory holds edges of 2^64 bytes.
        if self.size().checked_add(pair.size()).is_none() {
            return Err(NoMemory);
        }
        match &mut self.shared {
            Some(shared) => put_before(&mut self.front, shared, self.alloc, pair),
            None => {
                self.front.put(pair)?;
                self.make_shareable();
                Ok(())
            }
        }
    }

    /// Lets copies share the front, where it is worth that and there is memory for it. Time: constant.
    fn make_shareable(&mut self)
        ensures { self.new ≡ self.old }
    {
        if self.shared.is_some() || self.front.len() < WORTH_SHARING {
            return;
        }
        let front = mem::replace(&mut self.front, SlotList::new(self.alloc));
        match Arc::new(self.alloc, front) {
            Ok(shared) => self.shared = Some(shared),
            Err(failed) => self.front = failed.value,
        }
    }

    /// Takes the edge to `d` out, where it is there. After NoMemory the list is as before. Time: logarithmic,
    /// amortized, and a copy of the part where the edge stands, where others share that. Where there is no
    /// edge to `d`, it takes no memory.
    pub(crate) fn delete(&mut self, d: u64) -> Result<(), NoMemory>
        ensures taken { OnOk result (self.new ≡ without_pair d self.old) }
        ensures unchanged { OnErr result (self.new ≡ self.old) }
    {
        match &mut self.shared {
            Some(shared) => delete_before(&mut self.front, shared, d),
            None => {
                self.front.delete(d);
                Ok(())
            }
        }
    }
}

impl Clone for EdgeList {
    ghost is_clone = { λ x y. y ≡ x };

    fn clone(&self) -> Result<EdgeList, AllocError> {
        Ok(EdgeList {
            alloc: self.alloc,
            front: self.front.clone()?,
            shared: self.shared.clone()?,
        })
    }
}

/// Sets an edge in front of a list whose older edges may be shared.
fn put_before(
    front: &mut SlotList,
    shared: &mut Arc<SlotList>,
    alloc: Global,
    pair: Pair,
) -> Result<(), NoMemory>
    requires { IsTrue (are_pairs (front.old ++ arc_value shared.old)) }
    ensures set { OnOk result (front.new ++ arc_value shared.new
        ≡ pair ∷ without_pair pair.d (front.old ++ arc_value shared.old)) }
    ensures unchanged { OnErr result (front.new ++ arc_value shared.new ≡ front.old ++ arc_value shared.old) }
{
    if has_room(front, shared) && !shared.has(pair.d) {
        return front.put(pair);
    }
    let own = Arc::make_mut(shared)?;
    if !front.is_empty() {
        bring(front, own, alloc)?;
    }
    own.put(pair)
}

/// Whether an edge is better put into the front: others share the rest, and the front is small against it, so
/// that a copy of the rest is paid by the edges of the front. Only costs depend on the answer.
fn has_room(front: &SlotList, shared: &Arc<SlotList>) -> bool {
    Arc::strong_count(shared) > 1 && front.len() < shared.len() / 8
}

/// Moves the edges of a front to the edges behind it, the oldest first, so that the list is the same after each
/// step. After NoMemory some of them may have moved. Time: logarithmic for each edge of the front.
fn bring(front: &mut SlotList, own: &mut SlotList, alloc: Global) -> Result<(), NoMemory>
    requires { IsTrue (are_pairs (front.old ++ own.old)) }
    ensures same { front.new ++ own.new ≡ front.old ++ own.old }
    ensures brought { OnOk result (front.new ≡ []) }
{
    let mut pairs = front.to_pairs(alloc)?;
    while let Some(oldest) = pairs.pop() {
        let d = oldest.d;
        own.put(oldest)?;
        front.delete(d);
    }
    Ok(())
}

/// Takes the edge to `d` out of a list whose older edges may be shared.
fn delete_before(front: &mut SlotList, shared: &mut Arc<SlotList>, d: u64) -> Result<(), NoMemory>
    requires { IsTrue (are_pairs (front.old ++ arc_value shared.old)) }
    ensures taken { OnOk result (front.new ++ arc_value shared.new
        ≡ without_pair d (front.old ++ arc_value shared.old)) }
    ensures unchanged { OnErr result (front.new ++ arc_value shared.new ≡ front.old ++ arc_value shared.old) }
{
    if shared.has(d) {
        Arc::make_mut(shared)?.delete(d);
    } else {
        front.delete(d);
    }
    Ok(())
}
