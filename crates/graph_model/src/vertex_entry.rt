//! A vertex as a graph keeps it.

ghost use Rattle.std.specs.Prelude.{◌≡◌, ◌+◌, [], IfOk, OnOk, OnErr, map, is_some};
ghost use Rattle.graph_model.specs.MapEntries.{vertex_of_entry};
ghost use Rattle.graph_model.specs.Graph.{lists_after_put, lists_after_del, seen, edge_answer, pair_to, pairs_in};
ghost use Rattle.std.specs.Option.{option_copied};
ghost use Rattle.graph_model.specs.Sizes.{list_size};
ghost use Rattle.graph_model.specs.Walking.{first_from, where_any};

use crate::edge_list::EdgeList;
use crate::{Answer, Labels, NoMemory, Pair, Pairs, Payload, Query};
use std::alloc::{AllocError, Global};
use std::collections::BTreeMap;
use std::marker::Model;
use std::ops::Bound::{Excluded, Unbounded};

/// A vertex's payload and its lists that are not empty, by label.
#[derive(Drop)]
pub struct VertexEntry {
    payload: Payload,
    lists: BTreeMap<u16, EdgeList>,
}

impl Model for VertexEntry {
    ghost use Rattle.std.specs.Prelude.{IsTrue};
    ghost use Rattle.graph_model.specs.MapEntries.{Content, lists_of};
    ghost use Rattle.graph_model.specs.Whole.{are_lists};

    ghost Value = { Content };

    ghost view = { λ a. record { payload = a.payload; lists = lists_of a.lists.entries } };

    ghost invariant = { λ a. IsTrue (are_lists (lists_of a.lists.entries)) };
}

impl VertexEntry {
    /// A vertex without edges. It takes no memory.
    pub fn new(alloc: Global, payload: Payload) -> VertexEntry
        ensures { result ≡ record { payload = payload; lists = [] } }
    {
        VertexEntry {
            payload,
            lists: BTreeMap::new(alloc),
        }
    }

    /// Sets the payload.
    pub fn set(&mut self, payload: Payload)
        ensures { self.new ≡ record self.old { payload = payload } }
    {
        self.payload = payload;
    }

    /// Sets an edge in front of the list of label `l`, in place of the edge to the same destination. After
    /// NoMemory the vertex is as before. Time: logarithmic, amortized.
    pub fn put(&mut self, alloc: Global, l: u16, pair: Pair) -> Result<(), NoMemory>
        ensures set { OnOk result
            (self.new ≡ record self.old { lists = lists_after_put l pair.d pair.p self.old.lists }) }
        ensures unchanged { OnErr result (self.new ≡ self.old) }
    {
        if let Some(list) = self.lists.get_mut(&l) {
            return list.put(pair);
        }
        let mut list = EdgeList::new(alloc);
        list.put(pair)?;
        self.lists.insert(l, list)?;
        Ok(())
    }

    /// Takes the edge to `d` out of the list of label `l`, where it is there. After NoMemory the vertex is as
    /// before. Time: that of the list's `delete`.
    pub fn delete(&mut self, l: u16, d: u64) -> Result<(), NoMemory>
        ensures taken { OnOk result (self.new ≡ record self.old { lists = lists_after_del l d self.old.lists }) }
        ensures unchanged { OnErr result (self.new ≡ self.old) }
    {
        let Some(list) = self.lists.get_mut(&l) else {
            return Ok(());
        };
        list.delete(d)?;
        if list.is_empty() {
            drop(self.lists.remove(&l));
        }
        Ok(())
    }

    /// What a query sees of the vertex, under whatever number, since no query sees that. Time: logarithmic, and
    /// the answer's size.
    pub fn answer(&self, alloc: Global, q: &Query) -> Result<Answer, NoMemory>
        ensures { IfOk result (λ answer. answer ≡ seen (Some (vertex_of_entry (0, self.now))) q.now) }
    {
        match q {
            Query::Vertex { .. } => Ok(Answer::Value(self.payload.copy()?)),
            Query::Edge { l, d, .. } => self.edge(*l, *d),
            Query::Scan { l, .. } => self.scan(alloc, *l),
            Query::Labels { .. } => self.labels(alloc),
        }
    }

    /// Whether there is an edge to `d` in the list of label `l`. Time: logarithmic.
    pub fn has_edge(&self, l: u16, d: u64) -> bool
        ensures { result ≡ is_some (pair_to d (pairs_in self.now.lists l)) }
    {
        match self.lists.get(&l) {
            Some(list) => list.has(d),
            None => false,
        }
    }

    /// The sum of the sizes of the edges in the list of label `l`. Time: logarithmic.
    pub fn list_size(&self, l: u16) -> u64
        ensures { result ≡ list_size (pairs_in self.now.lists l) }
    {
        match self.lists.get(&l) {
            Some(list) => list.size(),
            None => 0,
        }
    }

    /// The payload.
    pub fn payload(&self) -> &Payload
        ensures { result.now ≡ self.now.payload }
    {
        &self.payload
    }

    /// The least label that is at least `l` and has a list. Time: logarithmic.
    pub fn next_label(&self, l: u16) -> Option<u16>
        ensures { result ≡ first_from l (map (λ y. y.label) self.now.lists) }
    {
        let (label, _) = self.lists.range(l..).next()?;
        Some(*label)
    }

    /// The least label above `l` that has a list. Time: logarithmic.
    pub fn label_after(&self, l: u16) -> Option<u16>
        ensures { result ≡ first_from (l + 1) (map (λ y. y.label) self.now.lists) }
    {
        let (label, _) = self.lists.range((Excluded(l), Unbounded)).next()?;
        Some(*label)
    }

    /// The list of label `l`, where it is there. Time: logarithmic.
    pub fn pairs(&self, l: u16) -> Option<&EdgeList>
        ensures { option_copied result ≡ where_any (pairs_in self.now.lists l) }
    {
        self.lists.get(&l)
    }

    fn edge(&self, l: u16, d: u64) -> Result<Answer, NoMemory>
        ensures { IfOk result (λ answer. answer ≡ edge_answer (pair_to d (pairs_in self.now.lists l))) }
    {
        let Some(list) = self.lists.get(&l) else {
            return Ok(Answer::Absent);
        };
        let Some(pair) = list.pair_to(d) else {
            return Ok(Answer::Absent);
        };
        Ok(Answer::Value(pair.p.copy()?))
    }

    fn scan(&self, alloc: Global, l: u16) -> Result<Answer, NoMemory>
        ensures { IfOk result (λ answer. answer ≡ Answer.Edges (pairs_in self.now.lists l)) }
    {
        let Some(list) = self.lists.get(&l) else {
            return Ok(Answer::Edges(Pairs::new(alloc)));
        };
        Ok(Answer::Edges(list.to_pairs(alloc)?))
    }

    fn labels(&self, alloc: Global) -> Result<Answer, NoMemory>
        ensures { IfOk result (λ answer. answer ≡ Answer.Named (map (λ y. y.label) self.now.lists)) }
    {
        let mut labels = Labels::new(alloc);
        for label in self.lists.keys() {
            labels.push(*label)?;
        }
        Ok(Answer::Named(labels))
    }
}

impl Clone for VertexEntry {
    ghost is_clone = { λ x y. y ≡ x };

    fn clone(&self) -> Result<VertexEntry, AllocError> {
        Ok(VertexEntry {
            payload: self.payload.clone()?,
            lists: self.lists.clone()?,
        })
    }
}
