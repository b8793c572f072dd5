//! The plain graph, which changes are applied to and queries are answered on.

ghost use Rattle.std.specs.Prelude.{◌≡◌, ◌==◌, ◌+◌, ℕ, [], length, false, if◌then◌else◌, IsTrue, IfOk, OnOk, OnErr, IsErrOf, is_some, unwrap_or};
ghost use Rattle.std.specs.Ordering.{nat_cmp};
ghost use Rattle.std.specs.BTreeMap.{get};
ghost use Rattle.std.specs.Option.{option_copied};
ghost use Rattle.graph_model.specs.Graph.{vertex_at, fits, apply, all_fit, after, changes_until, at, asked_vertex, has_edge, seen, see};
ghost use Rattle.graph_model.specs.Sizes.{size_of_list};
ghost use Rattle.graph_model.specs.Walking.{first_from, numbers_of, labels_of, payload_of, pairs_of};
ghost use Rattle.graph_model.specs.Whole.{is_graph};
ghost use Rattle.graph_model.specs.Applying.{Applies, FitNone};

use crate::vertex_entry::VertexEntry;
use crate::{Answer, Change, Changes, EdgeList, NoMemory, Pair, Payload, Query, Records};
use std::alloc::Global;
use std::collections::BTreeMap;
use std::marker::Model;
use std::ops::Bound::{Excluded, Unbounded};

/// Why a graph refuses a change. The graph is as before.
#[derive(Clone, Copy, Debug, PartialEq, Eq)]
pub enum GraphRefusal {
    /// Memory ran out.
    NoMemory = 1,
    /// A New names a vertex that is there, or another change names a vertex that is not there.
    Unfit = 2,
}

impl From<NoMemory> for GraphRefusal {
    ghost use Rattle.graph_model.specs.declared.graph.GraphRefusal.TheVariants as refusal;

    ghost from_gives = { λ _ e. e ≡ refusal.NoMemory };

    fn from(_want: NoMemory) -> GraphRefusal {
        GraphRefusal::NoMemory
    }
}

/// A graph, which contracts see as its vertices, the numbers rising.
#[derive(Drop)]
pub struct Graph {
    alloc: Global,
    vertices: BTreeMap<u64, VertexEntry>,
}

impl Model for Graph {
    ghost use Rattle.std.specs.Prelude.{List, IsTrue};
    ghost use Rattle.graph_model.specs.Vertex.{Vertex};
    ghost use Rattle.graph_model.specs.MapEntries.{vertices_of};
    ghost use Rattle.graph_model.specs.Whole.{is_graph};

    ghost Value = { List Vertex };

    ghost view = { λ a. vertices_of a.vertices.entries };

    ghost invariant = { λ a. IsTrue (is_graph (vertices_of a.vertices.entries)) };
}

/// What a run starts from.
#[derive(Drop)]
pub struct Base {
    /// The graph of all records so far.
    pub graph: Graph,
    /// The last epoch of these records, or 0.
    pub epoch: u64,
    /// The number of the next transaction, from 1 to 2^62.
    pub next_tid: u64,
    /// The number of the next vertex, from 1 to 2^62.
    pub next_vertex: u64,
}

impl Graph {
    /// The graph without a vertex. It takes no memory.
    pub fn empty(alloc: Global) -> Graph
        ensures { result ≡ [] }
    {
        Graph {
            alloc,
            vertices: BTreeMap::new(alloc),
        }
    }

    /// The number of vertices.
    pub fn len(&self) -> usize
        ensures len { result ≡ length self.now }
        ensures whole { IsTrue (is_graph self.now) }
    {
        self.vertices.len()
    }

    /// Whether there are no vertices.
    pub fn is_empty(&self) -> bool
        ensures empty { result ≡ (length self.now == 0) }
        ensures whole { IsTrue (is_graph self.now) }
    {
        self.vertices.len() == 0
    }

    /// A graph with the same vertices. Time: one step for each vertex, list and edge; most edges of a long list
    /// are shared.
    pub fn copy(&self) -> Result<Graph, NoMemory>
        ensures same { IfOk result (λ graph. graph ≡ self.now) }
        ensures whole { IsTrue (is_graph self.now) }
    {
        self.copy_in(self.alloc)
    }

    fn copy_in(&self, alloc: Global) -> Result<Graph, NoMemory>
        ensures same { IfOk result (λ graph. graph ≡ self.now) }
        ensures whole { IsTrue (is_graph self.now) }
    {
        let vertices = self.vertices.clone()?;
        Ok(Graph { alloc, vertices })
    }

    /// Whether the vertex is there. Time: logarithmic.
    pub fn has(&self, v: u64) -> bool
        ensures { result ≡ is_some (vertex_at v self.now) }
    {
        self.vertices.contains_key(&v)
    }

    /// Whether the change fits. Time: logarithmic.
    pub fn fits(&self, change: &Change) -> bool
        ensures { result ≡ fits change.now self.now }
    {
        change.fits_where(self.has(change.vertex()))
    }

    /// Applies a change. Unfit where it does not fit, NoMemory where memory ran out: after either the graph is
    /// as before. Time: logarithmic, amortized, and one pass of a vertex that is dropped.
    pub fn apply(&mut self, change: &Change) -> Result<(), GraphRefusal>
        ensures applied { OnOk result (self.new ≡ apply change.now self.old) }
        ensures fit { OnOk result (IsTrue (fits change.now self.old)) }
        ensures unfit { IsErrOf result GraphRefusal.Unfit → fits change.now self.old ≡ false }
        ensures unchanged { OnErr result (self.new ≡ self.old) }
    {
        match change {
            Change::New { v, p } => self.make(*v, p),
            Change::Set { v, p } => self.set(*v, p),
            Change::Drop { v } => self.remove(*v),
            Change::Put { v, l, d, p } => self.put(*v, *l, *d, p),
            Change::Del { v, l, d } => self.delete(*v, *l, *d),
        }
    }

    fn make(&mut self, v: u64, p: &Payload) -> Result<(), GraphRefusal>
        ensures { Applies (Change.New v p.now) self.old self.new result }
    {
        if self.vertices.contains_key(&v) {
            return Err(GraphRefusal::Unfit);
        }
        let entry = VertexEntry::new(self.alloc, p.copy()?);
        match self.vertices.insert(v, entry) {
            Ok(_) => Ok(()),
            Err(_) => Err(GraphRefusal::NoMemory),
        }
    }

    fn set(&mut self, v: u64, p: &Payload) -> Result<(), GraphRefusal>
        ensures { Applies (Change.Set v p.now) self.old self.new result }
    {
        let payload = p.copy()?;
        let Some(entry) = self.vertices.get_mut(&v) else {
            return Err(GraphRefusal::Unfit);
        };
        entry.set(payload);
        Ok(())
    }

    fn remove(&mut self, v: u64) -> Result<(), GraphRefusal>
        ensures { Applies (Change.Drop v) self.old self.new result }
    {
        let Some(entry) = self.vertices.remove(&v) else {
            return Err(GraphRefusal::Unfit);
        };
        drop(entry);
        Ok(())
    }

    fn put(&mut self, v: u64, l: u16, d: u64, p: &Payload) -> Result<(), GraphRefusal>
        ensures { Applies (Change.Put v l d p.now) self.old self.new result }
    {
        let pair = Pair { d, p: p.copy()? };
        let alloc = self.alloc;
        let Some(entry) = self.vertices.get_mut(&v) else {
            return Err(GraphRefusal::Unfit);
        };
        entry.put(alloc, l, pair)?;
        Ok(())
    }

    fn delete(&mut self, v: u64, l: u16, d: u64) -> Result<(), GraphRefusal>
        ensures { Applies (Change.Del v l d) self.old self.new result }
    {
        let Some(entry) = self.vertices.get_mut(&v) else {
            return Err(GraphRefusal::Unfit);
        };
        entry.delete(l, d)?;
        Ok(())
    }

    /// The graph after the changes of all records whose epoch is at most `e`, in order. Unfit where one of
    /// them does not fit after those before it. Time: a copy of the base, and an `apply` for each change.
    pub fn at(alloc: Global, base: &Graph, records: &Records, e: u64) -> Result<Graph, GraphRefusal>
        ensures at { IfOk result (λ graph. graph ≡ at base.now records.now e) }
        ensures fit { OnOk result (IsTrue (all_fit (changes_until e records.now) base.now)) }
        ensures unfit { IsErrOf result GraphRefusal.Unfit → all_fit (changes_until e records.now) base.now ≡ false }
        ensures whole { IsTrue (is_graph base.now) }
    {
        let mut graph = base.copy_in(alloc)?;
        for record in records.as_slice() {
            if record.epoch <= e {
                graph.apply_all(&record.changes)?;
            }
        }
        Ok(graph)
    }

    /// Applies changes in order, up to the first that is refused; those before it stay applied.
    pub fn apply_all(&mut self, changes: &Changes) -> Result<(), GraphRefusal>
        ensures applied { OnOk result (self.new ≡ after changes.now self.old) }
        ensures fit { OnOk result (IsTrue (all_fit changes.now self.old)) }
        ensures unfit { IsErrOf result GraphRefusal.Unfit → all_fit changes.now self.old ≡ false }
    {
        for change in changes.as_slice() {
            self.apply(change)?;
        }
        Ok(())
    }

    /// What a query sees of the graph after one's own changes. The graph is not copied, but for the asked
    /// vertex where a change is about it. Unfit where one of the changes does not fit after those before it.
    /// Time: one logarithmic step for each of the changes, and the sizes of the asked vertex and of the
    /// answer.
    pub fn see(&self, own: &Changes, q: &Query) -> Result<Answer, GraphRefusal>
        ensures seen { IfOk result (λ answer. answer ≡ see self.now own.now q.now) }
        ensures fit { OnOk result (IsTrue (all_fit own.now self.now)) }
        ensures unfit { IsErrOf result GraphRefusal.Unfit → all_fit own.now self.now ≡ false }
    {
        if !self.accepts(own)? {
            return Err(GraphRefusal::Unfit);
        }
        let v = q.vertex();
        if !own.touch(v) {
            return Ok(self.answer(q)?);
        }
        let mut alone = self.alone(v)?;
        alone.apply_about(v, own)?;
        Ok(alone.answer(q)?)
    }

    /// Whether each of the changes fits, after those before it. The graph is not copied. Time: one
    /// logarithmic step for each change.
    pub fn accepts(&self, changes: &Changes) -> Result<bool, NoMemory>
        ensures { IfOk result (λ fit. fit ≡ all_fit changes.now self.now) }
    {
        let mut touched: BTreeMap<u64, bool> = BTreeMap::new(self.alloc);
        for change in changes.as_slice() {
            let v = change.vertex();
            if !change.fits_where(self.has_after(&touched, v)) {
                return Ok(false);
            }
            touched.insert(v, change.leaves_vertex())?;
        }
        Ok(true)
    }

    /// Whether the vertex is there, where a map says so of the vertices that changes have touched.
    fn has_after(&self, touched: &BTreeMap<u64, bool>, v: u64) -> bool
        ensures { result ≡ unwrap_or (get nat_cmp touched.now v) (is_some (vertex_at v self.now)) }
    {
        match touched.get(&v) {
            Some(left) => *left,
            None => self.has(v),
        }
    }

    /// A graph of this vertex alone, where it is there.
    fn alone(&self, v: u64) -> Result<Graph, NoMemory>
        ensures { IfOk result (λ graph. vertex_at v graph ≡ vertex_at v self.now) }
    {
        let Some(entry) = self.vertices.get(&v) else {
            return Ok(Graph::empty(self.alloc));
        };
        let mut vertices = BTreeMap::new(self.alloc);
        vertices.insert(v, entry.clone()?)?;
        Ok(Graph {
            alloc: self.alloc,
            vertices,
        })
    }

    /// Applies the changes about a vertex, up to the first that is refused.
    fn apply_about(&mut self, v: u64, changes: &Changes) -> Result<(), GraphRefusal>
        ensures applied { OnOk result (vertex_at v self.new ≡ vertex_at v (after changes.now self.old)) }

        // A refusal shows that the changes fit no graph that has the same vertex there.
        ensures unfit { IsErrOf result GraphRefusal.Unfit → FitNone v changes.now self.old }
    {
        for change in changes.as_slice() {
            if change.vertex() == v {
                self.apply(change)?;
            }
        }
        Ok(())
    }

    /// What a query sees of the graph. Time: logarithmic, and the answer's size.
    pub fn answer(&self, q: &Query) -> Result<Answer, NoMemory>
        ensures { IfOk result (λ answer. answer ≡ seen (vertex_at (asked_vertex q.now) self.now) q.now) }
    {
        let Some(entry) = self.vertices.get(&q.vertex()) else {
            return Ok(Answer::NoVertex);
        };
        entry.answer(self.alloc, q)
    }

    /// Whether the vertex is there with an edge to `d` in its list of label `l`. Time: logarithmic.
    pub fn has_edge(&self, v: u64, l: u16, d: u64) -> bool
        ensures { result ≡ has_edge (vertex_at v self.now) l d }
    {
        match self.vertices.get(&v) {
            Some(entry) => entry.has_edge(l, d),
            None => false,
        }
    }

    /// The sum of the sizes of the edges of a vertex under a label: 0 where there are none. Time: logarithmic.
    pub fn list_size(&self, v: u64, l: u16) -> u64
        ensures size { result ≡ size_of_list (vertex_at v self.now) l }
        ensures whole { IsTrue (is_graph self.now) }
    {
        match self.vertices.get(&v) {
            Some(entry) => entry.list_size(l),
            None => 0,
        }
    }

    /// The least vertex that is at least `v`; none exactly where there is none. Time: logarithmic.
    pub fn next_vertex(&self, v: u64) -> Option<u64>
        ensures next { result ≡ first_from v (numbers_of self.now) }
        ensures whole { IsTrue (is_graph self.now) }
    {
        let (number, _) = self.vertices.range(v..).next()?;
        Some(*number)
    }

    /// The least vertex above `v`; none exactly where there is none. Time: logarithmic.
    pub fn vertex_after(&self, v: u64) -> Option<u64>
        ensures { result ≡ first_from (v + 1) (numbers_of self.now) }
    {
        let (number, _) = self.vertices.range((Excluded(v), Unbounded)).next()?;
        Some(*number)
    }

    /// The payload of a vertex; none exactly where the vertex is not there. Time: logarithmic.
    pub fn payload(&self, v: u64) -> Option<&Payload>
        ensures { option_copied result ≡ payload_of (vertex_at v self.now) }
    {
        let entry = self.vertices.get(&v)?;
        Some(entry.payload())
    }

    /// The least label that is at least `l` and whose list at `v` is not empty; none exactly where there is
    /// none. Time: logarithmic.
    pub fn next_label(&self, v: u64, l: u16) -> Option<u16>
        ensures { result ≡ first_from l (labels_of (vertex_at v self.now)) }
    {
        let entry = self.vertices.get(&v)?;
        entry.next_label(l)
    }

    /// The least label above `l` whose list at `v` is not empty; none exactly where there is none. Time:
    /// logarithmic.
    pub fn label_after(&self, v: u64, l: u16) -> Option<u16>
        ensures { result ≡ first_from (l + 1) (labels_of (vertex_at v self.now)) }
    {
        let entry = self.vertices.get(&v)?;
        entry.label_after(l)
    }

    /// The edges of `v` under `l`, which `EdgeList::edges` gives newest first; none exactly where there are no
    /// edges or the vertex is not there. Time: logarithmic.
    pub fn pairs(&self, v: u64, l: u16) -> Option<&EdgeList>
        ensures { option_copied result ≡ pairs_of (vertex_at v self.now) l }
    {
        let entry = self.vertices.get(&v)?;
        entry.pairs(l)
    }

    /// Makes the vertex what it is in another graph: there with the same payload and lists, or absent. After
    /// NoMemory the graph is as before. Time: one step for each list of the vertex, and for each of its edges
    /// that copies do not share: mostly fewer than 32 of a list, or an eighth of it.
    pub fn adopt(&mut self, other: &Graph, v: u64) -> Result<(), NoMemory>
        ensures adopted { OnOk result ((w : ℕ)
            → vertex_at w self.new ≡ (if v == w then vertex_at v other.now else vertex_at w self.old)) }
        ensures unchanged { OnErr result (self.new ≡ self.old) }
    {
        let Some(entry) = other.vertices.get(&v) else {
            let _old = self.vertices.remove(&v);
            return Ok(());
        };
        let entry = entry.clone()?;
        self.vertices.insert(v, entry)?;
        Ok(())
    }
}
