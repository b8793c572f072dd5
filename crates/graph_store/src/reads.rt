//! The reads of a session, each with a result of its own.

ghost use Rattle.std.specs.Prelude.{◌≡◌, List, Ok, Err};
ghost use Rattle.graph_model.specs.declared.query.Query.TheVariants as query;
ghost use Rattle.core_calls.specs.Events.{Told};
ghost use Rattle.store_board.specs.Standing.{Stands, Goes};
ghost use Rattle.store_sessions.specs.Changing.{IsAtWork};
ghost use Rattle.store_sessions.specs.declared.refusal.Refusal.TheVariants as refusal;
ghost use Rattle.graph_store.specs.Passes.{KeepsRest};
ghost use Rattle.graph_store.specs.Seen.{ReadGives, vertex_in, edge_in, labels_in, pairs_in};

use crate::pass::Pass;
use crate::store::Store;
use disk_model::Disk;
use graph_model::{Answer, Labels, NoMemory, Pairs, Payload, Query};
use std::sync::Wait;
use store_sessions::Refusal;
use store_turns::Session;

impl<D: Disk> Store<D> {
    /// The payload of a vertex, as the transaction sees it; none exactly where it does not see the vertex.
    ///
    /// Time: one turn of the vertex's shard. Nothing here says that the wait ends.
    pub fn get_vertex<R: Wait>(
        &self,
        rt: &R,
        pass: &mut Pass<D>,
        session: &Session,
        v: u64,
    ) -> Result<Option<Payload>, NoMemory>
        requires stands { Stands self.now.board.turns self.now.board.shards pass.old.seat session.now }
        requires works { IsAtWork session.now }
        ensures goes { (ts : List Told)
            × ReadGives (query.Vertex v) (λ x. Ok (vertex_in x)) (Err (record {})) result ts
            × Goes self.now.board.turns self.now.board.shards ts pass.old.seat pass.new.seat session.now session.now }
        ensures rest { KeepsRest pass.old pass.new }
    {
        match self.read(rt, pass, session, &Query::Vertex { v })? {
            Answer::Value(p) => Ok(Some(p)),
            _ => Ok(None),
        }
    }

    /// The payload of the vertex's edge to `d` under a label, as the transaction sees it; none exactly where it does not
    /// see the edge. `NoVertex` comes exactly where it does not see the vertex, and `NoMemory` may come.
    ///
    /// Time: one turn of the vertex's shard, under which the edge is found by the index of its log, or in a short log by a
    /// walk. Nothing here says that the wait ends.
    pub fn get_edge<R: Wait>(
        &self,
        rt: &R,
        pass: &mut Pass<D>,
        session: &Session,
        v: u64,
        l: u16,
        d: u64,
    ) -> Result<Option<Payload>, Refusal>
        requires stands { Stands self.now.board.turns self.now.board.shards pass.old.seat session.now }
        requires works { IsAtWork session.now }
        ensures goes { (ts : List Told)
            × ReadGives (query.Edge v l d) edge_in (Err refusal.NoMemory) result ts
            × Goes self.now.board.turns self.now.board.shards ts pass.old.seat pass.new.seat session.now session.now }
        ensures rest { KeepsRest pass.old pass.new }
    {
        match self.read(rt, pass, session, &Query::Edge { v, l, d }) {
            Ok(Answer::NoVertex) => Err(Refusal::NoVertex),
            Ok(Answer::Value(p)) => Ok(Some(p)),
            Ok(_) => Ok(None),
            Err(NoMemory) => Err(Refusal::NoMemory),
        }
    }

    /// The labels under which the transaction sees edges of the vertex, rising. `NoVertex` comes exactly where it does not
    /// see the vertex, and `NoMemory` may come.
    ///
    /// Time: one turn of the vertex's shard, of each label's log one part and more only where that shows no edge, and the time
    /// of sorting them. Nothing here says that the wait ends.
    pub fn labels<R: Wait>(
        &self,
        rt: &R,
        pass: &mut Pass<D>,
        session: &Session,
        v: u64,
    ) -> Result<Labels, Refusal>
        requires stands { Stands self.now.board.turns self.now.board.shards pass.old.seat session.now }
        requires works { IsAtWork session.now }
        ensures goes { (ts : List Told)
            × ReadGives (query.Labels v) labels_in (Err refusal.NoMemory) result ts
            × Goes self.now.board.turns self.now.board.shards ts pass.old.seat pass.new.seat session.now session.now }
        ensures rest { KeepsRest pass.old pass.new }
    {
        match self.read(rt, pass, session, &Query::Labels { v }) {
            Ok(Answer::Named(labels)) => Ok(labels),
            Ok(_) => Err(Refusal::NoVertex),
            Err(NoMemory) => Err(Refusal::NoMemory),
        }
    }

    /// The vertex's edges under a label that the transaction sees, newest first. `NoVertex` comes exactly where it does not
    /// see the vertex, and `NoMemory` may come.
    ///
    /// Time: one turn of the vertex's shard, for one step for each entry of the log and each byte. Nothing here says that
    /// the wait ends.
    pub fn scan_whole<R: Wait>(
        &self,
        rt: &R,
        pass: &mut Pass<D>,
        session: &Session,
        v: u64,
        l: u16,
    ) -> Result<Pairs, Refusal>
        requires stands { Stands self.now.board.turns self.now.board.shards pass.old.seat session.now }
        requires works { IsAtWork session.now }
        ensures goes { (ts : List Told)
            × ReadGives (query.Scan v l) pairs_in (Err refusal.NoMemory) result ts
            × Goes self.now.board.turns self.now.board.shards ts pass.old.seat pass.new.seat session.now session.now }
        ensures rest { KeepsRest pass.old pass.new }
    {
        match self.read(rt, pass, session, &Query::Scan { v, l }) {
            Ok(Answer::Edges(pairs)) => Ok(pairs),
            Ok(_) => Err(Refusal::NoVertex),
            Err(NoMemory) => Err(Refusal::NoMemory),
        }
    }
}
