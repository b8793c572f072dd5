//! What a transaction sees of a row.

ghost use Rattle.std.specs.Prelude.{◌≡◌, IfOk, Some, map};
ghost use Rattle.graph_model.specs.Graph.{asked_vertex, edge_answer, pair_to, pairs_in, seen};
ghost use Rattle.graph_model.specs.Payload.{payload_most};
ghost use Rattle.stamps.specs.Stamps.{Txn};
ghost use Rattle.edge_log.specs.Entries.{shown};
ghost use Rattle.core_rows.specs.Rows.{has_pairs, log_at, shown_lists, shown_vertex};
ghost use Rattle.vertex_rows.specs.RowIn.{row_over, IsRowIn};

use crate::VertexRow;
use edge_log::{EdgeLog, Part};
use graph_model::{Answer, Labels, NoMemory, Pairs, Payload, Query};
use std::alloc::Global;

impl<L: EdgeLog> VertexRow<L> {
    /// What the transaction sees of the vertex. What the part held is lost. After NoMemory nothing else has changed.
    /// Time: what it reads, entry for entry and byte for byte; for the labels, one part of each label's log and more
    /// only where that shows no edge, and the time of sorting them.
    pub fn read(
        &self,
        alloc: Global,
        room: &L::Room,
        part: &mut Part,
        tid: u64,
        read: u64,
        q: &Query,
    ) -> Result<Answer, NoMemory>
        requires stands { IsRowIn L.stands L.footprint L.content L.limit self.now room.now }
        requires bytes { part.old.bytes ≡ payload_most }
        ensures answer { IfOk result (λ answer. answer
            ≡ seen (shown_vertex (asked_vertex q.now) (row_over L.content self.now room.now) read (Txn tid)) q.now) }
        ensures bytes { part.new.bytes ≡ part.old.bytes }
    {
        match self.versions.newest_at(read, tid) {
            Some(payload) => self.read_living(alloc, room, part, tid, read, q, payload),
            None => Ok(Answer::NoVertex),
        }
    }

    // The same where the vertex is there with this payload.
    fn read_living(
        &self,
        alloc: Global,
        room: &L::Room,
        part: &mut Part,
        tid: u64,
        read: u64,
        q: &Query,
        payload: &Payload,
    ) -> Result<Answer, NoMemory>
        requires stands { IsRowIn L.stands L.footprint L.content L.limit self.now room.now }
        requires bytes { part.old.bytes ≡ payload_most }
        ensures answer { IfOk result (λ answer. answer
            ≡ seen (Some (record {
              number = asked_vertex q.now;
              payload = payload.now;
              lists = shown_lists (row_over L.content self.now room.now).logs read (Txn tid);
            })) q.now) }
        ensures bytes { part.new.bytes ≡ part.old.bytes }
    {
        match q {
            Query::Vertex { .. } => Ok(Answer::Value(payload.copy()?)),
            Query::Edge { l, d, .. } => self.edge(alloc, room, tid, read, *l, *d),
            Query::Scan { l, .. } => self.scan(alloc, room, part, tid, read, *l),
            Query::Labels { .. } => self.labels(alloc, room, part, tid, read),
        }
    }

    fn edge(
        &self,
        alloc: Global,
        room: &L::Room,
        tid: u64,
        read: u64,
        l: u16,
        d: u64,
    ) -> Result<Answer, NoMemory>
        requires { IsRowIn L.stands L.footprint L.content L.limit self.now room.now }
        ensures { IfOk result (λ answer. answer ≡ edge_answer (pair_to d
            (pairs_in (shown_lists (row_over L.content self.now room.now).logs read (Txn tid)) l))) }
    {
        let Some(n) = self.index.row(l) else {
            return Ok(Answer::Absent);
        };
        let payload = log_reads::payload_to(alloc, self.logs.at(n as usize), room, tid, read, d)?;
        match payload {
            Some(payload) => Ok(Answer::Value(payload)),
            None => Ok(Answer::Absent),
        }
    }

    fn scan(
        &self,
        alloc: Global,
        room: &L::Room,
        part: &mut Part,
        tid: u64,
        read: u64,
        l: u16,
    ) -> Result<Answer, NoMemory>
        requires stands { IsRowIn L.stands L.footprint L.content L.limit self.now room.now }
        requires bytes { part.old.bytes ≡ payload_most }
        ensures answer { IfOk result (λ answer. answer ≡ Answer.Edges
            (pairs_in (shown_lists (row_over L.content self.now room.now).logs read (Txn tid)) l)) }
        ensures bytes { part.new.bytes ≡ part.old.bytes }
    {
        let Some(n) = self.index.row(l) else {
            return Ok(Answer::Edges(Pairs::new(alloc)));
        };
        let pairs = log_reads::pairs(alloc, self.logs.at(n as usize), room, tid, read, part)?;
        Ok(Answer::Edges(pairs))
    }

    fn labels(
        &self,
        alloc: Global,
        room: &L::Room,
        part: &mut Part,
        tid: u64,
        read: u64,
    ) -> Result<Answer, NoMemory>
        requires { IsRowIn L.stands L.footprint L.content L.limit self.now room.now }
        ensures answer { IfOk result (λ answer. answer ≡ Answer.Named
            (map (λ y. y.label) (shown_lists (row_over L.content self.now room.now).logs read (Txn tid)))) }
        ensures bytes { part.new.bytes ≡ part.old.bytes }
    {
        let mut seen = Labels::new(alloc);
        let labels = self.index.labels()?;
        for label in labels.as_slice() {
            if self.shows_any(room, part, tid, read, *label) {
                seen.push(*label)?;
            }
        }
        Ok(Answer::Named(seen))
    }

    // Whether the transaction sees an edge under a label.
    fn shows_any(&self, room: &L::Room, part: &mut Part, tid: u64, read: u64, l: u16) -> bool
        requires { IsRowIn L.stands L.footprint L.content L.limit self.now room.now }
        ensures any { result ≡ has_pairs
            (shown (log_at (row_over L.content self.now room.now).logs l).entries read (Txn tid)) }
        ensures bytes { part.new.bytes ≡ part.old.bytes }
    {
        match self.index.row(l) {
            Some(n) => log_reads::shows_any(self.logs.at(n as usize), room, tid, read, part),
            None => false,
        }
    }
}
