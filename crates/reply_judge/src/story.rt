//! A transaction as its replies tell of it.

use crate::changes::{asked_by, changed_vertex, is_right, made};
use crate::reads::{query_of, tells};
use graph_model::{Changes, Graph, Record, Records};
use request_text::{Reply, Request};

/// A transaction: its number, the epoch of its snapshot, the graph at that epoch, and what it changed.
#[derive(Drop)]
pub struct Story {
    pub tid: u64,
    pub read: u64,
    pub snapshot: Graph,
    pub own: Changes,
}

/// How a story goes on behind a reply.
#[derive(Clone, Copy, PartialEq, Eq)]
pub enum Verdict {
    /// The reply is right, and the transaction goes on.
    GoesOn,
    /// The reply is right, and the transaction has ended.
    Ends,
    /// The reply is wrong.
    Wrong,
}

fn if_right(right: bool, verdict: Verdict) -> Verdict {
    if right { verdict } else { Verdict::Wrong }
}

/// The record of the transaction of this number.
fn record_of(records: &Records, tid: u64) -> Option<&Record> {
    for record in records.as_slice() {
        if record.tid == tid {
            return Some(record);
        }
    }
    None
}

/// Whether a record of this epoch changed the vertex.
fn is_changed_at(records: &Records, epoch: u64, v: u64) -> bool {
    for record in records.as_slice() {
        if record.epoch == epoch && record.changes.touch(v) {
            return true;
        }
    }
    false
}

impl Story {
    /// Whether the reply to the request is right, and how the transaction goes on; None where memory ran out, or where
    /// what it changed does not fit to its snapshot.
    pub fn judge(
        &mut self,
        records: &Records,
        request: &Request,
        reply: &Reply,
    ) -> Option<Verdict> {
        if let Some(query) = query_of(request) {
            let answer = self.snapshot.see(&self.own, &query).ok()?;
            return Some(if_right(tells(&query, &answer, reply), Verdict::GoesOn));
        }
        match (request, reply) {
            (_, Reply::NoMemory) => Some(Verdict::GoesOn),
            (_, Reply::TxnFull) => Some(Verdict::GoesOn),
            (Request::Begin, Reply::TxnOpen) => Some(Verdict::GoesOn),
            (Request::Compact { .. }, Reply::Compacted) => Some(Verdict::GoesOn),
            (Request::Vertex { .. }, Reply::Vertex { .. }) => self.change(request, reply),
            (Request::Commit, Reply::Committed { epoch }) => {
                Some(if_right(self.is_record(records, *epoch), Verdict::Ends))
            }
            (Request::Commit, Reply::Ended) => Some(if_right(self.own.is_empty(), Verdict::Ends)),
            (Request::Commit, Reply::LogFault { before, after }) => {
                Some(if_right(before < after && self.is_lost(records), Verdict::Ends))
            }
            (Request::Abort, Reply::Aborted) => {
                Some(if_right(self.is_lost(records), Verdict::Ends))
            }
            _ => self.judge_change(records, request, reply),
        }
    }

    // The same of a change of a vertex that is named.
    fn judge_change(
        &mut self,
        records: &Records,
        request: &Request,
        reply: &Reply,
    ) -> Option<Verdict> {
        let Some(v) = changed_vertex(request) else {
            return Some(Verdict::Wrong);
        };
        match reply {
            Reply::Held { v: w, tid } => Some(if_right(
                *w == v && *tid != self.tid && self.is_lost(records),
                Verdict::Ends,
            )),
            Reply::Conflict { v: w, epoch } => Some(if_right(
                *w == v
                    && *epoch > self.read
                    && is_changed_at(records, *epoch, v)
                    && self.is_lost(records),
                Verdict::Ends,
            )),
            _ => {
                let Some(query) = asked_by(request) else {
                    return Some(Verdict::Wrong);
                };
                let answer = self.snapshot.see(&self.own, &query).ok()?;
                if !is_right(request, &answer, reply) {
                    return Some(Verdict::Wrong);
                }
                self.change(request, reply)
            }
        }
    }

    // What was changed is noted.
    fn change(&mut self, request: &Request, reply: &Reply) -> Option<Verdict> {
        if let Some(change) = made(request, reply)? {
            self.own.push(change).ok()?;
        }
        Some(Verdict::GoesOn)
    }

    // Its record has this epoch, and what it changed, in order; it read before that.
    fn is_record(&self, records: &Records, epoch: u64) -> bool {
        match record_of(records, self.tid) {
            None => false,
            Some(record) => {
                record.epoch == epoch
                    && record.read == self.read
                    && self.read < epoch
                    && is_spelled_alike(&record.changes, &self.own)
            }
        }
    }

    // It has no record.
    fn is_lost(&self, records: &Records) -> bool {
        record_of(records, self.tid).is_none()
    }
}

// Whether two lists of changes are of the same vertices, with spellings of the same lengths.
fn is_spelled_alike(changes: &Changes, others: &Changes) -> bool {
    if changes.len() != others.len() {
        return false;
    }
    for i in 0..changes.len() {
        match (changes.get(i), others.get(i)) {
            (Some(change), Some(other)) => {
                if change.vertex() != other.vertex()
                    || change.encoded_len() != other.encoded_len()
                {
                    return false;
                }
            }
            _ => return false,
        }
    }
    true
}
