//! The judge of a run.

use crate::story::{Story, Verdict};
use graph_model::{Changes, Graph, Record, Records};
use request_text::{Line, Reply, Request};
use std::alloc::Global;

/// Judges the replies to the lines of a run, in their order.
#[derive(Drop)]
pub struct Judge<'a> {
    alloc: Global,
    base: &'a Graph,
    records: &'a Records,
    stories: Vec<Option<Story>>,
}

// The greatest epoch of the records, or 0.
fn last_epoch(records: &Records) -> u64 {
    match records.last() {
        Some(record) => record.epoch,
        None => 0,
    }
}

impl<'a> Judge<'a> {
    /// A judge of a run that began with this graph at epoch 0 and committed these records, with so many sessions; None
    /// where memory ran out.
    pub fn new(
        alloc: Global,
        base: &'a Graph,
        records: &'a Records,
        sessions: usize,
    ) -> Option<Judge<'a>> {
        let mut stories = Vec::new(alloc);
        for _ in 0..sessions {
            stories.push(None).ok()?;
        }
        Some(Judge {
            alloc,
            base,
            records,
            stories,
        })
    }

    /// Whether the reply to the next line is right; None where memory ran out, or where the session is none of those.
    pub fn is_right(&mut self, line: &Line, reply: &Reply) -> Option<bool> {
        let session = line.session as usize;
        if session >= self.stories.len() {
            return None;
        }
        match self.stories[session].take() {
            None => self.judge_outside(session, &line.request, reply),
            Some(story) => {
                let mut story = story;
                match story.judge(self.records, &line.request, reply)? {
                    Verdict::GoesOn => {
                        self.stories[session] = Some(story);
                        Some(true)
                    }
                    Verdict::Ends => Some(true),
                    Verdict::Wrong => Some(false),
                }
            }
        }
    }

    // The same of a line outside of a transaction.
    fn judge_outside(&mut self, session: usize, request: &Request, reply: &Reply) -> Option<bool> {
        if session >= self.stories.len() {
            return None;
        }
        match (request, reply) {
            (Request::Begin, Reply::Begun { tid, read }) => {
                if *read > last_epoch(self.records) {
                    return Some(false);
                }
                let snapshot = Graph::at(self.alloc, self.base, self.records, *read).ok()?;
                self.stories[session] = Some(Story {
                    tid: *tid,
                    read: *read,
                    snapshot,
                    own: Changes::new(self.alloc),
                });
                Some(true)
            }
            (Request::Begin, Reply::NoMemory) => Some(true),
            (Request::Begin, _) => Some(false),
            (Request::Compact { .. }, Reply::Compacted) => Some(true),
            (_, Reply::NoTxn) => Some(true),
            _ => Some(false),
        }
    }
}

// Whether a change of one record is of a vertex that the other changed.
fn share_a_vertex(record: &Record, other: &Record) -> bool {
    for change in record.changes.as_slice() {
        if other.changes.touch(change.vertex()) {
            return true;
        }
    }
    false
}

/// Whether no two of the records that overlap changed one vertex: each has read all records before it that did.
pub fn are_apart(records: &Records) -> bool {
    let records = records.as_slice();
    for i in 0..records.len() {
        for j in 0..i {
            if records[j].epoch > records[i].read && share_a_vertex(&records[i], &records[j]) {
                return false;
            }
        }
    }
    true
}
