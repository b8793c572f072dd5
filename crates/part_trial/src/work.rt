//! What one transaction did.

ghost use Rattle.std.specs.Prelude.{◌≡◌};
ghost use Rattle.group_commit.specs.Encoded.{Spells};

use graph_model::{Bytes, Change, Changes, Record, TRANSACTION_MOST};
use group_codec::push_change;
use group_commit::Member;
use shard_state::Who;
use std::alloc::Global;

/// A transaction that runs, with what it did.
#[derive(Drop)]
pub struct Work {
    /// Who calls the shard.
    pub who: Who,
    changes: Changes,
    // How the log spells the changes.
    spelling: Bytes,
    // The vertices that it changed, some of them more than once.
    touched: Vec<u64>,
    ghost spelled: { Spells spelling changes },
}

impl Work {
    /// A transaction that has changed nothing. It takes no memory.
    pub fn new(alloc: Global, tid: u64, read: u64) -> Work {
        Work {
            who: Who {
                tid,
                read,
                left: TRANSACTION_MOST,
            },
            changes: Changes::new(alloc),
            spelling: Bytes::new(alloc),
            touched: Vec::new(alloc),
        }
    }

    /// Notes a change; None where it is too long, or memory runs out.
    pub fn note(&mut self, change: Change) -> Option<()> {
        let v = change.vertex();
        let len = change.encoded_len();
        if len > self.who.left {
            return None;
        }
        let spelled = self.spelling.len();
        push_change(&mut self.spelling, &change).ok()?;
        if self.changes.push(change).is_err() {
            self.spelling.truncate(spelled);
            return None;
        }
        self.who.left -= len;
        if self.touched.last() != Some(&v) {
            self.touched.push(v).ok()?;
        }
        Some(())
    }

    /// What waits to be written, and the vertices that it changed.
    pub fn finish(self) -> (Member, Vec<u64>)
        ensures { (result.0.draft.tid ≡ self.who.tid) × (result.0.draft.read ≡ self.who.read) }
    {
        let Work {
            who,
            changes,
            spelling,
            touched,
        } = self;
        let record = Record {
            tid: who.tid,
            read: who.read,
            epoch: 0,
            changes,
        };
        (Member::new(record, spelling), touched)
    }
}
