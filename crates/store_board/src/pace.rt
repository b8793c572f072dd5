//! Whether the disk keeps pace with those that commit.
//!
//! A leader that waits for the records of others saves them a group of their own, and costs all that are there this moment.
//! That pays where an append takes longer than a transaction, and not where it is over within some microseconds. Leaders
//! have no clock; but who waits for a group of another leader looks again and again whether it has ended, and knows how
//! often. Where many look in vain as often as they do at most, the disk is slow. Nobody looks so while it counts as slow; so
//! after some groups it counts as fast again, until that shows anew.

use std::sync::atomic::{AtomicU64, Ordering};

/// In so many groups one after another so many threads that look in vain make a slow disk.
const WINDOW: u64 = 64;

const LATE: u64 = 32;

/// For so many groups a disk counts as slow then.
const SLOW_GROUPS: u64 = 1024;

/// What those that waited have seen of the disk.
#[derive(Drop)]
pub(crate) struct Pace {
    // how many groups have ended since the disk counts as it does, or since the last ones were forgotten
    groups: AtomicU64,
    // how many threads have looked in vain meanwhile
    late: AtomicU64,
    // all that wait look at the word below, which lies on another line of the cache than those that change with each group
    _between: [u64; 8],
    slow: AtomicU64,
    _behind: [u64; 8],
}

fn put(word: &AtomicU64, value: u64) {
    word.store(value, Ordering::Relaxed);
}

impl Pace {
    /// The disk counts as fast.
    pub(crate) fn new() -> Pace {
        Pace {
            groups: AtomicU64::new(0),
            late: AtomicU64::new(0),
            _between: [0; 8],
            slow: AtomicU64::new(0),
            _behind: [0; 8],
        }
    }

    /// Whether the disk counts as slow.
    pub(crate) fn is_slow(&self) -> bool {
        self.slow.load(Ordering::Relaxed) == 1
    }

    /// A thread has looked for the end of a group in vain.
    pub(crate) fn note_late(&self) {
        self.late.fetch_add(1, Ordering::Relaxed);
    }

    /// A group has ended, as its leader says, who has the log's turn.
    pub(crate) fn note_group(&self) {
        let groups = self.groups.load(Ordering::Relaxed).wrapping_add(1);
        if self.is_slow() {
            if groups >= SLOW_GROUPS {
                self.begin(false);
                return;
            }
        } else if self.late.load(Ordering::Relaxed) >= LATE {
            self.begin(true);
            return;
        } else if groups >= WINDOW {
            self.begin(false);
            return;
        }
        put(&self.groups, groups);
    }

    // The disk counts as slow or as fast from now on, and what was seen of it is forgotten.
    fn begin(&self, slow: bool) {
        if self.is_slow() != slow {
            put(&self.slow, u64::from(slow));
        }
        put(&self.groups, 0);
        put(&self.late, 0);
    }
}
