//! How the clock and the log stand, for threads that have no turn.

use crate::pace::Pace;
use std::hint::spin_loop;
use std::sync::atomic::{AtomicU64, Ordering};
use std::thread::yield_now;
use store_turns::ClockHome;

/// After how many looks at a hint other threads run before the next one, where the disk is slow.
const SHORT_LOOKS: u32 = 64;

/// The same where it is fast.
const LONG_LOOKS: u32 = 192;

/// How the clock stood when its turn was last given back, and how far the groups of the log are. A thread that waits looks
/// here, and takes the clock's turn once it may go on, so that waiting keeps nobody from the clock.
///
/// No clause says that a hint is true: who goes by one asks the clock itself then. A word that changes is fetched anew by
/// each thread that looks at it. So words that change together lie together, and others on another line of the cache; and
/// what only patient leaders ask is noted while the disk is slow alone.
#[derive(Drop)]
pub struct Hints {
    _before: [u64; 8],
    visible: AtomicU64,
    _after_visible: [u64; 8],
    waiting: AtomicU64,
    grouped: AtomicU64,
    undecided: AtomicU64,
    _after_undecided: [u64; 8],
    collected: AtomicU64,
    _after_collected: [u64; 8],
    decided: AtomicU64,
    led: AtomicU64,
    _behind: [u64; 8],
    pace: Pace,
}

// The word is so from now on. One that is so already stays in every cache.
fn set(word: &AtomicU64, now: u64) {
    if word.load(Ordering::Relaxed) != now {
        word.store(now, Ordering::Relaxed);
    }
}

// The word is one more from now on, as the only thread says that may change it.
fn raise(word: &AtomicU64) {
    let now = word.load(Ordering::Relaxed);
    word.store(now.wrapping_add(1), Ordering::Relaxed);
}

impl Hints {
    /// Nothing is known of the clock and the log.
    pub fn new() -> Hints {
        Hints {
            _before: [0; 8],
            visible: AtomicU64::new(0),
            _after_visible: [0; 8],
            waiting: AtomicU64::new(0),
            grouped: AtomicU64::new(0),
            undecided: AtomicU64::new(0),
            _after_undecided: [0; 8],
            collected: AtomicU64::new(0),
            _after_collected: [0; 8],
            decided: AtomicU64::new(0),
            led: AtomicU64::new(0),
            _behind: [0; 8],
            pace: Pace::new(),
        }
    }

    /// Notes how the clock stands, for whoever has its turn.
    pub fn note(&self, home: &ClockHome) {
        set(&self.visible, home.part.visible());
        if self.is_disk_slow() {
            set(&self.waiting, home.part.waiting() as u64);
            set(&self.grouped, home.grouped as u64);
            set(&self.undecided, home.part.undecided() as u64);
        }
    }

    /// Notes that a group was collected, for its leader, who has the log's turn.
    pub fn note_collect(&self) {
        raise(&self.collected);
    }

    /// Notes that this group was published or given up, for its leader, who has the log's turn.
    pub fn note_end(&self) {
        raise(&self.decided);
        self.pace.note_group();
    }

    /// Notes that a thread has looked for the end of a group as often as it does, in vain.
    pub fn note_late(&self) {
        self.pace.note_late();
    }

    /// The number of the next group that is to be collected.
    pub fn next_group(&self) -> u64 {
        self.collected.load(Ordering::Relaxed).wrapping_add(1)
    }

    /// Whether the group of this number was published or given up.
    pub fn is_decided(&self, group: u64) -> bool {
        self.decided.load(Ordering::Relaxed) >= group
    }

    /// Begins a lead where nobody has begun one, and answers whether it did. Who began one ends it (`end_lead`).
    pub fn begin_lead(&self) -> bool {
        self.led.load(Ordering::Relaxed) == 0 && self.led.swap(1, Ordering::Relaxed) == 0
    }

    /// Ends the lead that this thread has begun: nobody leads from now on.
    pub fn end_lead(&self) {
        self.led.store(0, Ordering::Relaxed);
    }

    /// Whether appends take long, as far as those that wait have seen.
    pub fn is_disk_slow(&self) -> bool {
        self.pace.is_slow()
    }

    /// The visible epoch.
    pub fn visible(&self) -> u64 {
        self.visible.load(Ordering::Relaxed)
    }

    /// How many records wait to be collected, where the disk is slow.
    pub fn waiting(&self) -> u64 {
        self.waiting.load(Ordering::Relaxed)
    }

    /// How many members the last group had, where the disk is slow.
    pub fn grouped(&self) -> u64 {
        self.grouped.load(Ordering::Relaxed)
    }

    /// How many of the transactions that run have no outcome, where the disk is slow.
    pub fn undecided(&self) -> u64 {
        self.undecided.load(Ordering::Relaxed)
    }

    /// Lets a moment pass behind a look at a hint, of which so many were taken before: a short one at first, and then other
    /// threads run.
    pub fn pause(&self, looks: u32) {
        let short = if self.is_disk_slow() {
            SHORT_LOOKS
        } else {
            LONG_LOOKS
        };
        if looks < short {
            spin_loop();
        } else {
            yield_now();
        }
    }
}
