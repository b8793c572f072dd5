//! Two threads that show themselves to each other: gates and a hook that hold workers until both have come.

use disk_model::{Hook, Kind};
use io_edges::Gate;
use std::sync::atomic::{AtomicBool, Ordering};
use std::thread;

/// How often at most a thread looks for the other before it goes on without it.
const LOOKS: u64 = 100_000_000;

/// One of two threads that meet: whether it has come, and whether it saw the other come.
#[derive(Drop)]
pub struct Side {
    come: AtomicBool,
    saw: AtomicBool,
}

impl Side {
    /// A thread that has not come yet.
    pub fn away() -> Side {
        Side {
            come: AtomicBool::new(false),
            saw: AtomicBool::new(false),
        }
    }

    /// It has come.
    fn come(&self) {
        self.come.store(true, Ordering::SeqCst);
    }

    /// Waits until the other has come, and keeps whether it saw that.
    fn wait_for(&self, other: &Side) {
        for _ in 0..LOOKS {
            if other.come.load(Ordering::SeqCst) {
                self.saw.store(true, Ordering::SeqCst);
                return;
            }
            thread::yield_now();
        }
    }

    /// Whether it saw the other come.
    pub fn saw(&self) -> bool {
        self.saw.load(Ordering::SeqCst)
    }
}

/// Holds the first two lines of a script until the worker of each has seen that the other's has come.
#[derive(Drop)]
pub struct FirstTwo<'a> {
    pub first: &'a Side,
    pub second: &'a Side,
}

impl Gate for FirstTwo<'_> {
    fn pass(&self, _session: u64, line: u64) {
        let (own, other) = match line {
            1 => (self.first, self.second),
            2 => (self.second, self.first),
            _ => return,
        };
        own.come();
        own.wait_for(other);
    }
}

/// Shows that the worker of a line has come to it.
#[derive(Drop)]
pub struct Shown<'a> {
    pub side: &'a Side,
    /// The number of the line in the script.
    pub line: u64,
}

impl Gate for Shown<'_> {
    fn pass(&self, _session: u64, line: u64) {
        if line == self.line {
            self.side.come();
        }
    }
}

/// Holds the line of a read until the disk has been called, and shows the line behind it.
#[derive(Drop)]
pub struct ReadMeanwhile<'a> {
    pub call: &'a Side,
    pub read: &'a Side,
    /// The number of the read in the script.
    pub line: u64,
}

impl Gate for ReadMeanwhile<'_> {
    fn pass(&self, _session: u64, line: u64) {
        if line == self.line {
            self.read.wait_for(self.call);
        }
        if line > self.line {
            self.read.come();
        }
    }
}

/// Holds the second sync of a disk until the other side has come. A new log takes one sync, so that the second is the
/// first one of the first commit.
#[derive(Drop)]
pub struct HeldSync<'a> {
    pub call: &'a Side,
    pub other: &'a Side,
}

impl Hook for HeldSync<'_> {
    fn before(&self, kind: Kind, number: u64) {
        if kind == Kind::Sync && number == 2 {
            self.call.come();
            self.call.wait_for(self.other);
        }
    }
}
