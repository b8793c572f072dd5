//! What makes transactions of several sessions commit at the same time: a gate at which the sessions meet, and a hook that
//! lets other threads run before each sync.

use disk_model::{Hook, Kind};
use io_edges::Gate;
use std::sync::atomic::{AtomicU64, Ordering};
use std::thread;

/// How often at most a session looks for the others before it goes on without them.
const LOOKS: u64 = 1_000_000;

/// How often other threads may run before a sync.
const RESTS: u64 = 20;

/// Holds the lines at which the sessions of a script meet until all have come to theirs.
#[derive(Drop)]
pub struct Meeting<'a> {
    /// For each line of the script how many have come to such lines when it goes on, or 0 where nobody meets.
    pub goes_at: &'a [u64],
    come: AtomicU64,
}

impl Meeting<'_> {
    /// Nobody has come yet.
    pub fn of(goes_at: &[u64]) -> Meeting<'_> {
        Meeting {
            goes_at,
            come: AtomicU64::new(0),
        }
    }

    // Waits until so many have come.
    fn wait_for(&self, many: u64) {
        for _ in 0..LOOKS {
            if self.come.load(Ordering::SeqCst) >= many {
                return;
            }
            thread::yield_now();
        }
    }
}

impl Gate for Meeting<'_> {
    fn pass(&self, _session: u64, line: u64) {
        let place = line.saturating_sub(1) as usize;
        let many = self.goes_at.get(place).copied().unwrap_or(0);
        if many > 0 {
            self.come.fetch_add(1, Ordering::SeqCst);
            self.wait_for(many);
        }
    }
}

/// Lets other threads run before each sync, so that their commits come to wait for it.
#[derive(Drop)]
pub struct SlowSync;

impl Hook for SlowSync {
    fn before(&self, kind: Kind, _number: u64) {
        if kind == Kind::Sync {
            for _ in 0..RESTS {
                thread::yield_now();
            }
        }
    }
}
