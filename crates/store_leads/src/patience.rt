//! The patience of a leader: it waits a moment for records that will be queued soon.
//!
//! A group costs two syncs, whatever it holds, and threads whose records were in one group come with their next ones at
//! nearly the same time. The first of them would lead alone, and the others would wait for two syncs. So where the disk is
//! slow it waits until as many records wait as the last group had, and then a shorter time for transactions that may commit
//! yet; not for long in each case, and not at all where the last group had one. Where the disk is fast it goes at once, and
//! those whose record it took wait for the end of its group awake. Both go by the hints, so that they keep nobody from the
//! clock.

use store_board::Hints;

/// How often a leader looks whether as many records wait as the last group had.
const LOOKS: u32 = 256;

/// How often it looks for more when that many wait.
const MORE_LOOKS: u32 = 32;

/// How often a thread looks whether another one that leads has ended its group, where the disk is fast: for some tens of
/// microseconds. It does not pause between two looks, since a pause takes 5 ns on one processor and 60 on another.
const END_LOOKS: u32 = 16_384;

/// What a thread finds whose record waits.
#[derive(Clone, Copy, Debug, PartialEq, Eq)]
pub(crate) enum Found {
    /// The next group that was to be collected has an outcome: a record that waited before is mostly of that group.
    Outcome,
    /// Nobody led, and this thread has begun a lead.
    Lead,
    /// Another thread may lead yet, for which it is to wait at the log's turn.
    Leader,
}

/// What a leader may wait for.
#[derive(Clone, Copy, Debug, PartialEq, Eq)]
enum Coming {
    /// Nothing: no record waits, or all that may come is there.
    Nothing,
    /// Fewer records wait than the last group had.
    Fellows,
    /// As many wait, and transactions run that may commit.
    Others,
}

// What the leader may wait for.
fn expected(hints: &Hints) -> Coming {
    let waiting = hints.waiting();
    let grouped = hints.grouped();
    if grouped < 2 || waiting == 0 {
        return Coming::Nothing;
    }
    if waiting < grouped {
        Coming::Fellows
    } else if waiting < hints.undecided() {
        Coming::Others
    } else {
        Coming::Nothing
    }
}

// Looks, at most so often, while the leader may wait for this.
fn look(hints: &Hints, coming: Coming, times: u32) {
    for looks in 0..times {
        if expected(hints) != coming {
            return;
        }
        hints.pause(looks);
    }
}

/// Waits while another thread leads, where the disk is fast, and answers what it found. Where the disk is slow it does not
/// wait. It takes no turn and no memory.
///
/// Time: at most some sixteen thousand looks.
pub(crate) fn wait_for_leader(hints: &Hints) -> Found {
    if hints.is_disk_slow() {
        return Found::Leader;
    }
    let group = hints.next_group();
    for _ in 0..END_LOOKS {
        if hints.is_decided(group) {
            return Found::Outcome;
        }
        if hints.begin_lead() {
            return Found::Lead;
        }
    }
    hints.note_late();
    Found::Leader
}

/// Ends the lead, where this thread has begun one.
pub(crate) fn end_lead(hints: &Hints, found: Found) {
    if let Found::Lead = found {
        hints.end_lead();
    }
}

/// Waits a moment for records that may be queued soon, where the disk is slow. It takes no turn and no memory.
///
/// Time: at most some hundred looks.
pub(crate) fn wait_for_others(hints: &Hints) {
    if !hints.is_disk_slow() {
        return;
    }
    look(hints, Coming::Fellows, LOOKS);
    look(hints, Coming::Others, MORE_LOOKS);
}
