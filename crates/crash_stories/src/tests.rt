//! What no clause says together: whatever call of the disk fails, each image of each moment recovers to what was durable
//! then, with one group more at most, and what was answered as committed is among the records.

use crate::asserts::holds_in;
use crate::run::{Run, run_on};
use disk_model::{Disk, Fail as Failing, Kind, MemDisk};
use graph_recover::recover;
use std::alloc::Global;
use std::sync::Wait;
use std::test::Fail;
use std::thread::Threads;

/// The moment at which the new log has been made, by one write and one sync.
const MADE: u64 = 2;

/// A number of a call that no run makes.
const MOST: u64 = 100;

// Whether the run may leave each image of a moment.
fn may_leave_images(alloc: Global, run: &Run, moment: u64) -> Result<bool, Fail> {
    for choice in [0, 1, 7] {
        let image = run.disk.image(alloc, moment, choice).ok().ok_or("memory")?;
        let bytes = image.as_slice().to_vec(alloc)?;
        let room = bytes.len();
        let mut disk = MemDisk::new(alloc, bytes, 100, room, Vec::new(alloc))
            .ok()
            .ok_or("memory")?;
        let log = recover(alloc, &mut disk).ok().ok_or("no log")?;
        if !run.may_leave(moment, log.records.as_slice()) {
            return Ok(false);
        }
    }
    Ok(true)
}

// Whether the run may leave each image of each moment since its log was made, and has all that it answered as committed.
fn is_kept(alloc: Global, run: &Run) -> Result<bool, Fail> {
    for moment in MADE..run.disk.moment().saturating_add(1) {
        if !may_leave_images(alloc, run, moment)? {
            return Ok(false);
        }
    }
    Ok(run.has_all_committed())
}

// The call of this number and kind fails, and so many of the first cuts.
fn failing(alloc: Global, kind: Kind, number: u64, cuts: u64) -> Result<Vec<Failing>, Fail> {
    let mut failing = vec![in alloc; Failing { kind, number }]?;
    for cut in 0..cuts {
        failing.push(Failing {
            kind: Kind::Cut,
            number: cut.saturating_add(1),
        })?;
    }
    Ok(failing)
}

// Judges a run for each call of a kind that fails, where so many cuts fail too: up to the first number of a call that the
// run did not make, which comes back.
fn all_kept<R: Threads + Wait + Sync>(
    rt: &R,
    alloc: Global,
    kind: Kind,
    cuts: u64,
) -> Result<u64, Fail> {
    for number in 2..MOST {
        let run = run_on(rt, alloc, failing(alloc, kind, number, cuts)?)?;
        if !is_kept(alloc, &run)? {
            return Err(Fail::from("not kept"));
        }
        if run.disk.faults() == 0 {
            return Ok(number);
        }
    }
    Ok(MOST)
}

#[test]
fn whatever_call_fails_each_image_has_what_was_answered_as_committed(
    rt: HostRuntime,
) -> Result<(), Fail> {
    for kind in [Kind::Write, Kind::Sync] {
        for cuts in [0, 1, 2] {
            let calls = all_kept(&rt, rt.alloc(), kind, cuts)?;
            holds_in(&rt, calls < MOST, (kind, cuts));
        }
    }
    Ok(())
}
