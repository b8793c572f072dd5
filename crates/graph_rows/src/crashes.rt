//! Each call of the disk fails in turn, and every image of every moment is recovered and judged.

use crate::asserts::holds_in;
use crate::over_memory::{EMPTY_LOG, Shown, disk, run_on};
use disk_model::{Disk, Kind};
use graph_recover::recover;
use std::alloc::Global;
use std::test::Fail;

/// Three transactions that commit a vertex each.
const SCRIPT: &str = "\
1 begin
1 vertex 61
1 commit
1 begin
1 vertex 62
1 commit
1 begin
1 vertex 63
1 commit
";

/// The greatest number of a call that fails: a run of the script makes fewer of each kind.
const MOST: u64 = 20;

/// How many records are durable at a moment.
fn durable_by(shown: &Shown, moment: u64) -> usize {
    let mut durable = 0_usize;
    for at in shown.report.durable_at.as_slice() {
        if *at <= moment {
            durable = durable.saturating_add(1);
        }
    }
    durable
}

/// Whether each image of a moment recovers to the records that are durable then, or to one more.
fn keeps_all(alloc: Global, shown: &Shown, moment: u64) -> Result<bool, Fail> {
    let durable = durable_by(shown, moment);
    for choice in [0, 1, 7] {
        let image = shown.disk.image(alloc, moment, choice);
        let image = image.ok().ok_or("memory")?;
        let mut left = disk(alloc, image.as_slice(), &[])?;
        let log = recover(alloc, &mut left).ok().ok_or("a log")?;
        let records = log.records.len();
        if records != durable && records != durable.saturating_add(1) {
            return Ok(false);
        }
    }
    Ok(true)
}

#[test]
fn whatever_call_fails_each_image_has_what_was_acknowledged(rt: HostRuntime) -> Result<(), Fail> {
    let kinds = [Kind::Len, Kind::Read, Kind::Write, Kind::Cut, Kind::Sync];
    for kind in kinds {
        for number in 1..MOST {
            let log = disk(rt.alloc(), EMPTY_LOG, &[(kind, number)])?;
            let shown = run_on(&rt, rt.alloc(), SCRIPT, log)?;
            for moment in 0..shown.disk.moment().saturating_add(1) {
                holds_in(
                    &rt,
                    keeps_all(rt.alloc(), &shown, moment)?,
                    (kind, number, moment),
                );
            }
        }
    }
    Ok(())
}
