//! What no clause says: when a disk counts as slow, by how many threads have looked for the end of a group in vain, and that
//! one thread leads at a time.

use crate::asserts::same;
use std::test::Fail;
use store_board::Hints;

fn look_in_vain(hints: &Hints, threads: u32) {
    for _ in 0..threads {
        hints.note_late();
    }
}

fn end_groups(hints: &Hints, groups: u32) {
    for _ in 0..groups {
        hints.note_end();
    }
}

#[test]
fn a_disk_is_slow_for_some_groups_where_many_look_in_vain(rt: HostRuntime) -> Result<(), Fail> {
    let hints = Hints::new();
    for (threads, groups, slow) in [
        (31, 63, false),
        // they are forgotten behind the 64th group
        (0, 1, false),
        (1, 1, false),
        (31, 1, true),
        (0, 1023, true),
        (0, 1, false),
    ] {
        look_in_vain(&hints, threads);
        end_groups(&hints, groups);
        same(&rt, hints.is_disk_slow(), slow);
    }
    Ok(())
}

#[test]
fn one_thread_leads_until_it_ends_its_lead(rt: HostRuntime) -> Result<(), Fail> {
    let hints = Hints::new();
    for _ in 0..2 {
        same(&rt, hints.begin_lead(), true);
        same(&rt, hints.begin_lead(), false);
        hints.end_lead();
    }
    Ok(())
}
