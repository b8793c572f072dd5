//! The command `drill`.

use crate::asserts::same;
use crate::over_memory::{asked, assert_left, assert_shown, disk};
use disk_model::MemDisk;
use graph_cli::Status;
use std::test::Fail;

/// A drill of eight sessions and 500 rounds by four workers.
const DRILL: [&str; 6] = ["drill", "7", "8", "500", "--workers", "4"];

#[test]
fn a_drill_sums_up_what_it_leaves(rt: HostRuntime) -> Result<(), Fail> {
    for _ in 0..2 {
        let Ok(disk) = MemDisk::new(
            rt.alloc(),
            Vec::new(rt.alloc()),
            40_000,
            10_000_000,
            Vec::new(rt.alloc()),
        ) else {
            return Err(Fail::from("memory"));
        };
        let made = asked(&rt, rt.alloc(), &["init"], disk)?;
        let shown = asked(&rt, rt.alloc(), &DRILL, made.disk)?;
        let told = "drill vertices 8 edges 3200 sum 801600 commits 4001\n";
        assert_shown(&rt, &shown, Status::Done, told, &["first"]);
        same(&rt, shown.report.setup.len(), 10);
        let shown = asked(&rt, rt.alloc(), &DRILL, shown.disk)?;
        let told = "drill vertices 16 edges 6400 sum 1603200 commits 4001\n";
        assert_shown(&rt, &shown, Status::Done, told, &["second"]);
    }
    Ok(())
}

#[test]
fn a_drill_makes_no_vertex_of_2_to_the_62(rt: HostRuntime) -> Result<(), Fail> {
    // The log has one record, which makes the vertex 2^62 - 4.
    let bytes = b"TELLOG1\n\x01\0\0\0\x2b\0\0\0\0\0\0\0\x01\0\0\0\x01\
        \0\0\0\0\0\0\0\x01\0\0\0\0\0\0\0\0\0\0\0\x01\x01\x3f\xff\xff\xff\xff\xff\xff\xfc\0\0\0";
    let rows = [
        ("4", Status::Usage, ""),
        (
            "3",
            Status::Done,
            "drill vertices 4 edges 3 sum 3 commits 4\n",
        ),
    ];
    for (sessions, status, written) in rows {
        let log = disk(rt.alloc(), bytes, &[])?;
        let shown = asked(&rt, rt.alloc(), &["drill", "1", sessions, "1"], log)?;
        assert_shown(&rt, &shown, status, written, &[sessions]);
        if status == Status::Usage {
            assert_left(&rt, &shown, bytes, &[sessions]);
        }
    }
    Ok(())
}
