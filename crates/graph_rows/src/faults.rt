//! Sources and sinks that fail.

use crate::asserts::{holds, same};
use crate::over_memory::{
    EMPTY_LOG, FIRST_LOG, FIRST_SCRIPT, asked, assert_left, assert_shown, disk, run_from, source,
};
use disk_model::Kind;
use graph_cli::Status;
use std::alloc::{AllocError, Global};
use std::test::Fail;

#[test]
fn a_run_whose_read_or_write_fails_writes_nothing(rt: HostRuntime) -> Result<(), Fail> {
    let rows: [(&[u64], &[u64], Status, &[u8]); 3] = [
        (&[1], &[], Status::ReadFault, EMPTY_LOG),
        (&[2], &[], Status::ReadFault, EMPTY_LOG),
        (&[], &[1], Status::WriteFault, FIRST_LOG),
    ];
    for (reads, writes, status, log) in rows {
        let mut source = source(rt.alloc(), FIRST_SCRIPT, reads)?;
        let shown = run_from(&rt, rt.alloc(), &mut source, writes)?;
        assert_shown(&rt, &shown, status, "", &[]);
        assert_left(&rt, &shown, log, &[]);
    }
    Ok(())
}

#[test]
fn a_disk_that_fails_first_is_told_with_its_counts(rt: HostRuntime) -> Result<(), Fail> {
    let fault = Status::DiskFault {
        before: 0,
        after: 1,
    };
    let rows: [(&str, &[u8], Kind); 5] = [
        ("check", FIRST_LOG, Kind::Len),
        ("dump", FIRST_LOG, Kind::Read),
        ("run", FIRST_LOG, Kind::Sync),
        ("init", b"", Kind::Len),
        ("init", b"", Kind::Sync),
    ];
    for (word, log, kind) in rows {
        let shown = asked(
            &rt,
            rt.alloc(),
            &[word],
            disk(rt.alloc(), log, &[(kind, 1)])?,
        )?;
        assert_shown(&rt, &shown, fault, "", &[word]);
    }
    Ok(())
}

/// A script that reads a payload of 65,535 bytes, and its replies, which are longer than a write is.
fn long_replies(alloc: Global) -> Result<(String, String), AllocError> {
    let payload = "ab".repeat(alloc, 65_535)?;
    let mut script = String::from_str(alloc, "1 begin\n1 vertex ")?;
    script.push_str(payload.as_str())?;
    script.push_str("\n1 get 1\n")?;
    let mut replies = String::from_str(alloc, "1 begun 1 0\n2 vertex 1\n3 value ")?;
    replies.push_str(payload.as_str())?;
    replies.push_str("\n")?;
    Ok((script, replies))
}

#[test]
fn a_later_write_that_fails_leaves_the_first_bytes_of_the_replies(
    rt: HostRuntime,
) -> Result<(), Fail> {
    let (script, replies) = long_replies(rt.alloc())?;
    let mut source = source(rt.alloc(), script.as_str(), &[])?;
    let shown = run_from(&rt, rt.alloc(), &mut source, &[2])?;
    same(&rt, shown.status, Status::WriteFault);
    holds(&rt, !shown.written.is_empty());
    holds(&rt, replies.as_str().starts_with(shown.written.as_str()));
    holds(&rt, shown.written.len() < replies.len());
    Ok(())
}
