//! What commands leave of a log, and what they say of one.

use crate::asserts::{holds_in, same};
use crate::over_memory::{
    EMPTY_LOG, FIRST_LOG, FIRST_REPLIES, FIRST_SCRIPT, asked, assert_left, assert_shown, disk, run,
    run_by, run_on,
};
use disk_model::{Disk, Kind};
use graph_cli::Status;
use std::test::Fail;

#[test]
fn the_first_script_leaves_the_first_log(rt: HostRuntime) -> Result<(), Fail> {
    let shown = run(&rt, rt.alloc(), FIRST_SCRIPT)?;
    assert_shown(&rt, &shown, Status::Done, FIRST_REPLIES, &[]);
    assert_left(&rt, &shown, FIRST_LOG, &[]);
    same(&rt, shown.report.durable_length, 101);
    same(
        &rt,
        shown.report.durable_at.as_slice(),
        [shown.report.last_moment].as_slice(),
    );
    Ok(())
}

#[test]
fn a_run_goes_on_where_the_last_one_ended(rt: HostRuntime) -> Result<(), Fail> {
    let shown = run_by(&rt, rt.alloc(), "2", "0 begin\n0 vertex 61\n0 commit\n")?;
    let replies = "1 begun 1 0\n2 vertex 1\n3 committed 1\n";
    assert_shown(&rt, &shown, Status::Done, replies, &["first"]);
    same(&rt, shown.report.replies.len(), 3);
    let shown = run_on(&rt, rt.alloc(), "0 begin\n0 get 1", shown.disk)?;
    let replies = "1 begun 2 1\n2 value 61\n";
    assert_shown(&rt, &shown, Status::Done, replies, &["second"]);
    same(&rt, shown.report.replies.len(), 2);
    same(&rt, shown.disk.faults(), 0);
    Ok(())
}

#[test]
fn the_first_log_is_dumped_and_checked(rt: HostRuntime) -> Result<(), Fail> {
    let all = "epoch 1\nvertex 1 61\nedge 1 5 7 -\nedge 1 5 9 ff\nend 1 2\n";
    let above = Status::BadEpoch { asked: 2, last: 1 };
    let rows: [(&[&str], Status, &str); 6] = [
        (&["dump"], Status::Done, all),
        (&["dump", "--at", "1"], Status::Done, all),
        (&["dump", "--at=0"], Status::Done, "epoch 0\nend 0 0\n"),
        (&["dump", "--at", "2"], above, ""),
        (
            &["check"],
            Status::Done,
            "format 1 epoch 1 records 1 durable 101 rest 0\n",
        ),
        (&["init"], Status::NotEmpty { length: 101 }, ""),
    ];
    for (texts, status, written) in rows {
        let shown = asked(&rt, rt.alloc(), texts, disk(rt.alloc(), FIRST_LOG, &[])?)?;
        assert_shown(&rt, &shown, status, written, texts);
        assert_left(&rt, &shown, FIRST_LOG, texts);
    }
    Ok(())
}

#[test]
fn an_empty_script_leaves_the_empty_log(rt: HostRuntime) -> Result<(), Fail> {
    let made = asked(&rt, rt.alloc(), &["init"], disk(rt.alloc(), b"", &[])?)?;
    assert_shown(&rt, &made, Status::Done, "", &["init"]);
    assert_left(&rt, &made, EMPTY_LOG, &["init"]);
    let shown = run_on(&rt, rt.alloc(), "", made.disk)?;
    assert_shown(&rt, &shown, Status::Done, "", &["run"]);
    assert_left(&rt, &shown, EMPTY_LOG, &["run"]);
    Ok(())
}

#[test]
fn only_what_changed_is_in_the_log(rt: HostRuntime) -> Result<(), Fail> {
    let rows = [
        ("", "records 1"),
        ("1 begin\n1 del 1 5 9\n1 commit\n", "records 2"),
    ];
    for (more, records) in rows {
        let absent = "1 begin\n1 del 1 5 77\n1 edge 1 5 77\n1 commit\n";
        let first = run(&rt, rt.alloc(), FIRST_SCRIPT)?;
        let second = run_on(&rt, rt.alloc(), absent, first.disk)?;
        let third = run_on(&rt, rt.alloc(), more, second.disk)?;
        let checked = asked(&rt, rt.alloc(), &["check"], third.disk)?;
        holds_in(&rt, checked.written.as_str().contains(records), records);
    }
    Ok(())
}

#[test]
fn a_commit_whose_sync_fails_is_a_log_fault_and_the_next_one_takes_its_place(
    rt: HostRuntime,
) -> Result<(), Fail> {
    let script = "1 begin\n1 vertex 61\n1 commit\n1 begin\n1 vertex 62\n1 commit\n";
    let log = disk(rt.alloc(), EMPTY_LOG, &[(Kind::Sync, 3)])?;
    let shown = run_on(&rt, rt.alloc(), script, log)?;
    let replies = "1 begun 1 0\n2 vertex 1\n3 log-fault\n4 begun 2 0\n5 vertex 2\n6 committed 1\n";
    let left =
        b"TELLOG1\n\x01\0\0\0\x2c\0\0\0\0\0\0\0\x01\0\0\0\x01\0\0\0\0\0\0\0\x02\0\0\0\0\0\0\0\0\0\0\0\x01\
        \x01\0\0\0\0\0\0\0\x02\0\x01b\0";
    assert_shown(&rt, &shown, Status::Done, replies, &[]);
    assert_left(&rt, &shown, left, &[]);
    Ok(())
}

#[test]
fn damaged_logs_are_refused_and_left_as_they_are(rt: HostRuntime) -> Result<(), Fail> {
    let rows = [
        (100, Status::BadLog { at: 9, group: 1 }),
        (5, Status::BadLog { at: 0, group: 0 }),
        (0, Status::NoLog),
    ];
    for (length, status) in rows {
        for texts in [["check"], ["dump"], ["run"]] {
            let log = FIRST_LOG.get(..length).ok_or("so many")?;
            let shown = asked(&rt, rt.alloc(), &texts, disk(rt.alloc(), log, &[])?)?;
            assert_shown(&rt, &shown, status, "", &texts);
            assert_left(&rt, &shown, log, &texts);
        }
    }
    Ok(())
}

#[test]
fn what_stands_behind_a_log_is_told_and_cut_off_by_a_run(rt: HostRuntime) -> Result<(), Fail> {
    let log = b"TELLOG1\n\0abc";
    let checked = asked(&rt, rt.alloc(), &["check"], disk(rt.alloc(), log, &[])?)?;
    let told = "format 1 epoch 0 records 0 durable 9 rest 3\n";
    assert_shown(&rt, &checked, Status::Done, told, &["check"]);
    let refused = run_on(&rt, rt.alloc(), "1 launch\n", checked.disk)?;
    let bad = Status::BadScript { line: 1, column: 3 };
    assert_shown(&rt, &refused, bad, "", &["launch"]);
    assert_left(&rt, &refused, log, &["launch"]);
    let shown = run_on(&rt, rt.alloc(), "", refused.disk)?;
    assert_shown(&rt, &shown, Status::Done, "", &["run"]);
    assert_left(&rt, &shown, EMPTY_LOG, &["run"]);
    Ok(())
}

/// A log with one group, whose one record has this number and makes this vertex: the bytes of the numbers.
const SPENT: [(&[u8; 8], &[u8; 8], &str); 2] = [
    (
        b"\x3f\xff\xff\xff\xff\xff\xff\xff",
        b"\0\0\0\0\0\0\0\x01",
        "1 spent\n2 no-txn\n3 no-txn\n",
    ),
    (
        b"\0\0\0\0\0\0\0\x01",
        b"\x3f\xff\xff\xff\xff\xff\xff\xff",
        "1 begun 2 1\n2 spent\n3 ended\n",
    ),
];

#[test]
fn numbers_that_are_used_up_are_spent(rt: HostRuntime) -> Result<(), Fail> {
    for (transaction, vertex, written) in SPENT {
        let mut log = b"TELLOG1\n\x01\0\0\0\x2b\0\0\0\0\0\0\0\x01\0\0\0\x01".to_vec(rt.alloc())?;
        log.extend_from_slice(transaction)?;
        log.extend_from_slice(b"\0\0\0\0\0\0\0\0\0\0\0\x01\x01")?;
        log.extend_from_slice(vertex)?;
        log.extend_from_slice(b"\0\0\0")?;
        let log = disk(rt.alloc(), log.as_slice(), &[])?;
        let shown = run_on(&rt, rt.alloc(), "1 begin\n1 vertex -\n1 commit\n", log)?;
        assert_shown(&rt, &shown, Status::Done, written, &[written]);
    }
    Ok(())
}
