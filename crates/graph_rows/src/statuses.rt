//! Command words, and how a status is told.

use crate::asserts::same_in;
use crate::over_memory::{asked, assert_left, assert_shown, disk};
use graph_cli::Status;
use std::test::Fail;

#[test]
fn words_that_are_no_command_do_nothing(rt: HostRuntime) -> Result<(), Fail> {
    let rows: [&[&str]; 11] = [
        &["launch"],
        &[],
        &["run", "run"],
        &["Run"],
        &["--help"],
        &["dump", "--at"],
        &["dump", "--at", "01"],
        &["check", "--at", "1"],
        &["run", "--workers", "0"],
        &["run", "--workers", "2", "--workers", "3"],
        &["drill", "7", "8"],
    ];
    for texts in rows {
        let shown = asked(&rt, rt.alloc(), texts, disk(rt.alloc(), b"kept", &[])?)?;
        assert_shown(&rt, &shown, Status::Usage, "", texts);
        assert_left(&rt, &shown, b"kept", texts);
    }
    Ok(())
}

#[test]
fn each_status_has_its_number_and_its_text(rt: HostRuntime) -> Result<(), Fail> {
    let bad_script = Status::BadScript {
        line: 2,
        column: 10,
    };
    let bad_log = Status::BadLog { at: 9, group: 1 };
    let disk_fault = Status::DiskFault {
        before: 0,
        after: 1,
    };
    let bad_epoch = Status::BadEpoch { asked: 3, last: 2 };
    let not_empty = Status::NotEmpty { length: 40 };
    let rows = [
        (Status::Done, 0, ""),
        (Status::Usage, 2, "graph: usage"),
        (bad_script, 3, "graph: bad script at line 2 column 10"),
        (bad_log, 4, "graph: bad log at 9 group 1"),
        (Status::NoLog, 5, "graph: no log"),
        (Status::ReadFault, 6, "graph: read fault"),
        (Status::WriteFault, 7, "graph: write fault"),
        (disk_fault, 8, "graph: disk fault"),
        (Status::NoMemory, 9, "graph: no memory"),
        (bad_epoch, 10, "graph: epoch 3 is above 2"),
        (not_empty, 11, "graph: log holds 40 bytes"),
        (Status::ScriptTooLong, 12, "graph: script too long"),
    ];
    for (status, number, text) in rows {
        same_in(&rt, status.number(), number, status);
        let told = format!(in rt.alloc(); "{status}")?;
        same_in(&rt, told.as_str(), text, status);
    }
    Ok(())
}
