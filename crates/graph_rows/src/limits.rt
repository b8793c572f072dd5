//! Long lists, long lines, and a full transaction.

use crate::asserts::{holds, same};
use crate::over_memory::{Shown, assert_shown, run, run_from};
use graph_cli::Status;
use io_edges::{Failed, Source};
use std::alloc::{AllocError, Global};
use std::sync::Wait;
use std::test::Fail;
use std::thread::Threads;

/// Puts to the destinations 1 to 200, and a scan of them.
fn puts(alloc: Global) -> Result<String, AllocError> {
    let mut script = String::from_str(alloc, "1 begin\n1 vertex -\n")?;
    for d in 1..201_u64 {
        writeln!(script, "1 put 1 5 {d} -")?;
    }
    script.push_str("1 scan 1 5\n1 commit\n")?;
    Ok(script)
}

/// The replies to these.
fn replies_to_puts(alloc: Global) -> Result<String, AllocError> {
    let mut replies = String::from_str(alloc, "1 begun 1 0\n2 vertex 1\n")?;
    for line in 3..203_u64 {
        writeln!(replies, "{line} new")?;
    }
    replies.push_str("203 edges 200")?;
    for d in (1..201_u64).rev() {
        write!(replies, " {d}:-")?;
    }
    replies.push_str("\n204 committed 1\n")?;
    Ok(replies)
}

#[test]
fn two_hundred_puts_are_scanned_newest_first(rt: HostRuntime) -> Result<(), Fail> {
    let script = puts(rt.alloc())?;
    let replies = replies_to_puts(rt.alloc())?;
    let shown = run(&rt, rt.alloc(), script.as_str())?;
    assert_shown(&rt, &shown, Status::Done, replies.as_str(), &[]);
    Ok(())
}

/// A transaction of a vertex with 60,425 bytes and 255 edges with 65,535 bytes each, whose changes are
/// encoded in 16,777,216 bytes.
fn full_transaction(alloc: Global) -> Result<String, AllocError> {
    let payload = "00".repeat(alloc, 65_535)?;
    let mut script = String::from_str(alloc, "1 begin\n1 vertex ")?;
    script.push_str("00".repeat(alloc, 60_425)?.as_str())?;
    for d in 0_u64..255 {
        write!(script, "\n1 put 1 5 {d} ")?;
        script.push_str(payload.as_str())?;
    }
    script.push_str("\n1 drop 1\n1 commit\n")?;
    Ok(script)
}

#[test]
fn a_transaction_of_the_greatest_size_commits(rt: HostRuntime) -> Result<(), Fail> {
    let script = full_transaction(rt.alloc())?;
    let shown = run(&rt, rt.alloc(), script.as_str())?;
    same(&rt, shown.status, Status::Done);
    let written = shown.written.as_str();
    holds(
        &rt,
        written.starts_with("1 begun 1 0\n2 vertex 1\n3 new\n4 new\n"),
    );
    holds(
        &rt,
        written.ends_with("\n257 new\n258 txn-full\n259 committed 1\n"),
    );
    Ok(())
}

/// A line that makes a vertex with a payload of so many digits.
fn long_line(alloc: Global, digits: usize) -> Result<String, AllocError> {
    let mut line = String::from_str(alloc, "1 vertex ")?;
    line.push_str("0".repeat(alloc, digits)?.as_str())?;
    Ok(line)
}

/// What the line shows as the second of a script.
fn shown_second<R: Threads + Wait + Sync>(
    rt: &R,
    alloc: Global,
    digits: usize,
) -> Result<Shown, Fail> {
    let mut script = String::from_str(alloc, "1 begin\n")?;
    script.push_str(long_line(alloc, digits)?.as_str())?;
    run(rt, alloc, script.as_str())
}

#[test]
fn a_payload_has_at_most_65535_bytes_and_a_line_200000(rt: HostRuntime) -> Result<(), Fail> {
    let rows = [
        ("131070", Status::Done, "1 begun 1 0\n2 vertex 1\n"),
        (
            "131072",
            Status::BadScript {
                line: 2,
                column: 10,
            },
            "",
        ),
        (
            "199991",
            Status::BadScript {
                line: 2,
                column: 10,
            },
            "",
        ),
        (
            "199992",
            Status::BadScript {
                line: 2,
                column: 200_001,
            },
            "",
        ),
    ];
    for (digits, status, written) in rows {
        let many = digits.parse::<usize>().ok().ok_or("a number")?;
        let shown = shown_second(&rt, rt.alloc(), many)?;
        assert_shown(&rt, &shown, status, written, &[digits]);
    }
    Ok(())
}

/// So many zeros, which are not kept anywhere.
#[derive(Drop)]
struct Zeros {
    left: u64,
}

impl Source for Zeros {
    ghost use Rattle.std.specs.Prelude.{None};

    ghost left = { λ _. None };

    ghost faults = { λ _. 0 };

    fn read(&mut self, buf: &mut [u8]) -> Result<usize, Failed> {
        let n = (buf.len() as u64).min(self.left);
        buf[..n as usize].fill(0);
        self.left -= n;
        Ok(n as usize)
    }
}

#[test]
fn a_script_has_at_most_268435456_bytes(rt: HostRuntime) -> Result<(), Fail> {
    let mut source = Zeros { left: 268_435_457 };
    let shown = run_from(&rt, rt.alloc(), &mut source, &[])?;
    assert_shown(&rt, &shown, Status::ScriptTooLong, "", &[]);
    Ok(())
}
