//! What no clause says: that calls succeed with ample memory, and the places and texts of the language's
//! description, which stand here beside the definitions that the clauses name.

use crate::asserts::{same, same_in};
use graph_model::{Labels, Pair, Pairs, Payload};
use io_edges::{MemSink, OutBuffer};
use request_text::{Replies, Reply, TextRefusal, print_replies, print_reply, read_script};
use std::alloc::Global;
use std::process::Abort;
use std::test::Fail;

/// The first bad place of a text; none where it is a script.
fn bad_place(alloc: Global, text: &[u8]) -> Option<TextRefusal> {
    match read_script(alloc, text) {
        Ok(_) => None,
        Err(refusal) => Some(refusal),
    }
}

#[test]
fn the_first_bad_place_is_named(rt: HostRuntime) {
    let rows = [
        ("\n", 1, 1),
        ("1 get", 1, 6),
        ("1 get ", 1, 7),
        ("1 get 01", 1, 7),
        ("1 get 00", 1, 7),
        ("1 get +1", 1, 7),
        ("1 get  1", 1, 7),
        ("1  get 1", 1, 3),
        (" 1 get 1", 1, 1),
        ("1 commit ", 1, 10),
        ("1 fly 3", 1, 3),
        ("1 Get 3", 1, 3),
        ("65536 begin", 1, 1),
        ("1 get 9223372036854775808", 1, 7),
        ("1 get 18446744073709551616", 1, 7),
        ("1 get 99999999999999999999999", 1, 7),
        ("1 scan 1 65536", 1, 10),
        ("1 put 1 2 9223372036854775808 -", 1, 11),
        ("1 vertex 6", 1, 10),
        ("1 vertex 616", 1, 10),
        ("1 vertex 6A", 1, 10),
        ("1 vertex --", 1, 10),
        ("1 vertex - -", 1, 12),
        ("1 vertex \u{e9}", 1, 10),
        ("0 begin\n0 commit 5", 2, 10),
        ("0 begin\n\n0 commit", 2, 1),
        ("0 begin\r\n", 1, 3),
        ("0 begin\n0 fly\n0 get\n", 2, 3),
    ];
    for (text, line, column) in rows {
        same_in(
            &rt,
            bad_place(rt.alloc(), text.as_bytes()),
            Some(TextRefusal::BadLine { line, column }),
            text,
        );
    }
}

#[test]
fn the_last_newline_may_be_missing(rt: HostRuntime) -> Result<(), Fail> {
    let rows = [
        ("", 0),
        ("0 begin", 1),
        ("0 begin\n", 1),
        ("65535 get 9223372036854775807\n0 scan 0 65535", 2),
        (
            "0 vertex -\n0 set 1 00ff\n0 get 1\n0 drop 1\n0 put 1 2 3 61\n0 del 1 2 3\n",
            6,
        ),
        (
            "0 edge 1 2 3\n0 scan 1 2\n0 labels 1\n0 compact 1 2\n0 commit\n0 abort",
            6,
        ),
    ];
    for (text, lines) in rows {
        let script = read_script(rt.alloc(), text.as_bytes())
            .ok()
            .ok_or("a script")?;
        same_in(&rt, script.len(), lines, text);
    }
    Ok(())
}

/// A text, and so many bytes of this digit behind it.
fn with_digits(alloc: Global, text: &str, digit: u8, count: usize) -> Result<Vec<u8>, Fail> {
    let mut bytes = Vec::from_slice(alloc, text.as_bytes())?;
    for _ in 0..count {
        bytes.push(digit)?;
    }
    Ok(bytes)
}

#[test]
fn long_words_and_long_lines_are_judged_by_their_length(rt: HostRuntime) -> Result<(), Fail> {
    let bad = |line, column| Some(TextRefusal::BadLine { line, column });
    let rows = [
        ("1 vertex ", b'0', 131_070, None),
        ("0 begin\n1 vertex ", b'0', 131_072, bad(2, 10)),
        ("1 get ", b'1', 199_994, bad(1, 7)),
        ("1 get ", b'1', 199_995, bad(1, 200_001)),
        ("", b' ', 200_000, bad(1, 1)),
        ("", b' ', 200_001, bad(1, 200_001)),
    ];
    for (text, digit, count, want) in rows {
        let text = with_digits(rt.alloc(), text, digit, count)?;
        same_in(&rt, bad_place(rt.alloc(), text.as_slice()), want, count);
    }
    Ok(())
}

/// A payload of these bytes.
fn payload(alloc: Global, bytes: &[u8]) -> Result<Payload, Fail> {
    if bytes.len() > Payload::MOST {
        return Err("too long".into());
    }
    Ok(Payload::from_slice(alloc, bytes).ok().ok_or("memory")?)
}

/// Checks how a reply to line 20 is printed.
fn check_printed(rt: &(impl Abort + AllocGlobal), reply: &Reply, want: &str) -> Result<(), Fail> {
    let mut sink = MemSink::new(rt.alloc(), 1000, vec![in rt.alloc()]?)
        .ok()
        .ok_or("memory")?;
    same(rt, print_reply(&mut sink, 20, reply), Ok(()));
    let want = format!(in rt.alloc(); "20 {want}\n")?;
    same(rt, sink.written(), want.as_str().as_bytes());
    Ok(())
}

#[test]
fn a_reply_is_printed_behind_its_line_number(rt: HostRuntime) -> Result<(), Fail> {
    for (reply, want) in [
        (Reply::Begun { tid: 1, read: 0 }, "begun 1 0"),
        (Reply::TxnOpen, "txn-open"),
        (Reply::NoTxn, "no-txn"),
        (Reply::Spent, "spent"),
        (Reply::NoMemory, "no-memory"),
        (Reply::Vertex { v: u64::MAX }, "vertex 18446744073709551615"),
        (Reply::SetDone, "set"),
        (Reply::Lacking, "none"),
        (Reply::Dropped, "dropped"),
        (Reply::Added, "new"),
        (Reply::Replaced, "replaced"),
        (Reply::Gone, "gone"),
        (Reply::Absent, "absent"),
        (Reply::NoVertex, "no-vertex"),
        (Reply::Held { v: 3, tid: 4 }, "held 3 4"),
        (Reply::Conflict { v: 5, epoch: 6 }, "conflict 5 6"),
        (Reply::TxnFull, "txn-full"),
        (Reply::LogFull, "log-full"),
        (Reply::Committed { epoch: 10 }, "committed 10"),
        (Reply::Ended, "ended"),
        (
            Reply::LogFault {
                before: 1,
                after: 2,
            },
            "log-fault",
        ),
        (Reply::Aborted, "aborted"),
        (Reply::Compacted, "compacted"),
    ] {
        check_printed(&rt, &reply, want)?;
    }
    Ok(())
}

#[test]
fn a_payload_is_printed_by_its_digits_or_a_dash(rt: HostRuntime) -> Result<(), Fail> {
    let bytes = with_digits(rt.alloc(), "", b'a', 65)?;
    let p = payload(rt.alloc(), bytes.as_slice())?;
    let want =
        "value 6161616161616161616161616161616161616161616161616161616161616161616161616161616161616161616161616161616161616161616161616161616161";
    check_printed(&rt, &Reply::Value { p }, want)?;
    let p = payload(rt.alloc(), b"")?;
    check_printed(&rt, &Reply::Edge { p }, "edge -")
}

#[test]
fn lists_are_printed_behind_their_count(rt: HostRuntime) -> Result<(), Fail> {
    let mut pairs = Pairs::new(rt.alloc());
    for (d, bytes) in [(7, b"".as_slice()), (9, b"\xff")] {
        let p = payload(rt.alloc(), bytes)?;
        pairs.push(Pair { d, p }).ok().ok_or("memory")?;
    }
    check_printed(&rt, &Reply::Edges { pairs }, "edges 2 7:- 9:ff")?;
    let labels = Labels::from_vec(vec![in rt.alloc(); 0, 65_535]?);
    check_printed(&rt, &Reply::Labels { labels }, "labels 2 0 65535")
}

#[test]
fn replies_are_numbered_from_one_and_a_fault_ends_them(rt: HostRuntime) -> Result<(), Fail> {
    // The room of the sink, and how many bytes it has after.
    for (room, kept) in [(1000, 27), (27, 27), (26, 26), (9, 9), (0, 0)] {
        let replies = vec![in rt.alloc(); Reply::NoTxn, Reply::Added, Reply::Vertex { v: 10 }]?;
        let replies = Replies::from_vec(replies);
        let mut sink = MemSink::new(rt.alloc(), room, vec![in rt.alloc()]?)
            .ok()
            .ok_or("memory")?;
        let mut outlet = OutBuffer::new(rt.alloc(), 4).ok().ok_or("memory")?;
        let printed = print_replies(&mut outlet, &mut sink, &replies);
        let flushed = outlet.flush(&mut sink);
        same_in(&rt, printed.is_ok() && flushed.is_ok(), room >= 27, room);
        same_in(
            &rt,
            sink.written(),
            &b"1 no-txn\n2 new\n3 vertex 10\n"[..kept],
            room,
        );
    }
    Ok(())
}

#[test]
fn a_refusal_has_a_number(rt: HostRuntime) {
    same(&rt, TextRefusal::BadLine { line: 1, column: 2 }.number(), 1);
    same(&rt, TextRefusal::NoMemory.number(), 2);
}
