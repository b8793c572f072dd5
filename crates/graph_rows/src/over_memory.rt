//! A command of the program over memory.

use crate::asserts::same_in;
use disk_model::{Disk, Fail as Failing, Kind, MemDisk};
use graph_cli::{Ended, Report, Status, Words, run_graph};
use io_edges::{FreeGate, MemSink, MemSource, Sink, Source};
use std::alloc::Global;
use std::process::Abort;
use std::sync::Wait;
use std::test::Fail;
use std::thread::Threads;

/// The room of the sink, in bytes: more than any of these commands writes.
const SINK_ROOM: usize = 1_000_000;

/// The room of a disk, in bytes, and how many calls it records.
const DISK_ROOM: usize = 40_000_000;

const DISK_CALLS: usize = 10_000;

/// The log without a group.
pub(crate) const EMPTY_LOG: &[u8] = b"TELLOG1\n\0";

/// The log of the first script.
pub(crate) const FIRST_LOG: &[u8] = b"TELLOG1\n\
    \x01\0\0\0\x57\
    \0\0\0\0\0\0\0\x01\0\0\0\x01\
    \0\0\0\0\0\0\0\x01\0\0\0\0\0\0\0\0\0\0\0\x03\
    \x01\0\0\0\0\0\0\0\x01\0\x01a\
    \x04\0\0\0\0\0\0\0\x01\0\x05\0\0\0\0\0\0\0\x09\0\x01\xff\
    \x04\0\0\0\0\0\0\0\x01\0\x05\0\0\0\0\0\0\0\x07\0\0\0";

/// The first script, and its replies.
pub(crate) const FIRST_SCRIPT: &str =
    "1 begin\n1 vertex 61\n1 put 1 5 9 ff\n1 put 1 5 7 -\n1 scan 1 5\n1 commit\n";

pub(crate) const FIRST_REPLIES: &str =
    "1 begun 1 0\n2 vertex 1\n3 new\n4 new\n5 edges 2 7:- 9:ff\n6 committed 1\n";

/// What a command shows: how it ended, what it wrote, what it reports, and the disk.
#[derive(Drop)]
pub struct Shown {
    pub status: Status,
    pub written: String,
    pub report: Report,
    pub disk: MemDisk,
}

/// Asserts how a command ended and what it wrote; `about` tells which command.
pub(crate) fn assert_shown<A: Abort>(
    rt: &A,
    shown: &Shown,
    status: Status,
    written: &str,
    about: &[&str],
) {
    same_in(rt, shown.status, status, about);
    same_in(rt, shown.written.as_str(), written, about);
}

/// Asserts which bytes a command left on its disk; `about` tells which command.
pub(crate) fn assert_left<A: Abort>(rt: &A, shown: &Shown, bytes: &[u8], about: &[&str]) {
    same_in(rt, shown.disk.bytes(), bytes, about);
}

/// The words of a command.
pub(crate) fn words(alloc: Global, texts: &[&str]) -> Result<Words, Fail> {
    let mut words = Words::new(alloc);
    for text in texts {
        words.push(text).ok().ok_or("memory")?;
    }
    Ok(words)
}

/// A source of this text, whose listed reads fail.
pub(crate) fn source(alloc: Global, text: &str, failing: &[u64]) -> Result<MemSource, Fail> {
    let bytes = text.as_bytes().to_vec(alloc)?;
    Ok(MemSource::new(bytes, failing.to_vec(alloc)?))
}

/// A disk with these bytes, whose listed calls fail.
pub(crate) fn disk(alloc: Global, bytes: &[u8], failing: &[(Kind, u64)]) -> Result<MemDisk, Fail> {
    let mut listed = Vec::new(alloc);
    for (kind, number) in failing {
        listed.push(Failing {
            kind: *kind,
            number: *number,
        })?;
    }
    let room = DISK_ROOM.max(bytes.len());
    let bytes = bytes.to_vec(alloc)?;
    Ok(
        MemDisk::new(alloc, bytes, DISK_CALLS, room, listed)
            .ok()
            .ok_or("memory")?,
    )
}

// What a command comes to on a disk of which nobody says what a crash at entry would leave.
fn carried_out<S: Source, K: Sink, D: Disk + Send + Sync, R: Threads + Wait + Sync>(
    rt: &R,
    alloc: Global,
    words: &Words,
    source: &mut S,
    sink: &mut K,
    disk: D,
) -> Ended<D> {
    run_graph(rt, alloc, words, source, sink, disk, &FreeGate)
}

/// What a command shows of a source and a disk, over a sink whose listed writes fail.
pub(crate) fn command<S: Source, R: Threads + Wait + Sync>(
    rt: &R,
    alloc: Global,
    texts: &[&str],
    source: &mut S,
    failing: &[u64],
    disk: MemDisk,
) -> Result<Shown, Fail> {
    let words = words(alloc, texts)?;
    let mut sink = MemSink::new(alloc, SINK_ROOM, failing.to_vec(alloc)?)
        .ok()
        .ok_or("memory")?;
    let ended = carried_out(rt, alloc, &words, source, &mut sink, disk);
    let written = String::from_str(alloc, str::from_utf8(sink.written())?)?;
    Ok(Shown {
        status: ended.status,
        written,
        report: ended.report,
        disk: ended.disk,
    })
}

/// What a command without a script shows of a disk.
pub(crate) fn asked<R: Threads + Wait + Sync>(
    rt: &R,
    alloc: Global,
    texts: &[&str],
    disk: MemDisk,
) -> Result<Shown, Fail> {
    command(rt, alloc, texts, &mut source(alloc, "", &[])?, &[], disk)
}

/// What `run` shows of a source on the log that `init` makes, over a sink whose listed writes fail.
pub(crate) fn run_from<S: Source, R: Threads + Wait + Sync>(
    rt: &R,
    alloc: Global,
    source: &mut S,
    failing: &[u64],
) -> Result<Shown, Fail> {
    let made = asked(rt, alloc, &["init"], disk(alloc, b"", &[])?)?;
    command(rt, alloc, &["run"], source, failing, made.disk)
}

/// What `run` shows of a script on the log that `init` makes.
pub(crate) fn run<R: Threads + Wait + Sync>(
    rt: &R,
    alloc: Global,
    script: &str,
) -> Result<Shown, Fail> {
    run_from(rt, alloc, &mut source(alloc, script, &[])?, &[])
}

/// What `run` by so many workers shows of a script on the log that `init` makes.
pub(crate) fn run_by<R: Threads + Wait + Sync>(
    rt: &R,
    alloc: Global,
    workers: &str,
    script: &str,
) -> Result<Shown, Fail> {
    let made = asked(rt, alloc, &["init"], disk(alloc, b"", &[])?)?;
    let texts = ["run", "--workers", workers, "--shards=3"];
    command(
        rt,
        alloc,
        &texts,
        &mut source(alloc, script, &[])?,
        &[],
        made.disk,
    )
}

/// What `run` shows of a script on a disk.
pub(crate) fn run_on<R: Threads + Wait + Sync>(
    rt: &R,
    alloc: Global,
    script: &str,
    disk: MemDisk,
) -> Result<Shown, Fail> {
    command(
        rt,
        alloc,
        &["run"],
        &mut source(alloc, script, &[])?,
        &[],
        disk,
    )
}
