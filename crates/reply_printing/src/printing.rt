//! All replies.

ghost use Rattle.std.specs.Prelude.{◌≡◌, ◌++◌, [], OnOk, OnErr};
ghost use Rattle.std.specs.Io.KnownBytes.{append_known};
ghost use Rattle.io_edges.specs.Faults.{NeverFalls, Rose};
ghost use Rattle.io_edges.specs.Writes.{Appended, AppendedPart};
ghost use Rattle.request_text.specs.ReplyText.{replies_text};
ghost use Rattle.request_text.specs.Printing.{Puts, outflow};

use crate::parts::some_from;
use crate::rounds::{PART, put_round};
use io_edges::{OutBuffer, Sink, WriteFault};
use request_text::{Replies, Reply, put_replies};
use std::alloc::Global;
use std::thread::Threads;

/// More threads do not spell side by side.
const THREADS_MOST: u32 = 8;

/// Puts all replies.
fn put_all<K: Sink, R: Threads + Sync>(
    rt: &R,
    alloc: Global,
    threads: u32,
    buffer: &mut OutBuffer,
    sink: &mut K,
    replies: &[Reply],
) -> Result<(), WriteFault>
    ensures { Puts (outflow (K.written sink.old) buffer.old.pending (K.faults sink.old))
        (outflow (K.written sink.new) buffer.new.pending (K.faults sink.new)) result (replies_text replies.now) }
{
    if threads < 2 || replies.len() <= PART {
        return put_replies(buffer, sink, 1, replies);
    }
    let most = threads.min(THREADS_MOST) as usize * PART;
    let mut at = 0;
    while at < replies.len() {
        let round = some_from(replies, at, most);
        put_round(rt, alloc, buffer, sink, at as u64 + 1, round)?;
        at += round.len();
    }
    Ok(())
}

/// Prints the replies to the lines of a script, numbered from 1, by way of a buffer. Where there are more than 32,768, so
/// many threads spell them, at most eight.
///
/// `WriteFault`: the sink's count of faults rose, the sink has a prefix of the pending bytes and the text, and nothing is
/// pending.
///
/// Time: one step for each byte, shared among the threads but for the writing. Memory: 1 MiB for each thread, where several
/// spell; where there is none, one thread spells.
pub fn print_side_by_side<K: Sink, R: Threads + Sync>(
    rt: &R,
    alloc: Global,
    threads: u32,
    buffer: &mut OutBuffer,
    sink: &mut K,
    replies: &Replies,
) -> Result<(), WriteFault>
    ensures printed { OnOk result (Appended (append_known (K.written sink.old) buffer.old.pending)
        (append_known (K.written sink.new) buffer.new.pending) (replies_text replies.now)) }
    ensures write_fault { OnErr result (Rose (K.faults sink.old) (K.faults sink.new)) }
    ensures part { AppendedPart (K.written sink.old) (K.written sink.new)
        (buffer.old.pending ++ replies_text replies.now) }
    ensures emptied { OnErr result (buffer.new.pending ≡ []) }
    ensures count { NeverFalls (K.faults sink.old) (K.faults sink.new) }
{
    put_all(rt, alloc, threads, buffer, sink, replies.as_slice())
}
