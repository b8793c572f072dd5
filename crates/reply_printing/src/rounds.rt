//! One round: parts that are spelled side by side, and written in order.

ghost use Rattle.std.specs.Prelude.{◌≡◌, ◌+◌, ◌^◌, ◌<◌, ◌≤◌, IfSome, length};
ghost use Rattle.request_text.specs.ReplyText.{replies_text_from};
ghost use Rattle.request_text.specs.Printing.{Puts, outflow};
ghost use Rattle.reply_printing.specs.Parts.{part_at};

use crate::parts::some_from;
use crate::spelling::spelled;
use io_edges::{MemSink, OutBuffer, Outlet, Sink, WriteFault};
use request_text::{Reply, put_replies};
use std::alloc::Global;
use std::thread::{Threads, map_chunks};

/// How many replies a thread spells in a round.
pub(crate) const PART: usize = 1 << 15;

/// Puts the part of a round that begins at this place, where the first reply of the round is that to the line of this
/// number: its text, where it is spelled.
fn put_part<K: Sink>(
    buffer: &mut OutBuffer,
    sink: &mut K,
    first: u64,
    round: &[Reply],
    at: usize,
    text: &Option<MemSink>,
) -> Result<(), WriteFault>
    requires numbers { first + length round.now ≤ 2 ^ 64 }
    requires inside { at < length round.now }
    requires text { IfSome text.now (λ text. text.written ≡ replies_text_from (first + at) (part_at at round.now)) }
    ensures { Puts (outflow (K.written sink.old) buffer.old.pending (K.faults sink.old))
        (outflow (K.written sink.new) buffer.new.pending (K.faults sink.new)) result
        (replies_text_from (first + at) (part_at at round.now)) }
{
    match text {
        Some(text) => buffer.put(sink, text.written()),
        None => put_replies(buffer, sink, first + at as u64, some_from(round, at, PART)),
    }
}

/// Puts the replies to the lines from this number on, of which each thread spells a part. A thread that cannot be made
/// leaves its part to another.
///
/// `WriteFault`: the sink's count of faults rose, the sink has a prefix of the pending bytes and the text, and nothing is
/// pending.
pub(crate) fn put_round<K: Sink, R: Threads + Sync>(
    rt: &R,
    alloc: Global,
    buffer: &mut OutBuffer,
    sink: &mut K,
    first: u64,
    replies: &[Reply],
) -> Result<(), WriteFault>
    requires numbers { first + length replies.now ≤ 2 ^ 64 }
    ensures { Puts (outflow (K.written sink.old) buffer.old.pending (K.faults sink.old))
        (outflow (K.written sink.new) buffer.new.pending (K.faults sink.new)) result
        (replies_text_from first replies.now) }
{
    let spell = |from: usize, part: &[Reply]| -> Option<MemSink>
        requires { (0 < length part.now) × (first + from + length part.now ≤ 2 ^ 64) }
        ensures { IfSome result (λ text. text.written ≡ replies_text_from (first + from) part.entry.now) }
    { spelled(alloc, first + from as u64, part) };
    let Ok(texts) = map_chunks(rt, alloc, replies, PART, &spell) else {
        return put_replies(buffer, sink, first, replies);
    };
    for (i, text) in texts.iter().enumerate() {
        put_part(buffer, sink, first, replies, i * PART, text)?;
    }
    Ok(())
}
