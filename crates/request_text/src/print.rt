//! Printing replies: a line for each, with the number of the line that it answers and the reply's words.

ghost use Rattle.std.specs.Prelude.{◌≡◌, ◌+◌, ◌++◌, ◌^◌, ◌≤◌, [], OnOk, OnErr, length};
ghost use Rattle.std.specs.Io.KnownBytes.{append_known};
ghost use Rattle.io_edges.specs.Faults.{NeverFalls, Rose};
ghost use Rattle.io_edges.specs.Writes.{Appended, AppendedPart};
ghost use Rattle.request_text.specs.Scripts.{word};
ghost use Rattle.request_text.specs.ReplyText.{reply_text, replies_text, replies_text_from, reply_name, other_words};
ghost use Rattle.request_text.specs.Printing.{Puts, outflow};

use crate::put::{put_decimal, put_labels, put_number, put_numbers, put_pairs, put_payload_word};
use crate::reply::{Replies, Reply};
use io_edges::{Direct, Outlet, Sink, WriteFault};

/// Prints the reply to a line of this number.
///
/// `WriteFault`: the sink's count of faults rose, and the sink has a prefix of the text.
/// Time: one step for each byte. It takes no memory.
pub fn print_reply<K: Sink>(sink: &mut K, line: u64, r: &Reply) -> Result<(), WriteFault>
    ensures printed { OnOk result (Appended (K.written sink.old) (K.written sink.new) (reply_text line r.now)) }
    ensures write_fault { OnErr result (Rose (K.faults sink.old) (K.faults sink.new)) }
    ensures part { AppendedPart (K.written sink.old) (K.written sink.new) (reply_text line r.now) }
    ensures count { NeverFalls (K.faults sink.old) (K.faults sink.new) }
{
    print_reply_through(&mut Direct, sink, line, r)
}

/// Prints the reply to a line of this number by way of an outlet, where it may stay pending.
///
/// `WriteFault`: the sink's count of faults rose, the sink has a prefix of the pending bytes and the text,
/// and nothing is pending. Time: one step for each byte. It takes no memory.
pub fn print_reply_through<O: Outlet, K: Sink>(
    outlet: &mut O,
    sink: &mut K,
    line: u64,
    r: &Reply,
) -> Result<(), WriteFault>
    ensures printed { OnOk result (Appended (append_known (K.written sink.old) (O.pending outlet.old))
        (append_known (K.written sink.new) (O.pending outlet.new)) (reply_text line r.now)) }
    ensures write_fault { OnErr result (Rose (K.faults sink.old) (K.faults sink.new)) }
    ensures part { AppendedPart (K.written sink.old) (K.written sink.new)
        (O.pending outlet.old ++ reply_text line r.now) }
    ensures emptied { OnErr result (O.pending outlet.new ≡ []) }
    ensures count { NeverFalls (K.faults sink.old) (K.faults sink.new) }
{
    put_decimal(outlet, sink, line)?;
    outlet.put(sink, name_word(r))?;
    put_other_words(outlet, sink, r)?;
    outlet.put(sink, b"\n")
}

/// Prints the replies to the lines of a script, numbered from 1, by way of an outlet.
///
/// `WriteFault`: the sink's count of faults rose, the sink has a prefix of the pending bytes and the text,
/// and nothing is pending. Time: one step for each byte. It takes no memory.
pub fn print_replies<O: Outlet, K: Sink>(
    outlet: &mut O,
    sink: &mut K,
    replies: &Replies,
) -> Result<(), WriteFault>
    ensures printed { OnOk result (Appended (append_known (K.written sink.old) (O.pending outlet.old))
        (append_known (K.written sink.new) (O.pending outlet.new)) (replies_text replies.now)) }
    ensures write_fault { OnErr result (Rose (K.faults sink.old) (K.faults sink.new)) }
    ensures part { AppendedPart (K.written sink.old) (K.written sink.new)
        (O.pending outlet.old ++ replies_text replies.now) }
    ensures emptied { OnErr result (O.pending outlet.new ≡ []) }
    ensures count { NeverFalls (K.faults sink.old) (K.faults sink.new) }
{
    put_replies(outlet, sink, 1, replies.as_slice())
}

/// Puts the replies to the lines from this number on, as `print_replies` prints those of all lines.
///
/// `WriteFault`: the sink's count of faults rose, the sink has a prefix of the pending bytes and the text,
/// and nothing is pending. Time: one step for each byte. It takes no memory.
pub fn put_replies<O: Outlet, K: Sink>(
    outlet: &mut O,
    sink: &mut K,
    first: u64,
    replies: &[Reply],
) -> Result<(), WriteFault>
    requires numbers { first + length replies.now ≤ 2 ^ 64 }
    ensures { Puts (outflow (K.written sink.old) (O.pending outlet.old) (K.faults sink.old))
        (outflow (K.written sink.new) (O.pending outlet.new) (K.faults sink.new)) result
        (replies_text_from first replies.now) }
{
    for (i, reply) in replies.iter().enumerate() {
        print_reply_through(outlet, sink, first + i as u64, reply)?;
    }
    Ok(())
}

/// The name of a reply as a word, with a space before it.
fn name_word(r: &Reply) -> &'static [u8]
    ensures { result.now ≡ word (reply_name r.now) }
{
    match r {
        Reply::Begun { .. } => b" begun",
        Reply::TxnOpen => b" txn-open",
        Reply::NoTxn => b" no-txn",
        Reply::Spent => b" spent",
        Reply::NoMemory => b" no-memory",
        Reply::Vertex { .. } => b" vertex",
        Reply::SetDone => b" set",
        Reply::Value { .. } => b" value",
        Reply::Lacking => b" none",
        Reply::Dropped => b" dropped",
        Reply::Added => b" new",
        Reply::Replaced => b" replaced",
        Reply::Gone => b" gone",
        Reply::Absent => b" absent",
        Reply::Edge { .. } => b" edge",
        Reply::Edges { .. } => b" edges",
        Reply::Labels { .. } => b" labels",
        Reply::NoVertex => b" no-vertex",
        Reply::Held { .. } => b" held",
        Reply::Conflict { .. } => b" conflict",
        Reply::TxnFull => b" txn-full",
        Reply::LogFull => b" log-full",
        Reply::Committed { .. } => b" committed",
        Reply::Ended => b" ended",
        Reply::LogFault { .. } => b" log-fault",
        Reply::Aborted => b" aborted",
        Reply::Compacted => b" compacted",
    }
}

/// Puts the words of a reply behind its name.
fn put_other_words<O: Outlet, K: Sink>(
    outlet: &mut O,
    sink: &mut K,
    r: &Reply,
) -> Result<(), WriteFault>
    ensures { Puts (outflow (K.written sink.old) (O.pending outlet.old) (K.faults sink.old))
        (outflow (K.written sink.new) (O.pending outlet.new) (K.faults sink.new)) result (other_words r.now) }
{
    match r {
        Reply::Begun { tid, read } => put_numbers(outlet, sink, &[*tid, *read]),
        Reply::Vertex { v } => put_number(outlet, sink, *v),
        Reply::Held { v, tid } => put_numbers(outlet, sink, &[*v, *tid]),
        Reply::Conflict { v, epoch } => put_numbers(outlet, sink, &[*v, *epoch]),
        Reply::Committed { epoch } => put_number(outlet, sink, *epoch),
        Reply::Value { p } | Reply::Edge { p } => put_payload_word(outlet, sink, p),
        Reply::Edges { pairs } => put_pairs(outlet, sink, pairs),
        Reply::Labels { labels } => put_labels(outlet, sink, labels),
        _ => Ok(()),
    }
}
