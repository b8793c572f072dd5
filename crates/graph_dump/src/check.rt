//! Printing how far a log goes.

ghost use Rattle.std.specs.Prelude.{◌≡◌, ◌≤◌, ◌++◌, [], OnOk, OnErr};
ghost use Rattle.std.specs.Io.KnownBytes.{append_known};
ghost use Rattle.io_edges.specs.Faults.{NeverFalls, Rose};
ghost use Rattle.io_edges.specs.Writes.{Appended, AppendedPart};
ghost use Rattle.graph_dump.specs.CheckText.{text_of_log};

use crate::line::{put_line, put_named};
use graph_recover::Recovered;
use io_edges::{Direct, Outlet, Sink, WriteFault};

/// Prints the format, the last epoch, the number of records, the durable length in bytes, and the number of
/// bytes behind it.
///
/// `WriteFault`: the sink's count of faults rose, and the sink has a prefix of the text. It takes no memory.
pub fn check_text<K: Sink>(r: &Recovered, sink: &mut K) -> Result<(), WriteFault>
    requires durable { r.now.durable ≤ r.now.length }
    ensures printed { OnOk result (Appended (K.written sink.old) (K.written sink.new) (text_of_log r.now)) }
    ensures write_fault { OnErr result (Rose (K.faults sink.old) (K.faults sink.new)) }
    ensures part { AppendedPart (K.written sink.old) (K.written sink.new) (text_of_log r.now) }
    ensures count { NeverFalls (K.faults sink.old) (K.faults sink.new) }
{
    check_text_through(&mut Direct, sink, r)
}

/// Prints the same by way of an outlet, where the text may stay pending.
///
/// `WriteFault`: the sink's count of faults rose, the sink has a prefix of the pending bytes and the text,
/// and nothing is pending. It takes no memory.
pub fn check_text_through<O: Outlet, K: Sink>(
    outlet: &mut O,
    sink: &mut K,
    r: &Recovered,
) -> Result<(), WriteFault>
    requires durable { r.now.durable ≤ r.now.length }
    ensures printed { OnOk result (Appended (append_known (K.written sink.old) (O.pending outlet.old))
        (append_known (K.written sink.new) (O.pending outlet.new)) (text_of_log r.now)) }
    ensures write_fault { OnErr result (Rose (K.faults sink.old) (K.faults sink.new)) }
    ensures part { AppendedPart (K.written sink.old) (K.written sink.new)
        (O.pending outlet.old ++ text_of_log r.now) }
    ensures emptied { OnErr result (O.pending outlet.new ≡ []) }
    ensures count { NeverFalls (K.faults sink.old) (K.faults sink.new) }
{
    put_named(outlet, sink, b"format 1 epoch", &[r.base.epoch])?;
    put_named(outlet, sink, b" records", &[r.records.len() as u64])?;
    put_named(outlet, sink, b" durable", &[r.durable])?;
    put_line(outlet, sink, b" rest", &[r.length - r.durable])
}
