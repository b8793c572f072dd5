//! Putting a line to an outlet: a name, numbers, and perhaps a payload.

ghost use Rattle.std.specs.Prelude.{◌++◌};
ghost use Rattle.request_text.specs.Printing.{Puts, outflow};
ghost use Rattle.graph_dump.specs.Lines.{named, line, payload_line};

use graph_model::Payload;
use io_edges::{Outlet, Sink, WriteFault};
use request_text::{put_numbers, put_payload_word};

/// Puts a name and numbers behind it, each as a word.
pub fn put_named<O: Outlet, K: Sink>(
    outlet: &mut O,
    sink: &mut K,
    name: &[u8],
    numbers: &[u64],
) -> Result<(), WriteFault>
    ensures { Puts (outflow (K.written sink.old) (O.pending outlet.old) (K.faults sink.old))
        (outflow (K.written sink.new) (O.pending outlet.new) (K.faults sink.new)) result (named name.now numbers.now) }
{
    outlet.put(sink, name)?;
    put_numbers(outlet, sink, numbers)
}

/// Puts a line of a name and numbers.
pub fn put_line<O: Outlet, K: Sink>(
    outlet: &mut O,
    sink: &mut K,
    name: &[u8],
    numbers: &[u64],
) -> Result<(), WriteFault>
    ensures { Puts (outflow (K.written sink.old) (O.pending outlet.old) (K.faults sink.old))
        (outflow (K.written sink.new) (O.pending outlet.new) (K.faults sink.new)) result (line name.now numbers.now) }
{
    put_named(outlet, sink, name, numbers)?;
    outlet.put(sink, b"\n")
}

/// Puts a line of a name, numbers and a payload.
pub fn put_payload_line<O: Outlet, K: Sink>(
    outlet: &mut O,
    sink: &mut K,
    name: &[u8],
    numbers: &[u64],
    payload: &Payload,
) -> Result<(), WriteFault>
    ensures { Puts (outflow (K.written sink.old) (O.pending outlet.old) (K.faults sink.old))
        (outflow (K.written sink.new) (O.pending outlet.new) (K.faults sink.new)) result
        (payload_line name.now numbers.now payload.now) }
{
    put_named(outlet, sink, name, numbers)?;
    put_payload_word(outlet, sink, payload)?;
    outlet.put(sink, b"\n")
}
