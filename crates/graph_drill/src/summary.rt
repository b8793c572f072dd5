//! Printing the summary of a drill.

ghost use Rattle.std.specs.Prelude.{◌≡◌, ◌<◌, ◌^◌, ◌++◌, [], OnOk, OnErr, decimal};
ghost use Rattle.std.specs.Io.KnownBytes.{append_known};
ghost use Rattle.io_edges.specs.Faults.{NeverFalls, Rose};
ghost use Rattle.io_edges.specs.Writes.{Appended, AppendedPart};
ghost use Rattle.request_text.specs.Printing.{Puts, outflow};
ghost use Rattle.graph_dump.specs.DumpText.{edge_count};
ghost use Rattle.graph_drill.specs.Summary.{count_words, summary_line, summary_text};

use crate::totals::{Totals, totals_of};
use graph_model::Graph;
use io_edges::{Direct, Outlet, Sink, WriteFault};

/// Prints how many vertices and edges a graph has, the sum of the destinations of all edges, and the number of commits.
///
/// `WriteFault`: the sink's count of faults rose, and the sink has a prefix of the text. Time: one step for each edge,
/// and a logarithmic one for each vertex and label. It takes no memory.
pub fn drill_text<K: Sink>(g: &Graph, commits: u64, sink: &mut K) -> Result<(), WriteFault>
    requires few { edge_count g.now < 2 ^ 64 }
    ensures printed { OnOk result (Appended (K.written sink.old) (K.written sink.new) (summary_text g.now commits)) }
    ensures write_fault { OnErr result (Rose (K.faults sink.old) (K.faults sink.new)) }
    ensures part { AppendedPart (K.written sink.old) (K.written sink.new) (summary_text g.now commits) }
    ensures count { NeverFalls (K.faults sink.old) (K.faults sink.new) }
{
    drill_text_through(&mut Direct, sink, g, commits)
}

/// Prints the same by way of an outlet, where the text may stay pending.
///
/// `WriteFault`: the sink's count of faults rose, the sink has a prefix of the pending bytes and the text,
/// and nothing is pending. Time: as `drill_text`. It takes no memory.
pub fn drill_text_through<O: Outlet, K: Sink>(
    outlet: &mut O,
    sink: &mut K,
    g: &Graph,
    commits: u64,
) -> Result<(), WriteFault>
    requires few { edge_count g.now < 2 ^ 64 }
    ensures printed { OnOk result (Appended (append_known (K.written sink.old) (O.pending outlet.old))
        (append_known (K.written sink.new) (O.pending outlet.new)) (summary_text g.now commits)) }
    ensures write_fault { OnErr result (Rose (K.faults sink.old) (K.faults sink.new)) }
    ensures part { AppendedPart (K.written sink.old) (K.written sink.new)
        (O.pending outlet.old ++ summary_text g.now commits) }
    ensures emptied { OnErr result (O.pending outlet.new ≡ []) }
    ensures count { NeverFalls (K.faults sink.old) (K.faults sink.new) }
{
    let Totals { edges, sum } = totals_of(g);
    put_summary(
        outlet,
        sink,
        g.len() as u128,
        u128::from(edges),
        sum,
        u128::from(commits),
    )
}

/// Puts the line of these numbers.
fn put_summary<O: Outlet, K: Sink>(
    outlet: &mut O,
    sink: &mut K,
    vertices: u128,
    edges: u128,
    sum: u128,
    commits: u128,
) -> Result<(), WriteFault>
    ensures { Puts (outflow (K.written sink.old) (O.pending outlet.old) (K.faults sink.old))
        (outflow (K.written sink.new) (O.pending outlet.new) (K.faults sink.new)) result
        (summary_line vertices edges sum commits) }
{
    put_count(outlet, sink, b"drill vertices", vertices)?;
    put_count(outlet, sink, b" edges", edges)?;
    put_count(outlet, sink, b" sum", sum)?;
    put_count(outlet, sink, b" commits", commits)?;
    outlet.put(sink, b"\n")
}

/// Puts a name and a number behind it.
fn put_count<O: Outlet, K: Sink>(
    outlet: &mut O,
    sink: &mut K,
    name: &[u8],
    n: u128,
) -> Result<(), WriteFault>
    ensures { Puts (outflow (K.written sink.old) (O.pending outlet.old) (K.faults sink.old))
        (outflow (K.written sink.new) (O.pending outlet.new) (K.faults sink.new)) result (count_words name.now n) }
{
    outlet.put(sink, name)?;
    outlet.put(sink, b" ")?;
    put_decimal(outlet, sink, n)
}

/// Puts the digits of a number.
fn put_decimal<O: Outlet, K: Sink>(outlet: &mut O, sink: &mut K, n: u128) -> Result<(), WriteFault>
    ensures { Puts (outflow (K.written sink.old) (O.pending outlet.old) (K.faults sink.old))
        (outflow (K.written sink.new) (O.pending outlet.new) (K.faults sink.new)) result (decimal n) }
{
    let mut buffer = itoa::Buffer::new();
    outlet.put(sink, buffer.format(n).as_bytes())
}
