//! Printing a graph: a walk over its vertices, labels and edges, each with a line.

ghost use Rattle.std.specs.Prelude.{◌≡◌, ◌<◌, ◌+◌, ◌^◌, ◌++◌, [], length, IsTrue, OnOk, OnErr, flat_map, unwrap_or};
ghost use Rattle.std.specs.Io.KnownBytes.{append_known};
ghost use Rattle.io_edges.specs.Faults.{NeverFalls, Rose};
ghost use Rattle.io_edges.specs.Writes.{Appended, AppendedPart};
ghost use Rattle.request_text.specs.Printing.{Puts, outflow};
ghost use Rattle.graph_model.specs.Graph.{vertex_at};
ghost use Rattle.graph_model.specs.Whole.{is_graph};
ghost use Rattle.graph_model.specs.Walking.{pairs_of};
ghost use Rattle.graph_dump.specs.DumpText.{edge_line, vertex_text, edge_count, text_of_graph};
ghost use Rattle.graph_dump.specs.PlaceText.{lists_at, lists_text, edges_in, place_text};

use crate::line::{put_line, put_payload_line};
use graph_model::Graph;
use io_edges::{Direct, Outlet, Sink, WriteFault};

/// Prints a graph and its epoch.
///
/// `WriteFault`: the sink's count of faults rose, and the sink has a prefix of the text.
/// Time: one step for each byte, and a logarithmic one for each vertex and label. It takes no memory.
pub fn dump_text<K: Sink>(g: &Graph, e: u64, sink: &mut K) -> Result<(), WriteFault>
    requires few { edge_count g.now < 2 ^ 64 }
    ensures printed { OnOk result (Appended (K.written sink.old) (K.written sink.new) (text_of_graph g.now e)) }
    ensures write_fault { OnErr result (Rose (K.faults sink.old) (K.faults sink.new)) }
    ensures part { AppendedPart (K.written sink.old) (K.written sink.new) (text_of_graph g.now e) }
    ensures count { NeverFalls (K.faults sink.old) (K.faults sink.new) }
{
    dump_text_through(&mut Direct, sink, g, e)
}

/// Prints a graph and its epoch by way of an outlet, where the text may stay pending.
///
/// `WriteFault`: the sink's count of faults rose, the sink has a prefix of the pending bytes and the text,
/// and nothing is pending. Time: one step for each byte, and a logarithmic one for each vertex and label. It
/// takes no memory.
pub fn dump_text_through<O: Outlet, K: Sink>(
    outlet: &mut O,
    sink: &mut K,
    g: &Graph,
    e: u64,
) -> Result<(), WriteFault>
    requires few { edge_count g.now < 2 ^ 64 }
    ensures printed { OnOk result (Appended (append_known (K.written sink.old) (O.pending outlet.old))
        (append_known (K.written sink.new) (O.pending outlet.new)) (text_of_graph g.now e)) }
    ensures write_fault { OnErr result (Rose (K.faults sink.old) (K.faults sink.new)) }
    ensures part { AppendedPart (K.written sink.old) (K.written sink.new)
        (O.pending outlet.old ++ text_of_graph g.now e) }
    ensures emptied { OnErr result (O.pending outlet.new ≡ []) }
    ensures count { NeverFalls (K.faults sink.old) (K.faults sink.new) }
{
    put_line(outlet, sink, b"epoch", &[e])?;
    let mut edges = 0;
    put_vertices(outlet, sink, g, &mut edges)?;
    put_line(outlet, sink, b"end", &[g.len() as u64, edges])
}

/// Puts all vertices with their edges, and counts these.
fn put_vertices<O: Outlet, K: Sink>(
    outlet: &mut O,
    sink: &mut K,
    g: &Graph,
    edges: &mut u64,
) -> Result<(), WriteFault>
    requires few { edges.old + edge_count g.now < 2 ^ 64 }
    ensures put { Puts (outflow (K.written sink.old) (O.pending outlet.old) (K.faults sink.old))
        (outflow (K.written sink.new) (O.pending outlet.new) (K.faults sink.new)) result (flat_map vertex_text g.now) }
    ensures counted { OnOk result (edges.new ≡ edges.old + edge_count g.now) }
{
    let mut next = g.next_vertex(0);
    while let Some(v) = next {
        put_vertex(outlet, sink, g, v, edges)?;
        next = g.vertex_after(v);
    }
    Ok(())
}

/// Puts a vertex with its edges, and counts these.
fn put_vertex<O: Outlet, K: Sink>(
    outlet: &mut O,
    sink: &mut K,
    g: &Graph,
    v: u64,
    edges: &mut u64,
) -> Result<(), WriteFault>
    requires whole { IsTrue (is_graph g.now) }
    requires few { edges.old + edges_in (lists_at (vertex_at v g.now)) < 2 ^ 64 }
    ensures put { Puts (outflow (K.written sink.old) (O.pending outlet.old) (K.faults sink.old))
        (outflow (K.written sink.new) (O.pending outlet.new) (K.faults sink.new)) result
        (place_text v (vertex_at v g.now)) }
    ensures counted { OnOk result (edges.new ≡ edges.old + edges_in (lists_at (vertex_at v g.now))) }
{
    let Some(payload) = g.payload(v) else {
        return Ok(());
    };
    put_payload_line(outlet, sink, b"vertex", &[v], payload)?;
    put_lists(outlet, sink, g, v, edges)
}

/// Puts the edges of a vertex, label by label, and counts them.
fn put_lists<O: Outlet, K: Sink>(
    outlet: &mut O,
    sink: &mut K,
    g: &Graph,
    v: u64,
    edges: &mut u64,
) -> Result<(), WriteFault>
    requires whole { IsTrue (is_graph g.now) }
    requires few { edges.old + edges_in (lists_at (vertex_at v g.now)) < 2 ^ 64 }
    ensures put { Puts (outflow (K.written sink.old) (O.pending outlet.old) (K.faults sink.old))
        (outflow (K.written sink.new) (O.pending outlet.new) (K.faults sink.new)) result
        (lists_text v (vertex_at v g.now)) }
    ensures counted { OnOk result (edges.new ≡ edges.old + edges_in (lists_at (vertex_at v g.now))) }
{
    let mut next = g.next_label(v, 0);
    while let Some(l) = next {
        put_edges(outlet, sink, g, v, l, edges)?;
        next = g.label_after(v, l);
    }
    Ok(())
}

/// Puts the edges of a vertex under a label, newest first, and counts them.
fn put_edges<O: Outlet, K: Sink>(
    outlet: &mut O,
    sink: &mut K,
    g: &Graph,
    v: u64,
    l: u16,
    edges: &mut u64,
) -> Result<(), WriteFault>
    requires few { edges.old + length (unwrap_or (pairs_of (vertex_at v g.now) l) []) < 2 ^ 64 }
    ensures put { Puts (outflow (K.written sink.old) (O.pending outlet.old) (K.faults sink.old))
        (outflow (K.written sink.new) (O.pending outlet.new) (K.faults sink.new)) result
        (flat_map (edge_line v l) (unwrap_or (pairs_of (vertex_at v g.now) l) [])) }
    ensures counted { OnOk result
        (edges.new ≡ edges.old + length (unwrap_or (pairs_of (vertex_at v g.now) l) [])) }
{
    let Some(list) = g.pairs(v, l) else {
        return Ok(());
    };
    for edge in list.edges() {
        put_payload_line(outlet, sink, b"edge", &[v, u64::from(l), edge.d], &edge.p)?;
        *edges += 1;
    }
    Ok(())
}
