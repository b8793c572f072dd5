//! The printed texts of graphs and of a log.

ghost use Rattle.std.specs.Prelude.{◌≡◌, IfOk};
ghost use Rattle.graph_dump.specs.DumpText.{edge_count};

use graph_dump::{check_text, dump_text};
use graph_model::{Base, Change, Graph, Payload, Records};
use graph_recover::Recovered;
use io_edges::MemSink;
use std::alloc::Global;
use std::test::Fail;

fn payload(alloc: Global, bytes: &[u8]) -> Result<Payload, Fail> {
    if bytes.len() > Payload::MOST {
        return Err(Fail::from("a long payload"));
    }
    Ok(Payload::from_slice(alloc, bytes)?)
}

fn two_edges(alloc: Global) -> Result<Graph, Fail>
    ensures { IfOk result (λ graph. edge_count graph ≡ 2) }
{
    let (old, new) = (payload(alloc, b"\xff")?, payload(alloc, b"")?);
    let mut graph = Graph::empty(alloc);
    graph.apply(&Change::New {
        v: 1,
        p: payload(alloc, b"a")?,
    })?;
    graph.apply(&Change::Put {
        v: 1,
        l: 5,
        d: 9,
        p: old,
    })?;
    graph.apply(&Change::Put {
        v: 1,
        l: 5,
        d: 7,
        p: new,
    })?;
    Ok(graph)
}

#[test]
fn a_graph_without_vertices_has_two_lines(rt: HostRuntime) -> Result<(), Fail> {
    let alloc = rt.alloc();
    let mut sink = MemSink::new(alloc, 100, Vec::new(alloc))?;
    dump_text(&Graph::empty(alloc), 0, &mut sink)?;
    assert_eq!(rt; sink.written(), b"epoch 0\nend 0 0\n".as_slice());
    Ok(())
}

#[test]
fn the_newest_edge_is_printed_first(rt: HostRuntime) -> Result<(), Fail> {
    let alloc = rt.alloc();
    let mut sink = MemSink::new(alloc, 100, Vec::new(alloc))?;
    dump_text(&two_edges(alloc)?, 1, &mut sink)?;
    let text = b"epoch 1\nvertex 1 61\nedge 1 5 7 -\nedge 1 5 9 ff\nend 1 2\n";
    assert_eq!(rt; sink.written(), text.as_slice());
    Ok(())
}

#[test]
fn the_bytes_behind_the_durable_length_are_counted(rt: HostRuntime) -> Result<(), Fail> {
    let alloc = rt.alloc();
    let log = Recovered {
        base: Base {
            graph: Graph::empty(alloc),
            epoch: 0,
            next_tid: 1,
            next_vertex: 1,
        },
        records: Records::new(alloc),
        durable: 9,
        length: 12,
    };
    let mut sink = MemSink::new(alloc, 100, Vec::new(alloc))?;
    check_text(&log, &mut sink)?;
    let text = b"format 1 epoch 0 records 0 durable 9 rest 3\n";
    assert_eq!(rt; sink.written(), text.as_slice());
    Ok(())
}
