//! The lines of a small drill, beside words that were computed elsewhere, and a printed summary.

ghost use Rattle.std.specs.Prelude.{◌≡◌, IfOk};
ghost use Rattle.graph_dump.specs.DumpText.{edge_count};

use graph_drill::{drill_scripts, drill_text};
use graph_model::{Change, Graph, Payload};
use io_edges::MemSink;
use request_text::{Line, Request};
use std::alloc::Global;
use std::test::Fail;

/// A line: its session, its name, and what it names of vertex, label and destination, with the word of its payload.
type Row = (u32, &'static str, u64, u16, u64, u64);

/// The line as a row; where it has no such value, 0.
fn row(line: &Line) -> Row {
    let s = line.session;
    match &line.request {
        Request::Begin => (s, "begin", 0, 0, 0, 0),
        Request::Vertex { p } => (s, "vertex", 0, 0, 0, word(p)),
        Request::Put { v, l, d, p } => (s, "put", *v, *l, *d, word(p)),
        Request::Del { v, l, d } => (s, "del", *v, *l, *d, 0),
        Request::Scan { v, l } => (s, "scan", *v, *l, 0, 0),
        Request::Commit => (s, "commit", 0, 0, 0, 0),
        _ => (s, "another", 0, 0, 0, 0),
    }
}

/// The word of a payload, the high byte first.
fn word(p: &Payload) -> u64 {
    let mut word = 0u64;
    for byte in p.as_slice() {
        word = word.wrapping_mul(256) | u64::from(*byte);
    }
    word
}

#[test]
fn the_first_script_makes_a_vertex_for_each_session(rt: HostRuntime) -> Result<(), Fail> {
    let (first, _) = drill_scripts(rt.alloc(), 7, 2, 10, 1)?;
    let rows = [
        (0, "begin", 0, 0, 0, 0),
        (0, "vertex", 0, 0, 0, 0),
        (0, "vertex", 0, 0, 0, 0),
        (0, "commit", 0, 0, 0, 0),
    ];
    assert_eq!(rt; first.len(), rows.len());
    for (line, wanted) in first.as_slice().iter().zip(rows) {
        assert_eq!(rt; row(line), wanted);
    }
    Ok(())
}

/// The words of SplitMix64 from 7 and from 8.
#[test]
fn each_session_draws_from_its_own_seed_round_by_round(rt: HostRuntime) -> Result<(), Fail> {
    let (_, second) = drill_scripts(rt.alloc(), 7, 2, 10, 1)?;
    let rows = [
        (0, (0, "begin", 0, 0, 0, 0)),
        (1, (0, "put", 1, 4, 1, 0x63cb_e1e4_5932_0dd7)),
        (2, (0, "commit", 0, 0, 0, 0)),
        (4, (1, "put", 2, 3, 1, 0x9e56_51b0_ef95_3636)),
        (7, (0, "put", 1, 1, 2, 0x044c_3cd7_f43c_661c)),
        (25, (0, "put", 1, 3, 5, 0x73d3_3b66_6a1e_21da)),
        (26, (0, "del", 1, 3, 3, 0)),
        (30, (1, "del", 2, 2, 3, 0)),
        (57, (0, "put", 1, 2, 10, 0x69c3_a276_8879_5369)),
        (58, (0, "del", 1, 3, 8, 0)),
        (59, (0, "scan", 1, 2, 0, 0)),
        (64, (1, "scan", 2, 1, 0, 0)),
        (65, (1, "commit", 0, 0, 0, 0)),
    ];
    assert_eq!(rt; second.len(), 66);
    for (at, wanted) in rows {
        let line = second.get(at).ok_or("a line that is missing")?;
        assert_eq!(rt; row(line), wanted);
    }
    Ok(())
}

/// Two edges of one vertex, to the greatest numbers of 64 bits.
fn two_far_edges(alloc: Global) -> Result<Graph, Fail>
    ensures { IfOk result (λ graph. edge_count graph ≡ 2) }
{
    let (none, old, new) = (empty(alloc)?, empty(alloc)?, empty(alloc)?);
    let mut graph = Graph::empty(alloc);
    graph.apply(&Change::New { v: 1, p: none })?;
    graph.apply(&Change::Put {
        v: 1,
        l: 5,
        d: u64::MAX,
        p: old,
    })?;
    graph.apply(&Change::Put {
        v: 1,
        l: 5,
        d: u64::MAX - 1,
        p: new,
    })?;
    Ok(graph)
}

/// The payload without bytes.
fn empty(alloc: Global) -> Result<Payload, Fail> {
    Ok(Payload::from_slice(alloc, b"")?)
}

#[test]
fn the_sum_of_the_destinations_may_pass_64_bits(rt: HostRuntime) -> Result<(), Fail> {
    let alloc = rt.alloc();
    let mut sink = MemSink::new(alloc, 100, Vec::new(alloc))?;
    drill_text(&two_far_edges(alloc)?, 7, &mut sink)?;
    let text = b"drill vertices 1 edges 2 sum 36893488147419103229 commits 7\n";
    assert_eq!(rt; sink.written(), text.as_slice());
    Ok(())
}

#[test]
fn a_graph_without_vertices_sums_to_nothing(rt: HostRuntime) -> Result<(), Fail> {
    let alloc = rt.alloc();
    let mut sink = MemSink::new(alloc, 100, Vec::new(alloc))?;
    drill_text(&Graph::empty(alloc), 0, &mut sink)?;
    let text = b"drill vertices 0 edges 0 sum 0 commits 0\n";
    assert_eq!(rt; sink.written(), text.as_slice());
    Ok(())
}
