//! Whole runs over a plain graph with ample memory: what no clause says is that the calls succeed.

use crate::asserts::{holds, same, same_in};
use graph_model::{
    Answer, Bytes, Change, Changes, Graph, Pair, Pairs, Payload, Query, Record, Records,
};
use std::alloc::Global;
use std::fmt::Write;
use std::test::Fail;

// A change as a row: what it does, its vertex, its destination and its payload. The label is 5.
type Row = (char, u64, u64, &'static str);

fn change_of(alloc: Global, row: &Row) -> Result<Change, Fail> {
    let (what, v, d, text) = *row;
    if text.len() > Payload::MOST {
        return Err(Fail::from("a long payload"));
    }
    let p = Payload::from_slice(alloc, text.as_bytes())?;
    match what {
        'n' => Ok(Change::New { v, p }),
        's' => Ok(Change::Set { v, p }),
        'p' => Ok(Change::Put { v, l: 5, d, p }),
        'd' => Ok(Change::Del { v, l: 5, d }),
        _ => Ok(Change::Drop { v }),
    }
}

fn changes_of(alloc: Global, rows: &[Row]) -> Result<Changes, Fail> {
    let mut changes = Changes::new(alloc);
    for row in rows {
        changes.push(change_of(alloc, row)?)?;
    }
    Ok(changes)
}

fn write_hex(text: &mut String, p: &Payload) -> Result<(), Fail> {
    if p.is_empty() {
        write!(text, "-")?;
    }
    for byte in p.as_slice() {
        write!(text, "{byte:02x}")?;
    }
    Ok(())
}

fn write_pairs(text: &mut String, pairs: &Pairs) -> Result<(), Fail> {
    for i in 0..pairs.len() {
        if let Some(pair) = pairs.get(i) {
            let d = pair.d;
            write!(text, " {d}:")?;
            write_hex(text, &pair.p)?;
        }
    }
    Ok(())
}

// What a query sees, as a line: edges as d:payload, labels as l:.
fn seen(alloc: Global, graph: &Graph, own: &Changes, q: &Query) -> Result<String, Fail> {
    let mut text = String::new(alloc);
    match graph.see(own, q)? {
        Answer::NoVertex => write!(text, "no vertex")?,
        Answer::Absent => write!(text, "absent")?,
        Answer::Value(p) => write_hex(&mut text, &p)?,
        Answer::Edges(pairs) => write_pairs(&mut text, &pairs)?,
        Answer::Named(labels) => {
            for label in labels.as_slice() {
                write!(text, " {label}:")?;
            }
        }
    }
    Ok(text)
}

const SCAN: Query = Query::Scan { v: 1, l: 5 };

#[test]
fn a_graph_takes_what_fits_and_shows_the_newest_edge_first(rt: HostRuntime) -> Result<(), Fail> {
    let alloc = rt.alloc();
    let mut graph = Graph::empty(alloc);
    let none = Changes::new(alloc);
    let steps: [(Row, bool, &str); 10] = [
        (('n', 1, 0, "a"), true, ""),
        (('n', 1, 0, "a"), false, ""),
        (('s', 2, 0, "b"), false, ""),
        (('p', 1, 9, "k"), true, " 9:6b"),
        (('p', 1, 7, ""), true, " 7:- 9:6b"),
        (('p', 1, 9, "z"), true, " 9:7a 7:-"),
        (('d', 1, 8, ""), true, " 9:7a 7:-"),
        (('d', 1, 9, ""), true, " 7:-"),
        (('x', 1, 0, ""), true, "no vertex"),
        (('n', 1, 0, "a"), true, ""),
    ];
    for (i, (row, fits, scan)) in steps.iter().enumerate() {
        let answer = graph.apply(&change_of(alloc, row)?);
        same_in(&rt, answer.is_ok(), *fits, i);
        let line = seen(alloc, &graph, &none, &SCAN)?;
        same_in(&rt, line.as_str(), *scan, i);
    }
    Ok(())
}

#[test]
fn a_query_sees_a_snapshot_after_own_changes(rt: HostRuntime) -> Result<(), Fail> {
    let alloc = rt.alloc();
    let changes = changes_of(
        alloc,
        &[('n', 1, 0, "a"), ('p', 1, 9, "k"), ('p', 1, 7, "")],
    )?;
    let mut records = Records::new(alloc);
    records.push(Record {
        tid: 1,
        read: 0,
        epoch: 1,
        changes,
    })?;
    let own = changes_of(alloc, &[('n', 2, 0, "b"), ('p', 2, 3, "")])?;
    let rows = [
        (0, SCAN, "no vertex"),
        (1, SCAN, " 7:- 9:6b"),
        (1, Query::Edge { v: 1, l: 5, d: 9 }, "6b"),
        (1, Query::Edge { v: 1, l: 5, d: 8 }, "absent"),
        (1, Query::Labels { v: 1 }, " 5:"),
        (1, Query::Vertex { v: 2 }, "62"),
        (1, Query::Scan { v: 2, l: 5 }, " 3:-"),
        (1, Query::Scan { v: 3, l: 5 }, "no vertex"),
    ];
    for (e, q, want) in &rows {
        let graph = Graph::at(alloc, &Graph::empty(alloc), &records, *e)?;
        let line = seen(alloc, &graph, &own, q)?;
        same(&rt, line.as_str(), *want);
    }
    Ok(())
}

#[test]
fn a_hub_keeps_each_of_its_edges_once(rt: HostRuntime) -> Result<(), Fail> {
    let alloc = rt.alloc();
    let mut graph = Graph::empty(alloc);
    graph.apply(&change_of(alloc, &('n', 1, 0, ""))?)?;
    for i in 0..10_000 {
        graph.apply(&change_of(alloc, &('p', 1, i % 3000, ""))?)?;
    }
    let copy = graph.copy()?;
    let Answer::Edges(pairs) = copy.answer(&SCAN)? else {
        return Err(Fail::from("no edges"));
    };
    same(&rt, pairs.len(), 3000);
    same(&rt, graph.list_size(1, 5), 3000 * 28);
    for (i, d) in [(0, 999), (999, 0), (1000, 2999), (2999, 1000)] {
        same_in(&rt, pairs.get(i).map(|pair| pair.d), Some(d), i);
    }
    Ok(())
}

#[test]
fn a_long_list_and_its_copy_change_apart(rt: HostRuntime) -> Result<(), Fail> {
    let alloc = rt.alloc();
    let mut graph = Graph::empty(alloc);
    graph.apply(&change_of(alloc, &('n', 1, 0, ""))?)?;
    for d in 0..100 {
        graph.apply(&change_of(alloc, &('p', 1, d, ""))?)?;
    }
    let mut copy = graph.copy()?;
    // The edge, the number of edges after its change, and the newest of them.
    let steps: [(Row, usize, u64); 7] = [
        (('p', 1, 200, "in front"), 101, 200),
        (('p', 1, 201, "in front"), 102, 201),
        (('d', 1, 201, ""), 101, 200),
        (('d', 1, 300, ""), 101, 200),
        (('p', 1, 50, "replaces"), 101, 50),
        (('d', 1, 60, ""), 100, 50),
        (('p', 1, 202, "of its own"), 101, 202),
    ];
    for (i, (row, len, newest)) in steps.iter().enumerate() {
        graph.apply(&change_of(alloc, row)?)?;
        let Answer::Edges(pairs) = graph.answer(&SCAN)? else {
            return Err(Fail::from("no edges"));
        };
        same_in(&rt, pairs.len(), *len, i);
        same_in(&rt, pairs.get(0).map(|pair| pair.d), Some(*newest), i);
    }
    copy.apply(&change_of(alloc, &('d', 1, 99, ""))?)?;
    let Answer::Edges(pairs) = copy.answer(&SCAN)? else {
        return Err(Fail::from("no edges"));
    };
    same(&rt, pairs.len(), 99);
    same(&rt, pairs.get(0).map(|pair| pair.d), Some(98));
    holds(&rt, copy.has_edge(1, 5, 60) && !copy.has_edge(1, 5, 200));
    Ok(())
}

#[test]
fn a_walk_finds_what_stands_next(rt: HostRuntime) -> Result<(), Fail> {
    let alloc = rt.alloc();
    let mut graph = Graph::empty(alloc);
    for row in &[
        ('n', 3, 0, "ab"),
        ('p', 3, 9, "k"),
        ('p', 3, 7, ""),
        ('d', 3, 9, ""),
        ('p', 3, 8, ""),
    ] {
        graph.apply(&change_of(alloc, row)?)?;
    }
    same(
        &rt,
        (graph.next_vertex(0), graph.next_vertex(4)),
        (Some(3), None),
    );
    same(&rt, graph.payload(3).map(|p| p.len()), Some(2));
    holds(&rt, graph.payload(2).is_none());
    same(
        &rt,
        (graph.next_label(3, 0), graph.next_label(3, 6)),
        (Some(5), None),
    );
    holds(&rt, graph.pairs(3, 6).is_none());
    let Some(list) = graph.pairs(3, 5) else {
        return Err(Fail::from("no edges"));
    };
    let mut edges = list.edges();
    for d in [8, 7] {
        same(&rt, edges.next().map(|pair| pair.d), Some(d));
    }
    holds(&rt, edges.next().is_none());
    Ok(())
}

#[test]
fn a_list_of_edges_grows_at_its_end(rt: HostRuntime) -> Result<(), Fail> {
    let alloc = rt.alloc();
    let mut pairs = Pairs::new(alloc);
    let p = Payload::from_slice(alloc, b"k")?;
    pairs.push(Pair { d: 1, p })?;
    same(&rt, pairs.len(), 1);
    Ok(())
}

#[test]
fn bytes_are_appended_and_cut_off(rt: HostRuntime) -> Result<(), Fail> {
    let mut bytes = Bytes::new(rt.alloc());
    bytes.extend_from_slice(b"group")?;
    bytes.truncate(2);
    same(&rt, bytes.as_slice(), b"gr".as_slice());
    Ok(())
}
