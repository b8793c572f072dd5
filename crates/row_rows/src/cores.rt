//! Rows with ample memory: what no clause says is that the calls succeed.

use crate::asserts::{holds, same};
use core_rows::CoreRow;
use graph_model::{Answer, Change, Graph, Pairs, Payload, Query};
use std::alloc::Global;
use std::fmt::Write;
use std::test::Fail;
use vertex_locks::Look;

const VERTEX: Query = Query::Vertex { v: 1 };

const EDGE: Query = Query::Edge { v: 1, l: 5, d: 9 };

const SCAN: Query = Query::Scan { v: 1, l: 5 };

const LABELS: Query = Query::Labels { v: 1 };

fn payload(alloc: Global, byte: u8) -> Result<Payload, Fail> {
    Ok(Payload::from_slice(alloc, &[byte])?)
}

fn write_pairs(text: &mut String, pairs: &Pairs) -> Result<(), Fail> {
    for i in 0..pairs.len() {
        if let Some(pair) = pairs.get(i) {
            let d = pair.d;
            let byte = pair.p.get(0).copied().unwrap_or(0);
            write!(text, "{d}:{byte} ")?;
        }
    }
    Ok(())
}

// What a transaction sees in the row, as a line.
fn seen(alloc: Global, row: &CoreRow, tid: u64, read: u64, q: &Query) -> Result<String, Fail> {
    let mut text = String::new(alloc);
    match row.read(alloc, tid, read, q)? {
        Answer::NoVertex => write!(text, "no vertex")?,
        Answer::Absent => write!(text, "absent")?,
        Answer::Value(p) => {
            let byte = p.get(0).copied().unwrap_or(0);
            write!(text, "{byte}")?;
        }
        Answer::Edges(pairs) => write_pairs(&mut text, &pairs)?,
        Answer::Named(labels) => {
            for label in labels.as_slice() {
                write!(text, "{label} ")?;
            }
        }
    }
    Ok(text)
}

// The row of a vertex with payload 1 and the edges 7:2 and 9:1 under label 5, opened at epoch 3.
fn opened(alloc: Global) -> Result<CoreRow, Fail> {
    let mut graph = Graph::empty(alloc);
    graph.apply(&Change::New {
        v: 1,
        p: payload(alloc, 1)?,
    })?;
    for d in [9u64, 7] {
        let p = payload(alloc, if d == 9 { 1 } else { 2 })?;
        graph.apply(&Change::Put { v: 1, l: 5, d, p })?;
    }
    // A graph is whole where a copy of it is.
    let graph = graph.copy()?;
    Ok(CoreRow::opened(alloc, &graph, 1, 3)?)
}

#[test]
fn an_opened_row_shows_its_vertex_and_is_free(rt: HostRuntime) -> Result<(), Fail> {
    let alloc = rt.alloc();
    let mut row = opened(alloc)?;
    holds(&rt, row.is_there(4, 3));
    holds(&rt, !row.is_there(4, 2));
    for (q, line) in [
        (VERTEX, "1"),
        (EDGE, "1"),
        (SCAN, "7:2 9:1 "),
        (LABELS, "5 "),
    ] {
        same(&rt, seen(alloc, &row, 4, 3, &q)?.as_str(), line);
        same(&rt, seen(alloc, &row, 4, 2, &q)?.as_str(), "no vertex");
    }
    same(&rt, row.look(4, 3), Look::Taken);
    same(&rt, row.look(4, 2), Look::Conflict { committed: 3 });
    row.take(4);
    same(&rt, row.look(5, 3), Look::Held { owner: 4 });
    Ok(())
}

#[test]
fn what_is_private_is_seen_by_its_transaction_alone_until_it_is_applied(
    rt: HostRuntime,
) -> Result<(), Fail> {
    let alloc = rt.alloc();
    let mut row = opened(alloc)?;
    let added = row.put(alloc, 4, 3, 6, 8, &payload(alloc, 3)?)?;
    let replaced = row.put(alloc, 4, 3, 5, 9, &payload(alloc, 4)?)?;
    holds(&rt, replaced && !added);
    holds(&rt, row.has_edge(4, 3, 6, 8) && !row.has_edge(5, 3, 6, 8));
    holds(&rt, row.del(4, 3, 5, 7)? && !row.del(4, 3, 5, 7)?);
    row.push(4, Some(payload(alloc, 2)?))?;
    same(&rt, seen(alloc, &row, 4, 3, &SCAN)?.as_str(), "9:4 ");
    same(&rt, seen(alloc, &row, 4, 3, &LABELS)?.as_str(), "5 6 ");
    same(&rt, seen(alloc, &row, 5, 3, &SCAN)?.as_str(), "7:2 9:1 ");
    same(&rt, seen(alloc, &row, 5, 3, &LABELS)?.as_str(), "5 ");
    row.apply(4, 4, true);
    same(&rt, seen(alloc, &row, 5, 4, &SCAN)?.as_str(), "9:4 ");
    same(&rt, seen(alloc, &row, 5, 4, &VERTEX)?.as_str(), "2");
    same(&rt, seen(alloc, &row, 5, 3, &SCAN)?.as_str(), "7:2 9:1 ");
    same(&rt, row.look(5, 3), Look::Conflict { committed: 4 });
    Ok(())
}

#[test]
fn a_row_that_was_undone_is_as_before(rt: HostRuntime) -> Result<(), Fail> {
    let alloc = rt.alloc();
    let mut row = opened(alloc)?;
    row.del(4, 3, 5, 9)?;
    row.put(alloc, 4, 3, 5, 9, &payload(alloc, 4)?)?;
    row.push(4, None)?;
    same(&rt, seen(alloc, &row, 4, 3, &SCAN)?.as_str(), "no vertex");
    row.undo(4);
    same(&rt, seen(alloc, &row, 4, 3, &SCAN)?.as_str(), "7:2 9:1 ");
    same(&rt, seen(alloc, &row, 4, 3, &EDGE)?.as_str(), "1");
    same(&rt, row.look(5, 3), Look::Taken);
    let fresh = CoreRow::new(alloc);
    same(&rt, seen(alloc, &fresh, 4, 3, &SCAN)?.as_str(), "no vertex");
    Ok(())
}
