//! Rows of a base over logs in vectors, with ample memory: what no clause says is that the calls succeed.

ghost use Rattle.std.specs.Prelude.{◌≡◌, ℕ, ◌≤◌, ◌^◌, length, IfOk, IsTrue};
ghost use Rattle.graph_model.specs.Graph.{vertex_at};
ghost use Rattle.graph_model.specs.Records.{size_of_list};
ghost use Rattle.graph_model.specs.Whole.{is_graph};

use crate::asserts::{holds, same};
use edge_log::{Part, PlainLog};
use graph_model::{Answer, Change, Graph, Payload, Query};
use row_opening::opened_row;
use std::alloc::Global;
use std::test::Fail;
use vertex_locks::Look;
use vertex_rows::VertexRow;

fn payload(alloc: Global, byte: u8) -> Result<Payload, Fail>
    ensures { IfOk result (λ p. length p ≡ 1) }
{
    Ok(Payload::from_slice(alloc, &[byte])?)
}

// The graph of the vertex 1 with the edges to 7 and 9 under label 5.
fn small_graph(alloc: Global) -> Result<Graph, Fail>
    ensures whole { IfOk result (λ graph. IsTrue (is_graph graph)) }
    ensures small { IfOk result (λ graph. (l : ℕ) → size_of_list (vertex_at 1 graph) l ≤ 2 ^ 20) }
{
    let mut graph = Graph::empty(alloc);
    let p = payload(alloc, 1)?;
    graph.apply(&Change::New { v: 1, p })?;
    let p = payload(alloc, 2)?;
    graph.apply(&Change::Put {
        v: 1,
        l: 5,
        d: 9,
        p,
    })?;
    let p = payload(alloc, 3)?;
    graph.apply(&Change::Put {
        v: 1,
        l: 5,
        d: 7,
        p,
    })?;

    // A graph is whole where a copy of it is.
    Ok(graph.copy()?)
}

#[test]
fn an_opened_row_shows_its_list_newest_first_and_is_free(rt: HostRuntime) -> Result<(), Fail> {
    let alloc = rt.alloc();
    let graph = small_graph(alloc)?;
    let row: VertexRow<PlainLog> = opened_row(alloc, &mut (), &graph, 1, 3, 1 << 20)?;
    let mut part = Part::new(alloc, Payload::MOST)?;
    let scan = Query::Scan { v: 1, l: 5 };
    let Answer::Edges(pairs) = row.read(alloc, &(), &mut part, 4, 3, &scan)? else {
        return Err(Fail::from("no edges"));
    };
    same(&rt, pairs.len(), 2);
    same(&rt, pairs.get(0).map(|pair| pair.d), Some(7));
    same(&rt, pairs.get(1).map(|pair| pair.d), Some(9));
    holds(
        &rt,
        matches!(
            row.read(alloc, &(), &mut part, 4, 2, &scan)?,
            Answer::NoVertex
        ),
    );
    same(&rt, row.look(4, 3), Look::Taken);
    same(&rt, row.look(4, 2), Look::Conflict { committed: 3 });
    Ok(())
}
