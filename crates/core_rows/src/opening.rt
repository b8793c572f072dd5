//! The row of a vertex as a run starts with it.

ghost use Rattle.std.specs.Prelude.{◌≡◌, IfOk, IsTrue, map, is_some};
ghost use Rattle.std.specs.Option.{option_map};
ghost use Rattle.graph_model.specs.Graph.{vertex_at, pairs_in};
ghost use Rattle.graph_model.specs.Whole.{is_graph};
ghost use Rattle.core_rows.specs.LogMap.{logs_of};
ghost use Rattle.core_rows.specs.Openings.{opened_logs, lists_in};

use crate::row_log::RowLog;
use graph_model::{Answer, Graph, Labels, NoMemory, Pairs, Payload, Query};
use std::alloc::Global;
use std::collections::BTreeMap;

/// The payload of a vertex, where it is there. Time: logarithmic, and one step for each byte.
pub fn payload_in(graph: &Graph, v: u64) -> Result<Option<Payload>, NoMemory>
    ensures { IfOk result (λ payload. payload ≡ option_map (λ x. x.payload) (vertex_at v graph.now)) }
{
    match graph.answer(&Query::Vertex { v })? {
        Answer::Value(payload) => Ok(Some(payload)),
        _ => Ok(None),
    }
}

/// The logs of a vertex: each of its lists, all of it at this epoch.
/// Time: one step for each edge and each byte.
pub fn logs_in(
    alloc: Global,
    graph: &Graph,
    v: u64,
    epoch: u64,
) -> Result<BTreeMap<u16, RowLog>, NoMemory>
    requires { IsTrue (is_graph graph.now) }
    ensures { IfOk result (λ logs. logs_of logs.entries ≡ opened_logs epoch (lists_in (vertex_at v graph.now))) }
{
    let labels = labels_in(alloc, graph, v)?;
    let mut logs = BTreeMap::new(alloc);
    for label in labels.as_slice() {
        let pairs = pairs_of(alloc, graph, v, *label)?;
        let log = RowLog::opened(alloc, &pairs, epoch)?;
        logs.insert(*label, log)?;
    }
    Ok(logs)
}

/// The labels of the lists of a vertex, rising; none where the vertex is not there. Time: one step for each.
pub fn labels_in(alloc: Global, graph: &Graph, v: u64) -> Result<Labels, NoMemory>
    ensures { IfOk result (λ labels. labels ≡ map (λ y. y.label) (lists_in (vertex_at v graph.now))) }
{
    match graph.answer(&Query::Labels { v })? {
        Answer::Named(labels) => Ok(labels),
        _ => Ok(Labels::new(alloc)),
    }
}

/// The edges of a vertex under a label, newest first; none where there are none, or the vertex is not there.
/// Time: one step for each edge and each byte.
pub fn pairs_of(alloc: Global, graph: &Graph, v: u64, l: u16) -> Result<Pairs, NoMemory>
    ensures { IfOk result (λ pairs. pairs ≡ pairs_in (lists_in (vertex_at v graph.now)) l) }
{
    match graph.answer(&Query::Scan { v, l })? {
        Answer::Edges(pairs) => Ok(pairs),
        _ => Ok(Pairs::new(alloc)),
    }
}
