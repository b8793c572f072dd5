//! The row of one vertex.

ghost use Rattle.std.specs.Prelude.{◌≡◌, ℕ, ◌≤◌, [], IsTrue, IsSome, IfOk, OnErr};
ghost use Rattle.graph_model.specs.Graph.{vertex_at};
ghost use Rattle.graph_model.specs.Records.{list_most, size_of_list};
ghost use Rattle.graph_model.specs.Whole.{is_graph};
ghost use Rattle.edge_log.specs.Rooms.{AreApart, KeepsLogs, KeepsOlds};
ghost use Rattle.core_rows.specs.Openings.{opened_row};
ghost use Rattle.vertex_rows.specs.Blocks.{Trades};
ghost use Rattle.vertex_rows.specs.RowIn.{row_over, row_blocks, IsRowIn};

use crate::list_logs::{ListLogs, logs_of_lists};
use core_rows::payload_in;
use edge_log::EdgeLog;
use graph_model::{Graph, NoMemory};
use std::alloc::Global;
use vertex_rows::VertexRow;
use vertex_versions::Versions;

/// The row of a vertex that a run starts with at this epoch; that of a vertex which was never there, where the graph
/// has none. In each of its logs the sizes of the entries may come to `log_most`, and no list of the vertex is above
/// that. After NoMemory the blocks that were taken are given back to the room.
///
/// Time: one step for each edge and each byte of the vertex.
pub fn opened_row<L: EdgeLog>(
    alloc: Global,
    room: &mut L::Room,
    graph: &Graph,
    v: u64,
    epoch: u64,
    log_most: u64,
) -> Result<VertexRow<L>, NoMemory>
    requires most { log_most ≤ list_most }
    requires whole { IsTrue (is_graph graph.now) }
    requires lists { (l : ℕ) → size_of_list (vertex_at v graph.now) l ≤ log_most }
    requires number { L.keeps_number 0 }
    requires epoch { IsSome (vertex_at v graph.now) → L.keeps_epoch epoch }
    ensures stands { IfOk result (λ row. IsRowIn L.stands L.footprint L.content L.limit row room.new) }
    ensures opened { IfOk result (λ row. row_over L.content row room.new ≡ opened_row epoch (vertex_at v graph.now)) }
    ensures limit { IfOk result (λ row. row.log_most ≡ log_most) }
    ensures apart { IfOk result (λ row. AreApart (L.blocks_out room.old) (row_blocks L.footprint row)) }
    ensures out { IfOk result (λ row.
        Trades (L.blocks_out room.old) (L.blocks_out room.new) [] (row_blocks L.footprint row)) }
    ensures given_back { OnErr result (Trades (L.blocks_out room.old) (L.blocks_out room.new) [] []) }
    ensures keeps_logs { KeepsLogs L.stands L.footprint L.content L.spare [] room.old room.new }
    ensures keeps_olds { KeepsOlds L.old_stands L.old_footprint L.old_content [] room.old room.new }
{
    let Some(payload) = payload_in(graph, v)? else {
        return Ok(VertexRow::new(alloc, log_most));
    };
    let mut versions = Versions::new(alloc);
    versions.push(0, Some(payload))?;
    versions.convert(0, epoch);
    let ListLogs { index, logs } = logs_of_lists(alloc, room, graph, v, epoch, log_most)?;
    Ok(VertexRow::from_parts(alloc, epoch, versions, index, logs, log_most))
}
