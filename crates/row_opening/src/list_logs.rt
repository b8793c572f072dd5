//! The logs of all lists of a vertex.

ghost use Rattle.std.specs.Prelude.{◌≡◌, ℕ, ◌<◌, ◌≤◌, ◌++◌, ◌∷◌, [], length, get_or, position, nat_eq, None, true, IsTrue, IfOk, OnOk, OnErr};
ghost use Rattle.graph_model.specs.Graph.{vertex_at, pairs_in};
ghost use Rattle.graph_model.specs.Records.{list_most, size_of_list};
ghost use Rattle.graph_model.specs.Whole.{is_graph};
ghost use Rattle.edge_log.specs.Rooms.{AreApart, KeepsLogs, KeepsOlds};
ghost use Rattle.core_rows.specs.Openings.{opened_log, opened_logs, lists_in};
ghost use Rattle.vertex_rows.specs.Blocks.{AreLogs, Trades, footprints_of};
ghost use Rattle.vertex_rows.specs.Owned.{IsAllPast};
ghost use Rattle.vertex_rows.specs.RowIn.{labelled_in};

use crate::list_log::log_of_list;
use core_rows::{labels_in, pairs_of};
use edge_log::EdgeLog;
use graph_model::{Graph, NoMemory};
use label_index::LabelIndex;
use row_logs::RowLogs;
use std::alloc::Global;

/// Logs, and the labels that they stand under, in the order of the logs.
pub struct ListLogs<L> {
    pub index: LabelIndex,
    pub logs: RowLogs<L>,
}

/// The logs of the lists of a vertex, each of them at this epoch. After NoMemory the blocks that were taken are given
/// back. Time: that of `log_of_list` for each list.
pub fn logs_of_lists<L: EdgeLog>(
    alloc: Global,
    room: &mut L::Room,
    graph: &Graph,
    v: u64,
    epoch: u64,
    most: u64,
) -> Result<ListLogs<L>, NoMemory>
    requires most { most ≤ list_most }
    requires whole { IsTrue (is_graph graph.now) }
    requires lists { (l : ℕ) → size_of_list (vertex_at v graph.now) l ≤ most }
    requires number { L.keeps_number 0 }
    requires epoch { L.keeps_epoch epoch }
    ensures labelled { IfOk result (λ made. length made.index ≡ length made.logs.items) }
    ensures stand { IfOk result (λ made. AreLogs L.stands L.footprint L.limit most made.logs.items room.new) }
    ensures opened { IfOk result (λ made. labelled_in L.content made.index made.logs.items room.new
        ≡ opened_logs epoch (lists_in (vertex_at v graph.now))) }
    ensures past { IfOk result (λ made. (n : ℕ) (d : L) → n < length made.logs.items
        → IsAllPast epoch (L.content (get_or made.logs.items n d) room.new)) }
    ensures apart { IfOk result (λ made. AreApart (L.blocks_out room.old) (footprints_of L.footprint made.logs.items)) }
    ensures out { IfOk result (λ made.
        Trades (L.blocks_out room.old) (L.blocks_out room.new) [] (footprints_of L.footprint made.logs.items)) }
    ensures given_back { OnErr result (Trades (L.blocks_out room.old) (L.blocks_out room.new) [] []) }
    ensures keeps_logs { KeepsLogs L.stands L.footprint L.content L.spare [] room.old room.new }
    ensures keeps_olds { KeepsOlds L.old_stands L.old_footprint L.old_content [] room.old room.new }
{
    let labels = labels_in(alloc, graph, v)?;
    let mut index = LabelIndex::new(alloc);
    let mut logs = RowLogs::new(alloc);
    for label in labels.as_slice() {
        match next_log(
            alloc, room, graph, v, *label, epoch, most, &mut index, &mut logs,
        ) {
            Ok(log) => logs.push_reserved(log),
            Err(_) => {
                give_back(room, logs);
                return Err(NoMemory);
            }
        }
    }
    Ok(ListLogs { index, logs })
}

// The log of the list under a label that has none yet, which is named, and for whose log there is room among the
// logs. After NoMemory the blocks that were taken are given back.
fn next_log<L: EdgeLog>(
    alloc: Global,
    room: &mut L::Room,
    graph: &Graph,
    v: u64,
    l: u16,
    epoch: u64,
    most: u64,
    index: &mut LabelIndex,
    logs: &mut RowLogs<L>,
) -> Result<L, NoMemory>
    requires most { most ≤ list_most }
    requires within { size_of_list (vertex_at v graph.now) l ≤ most }
    requires number { L.keeps_number 0 }
    requires epoch { L.keeps_epoch epoch }
    requires unnamed { position (nat_eq l) index.old ≡ None }
    ensures named { OnOk result (index.new ≡ index.old ++ l ∷ []) }
    ensures has_room { OnOk result (logs.new.has_room ≡ true) }
    ensures same { logs.new.items ≡ logs.old.items }
    ensures stands { IfOk result (λ log. L.stands log room.new) }
    ensures opened { IfOk result (λ log. L.content log room.new
        ≡ opened_log epoch (pairs_in (lists_in (vertex_at v graph.now)) l)) }
    ensures limit { IfOk result (λ log. L.limit log ≡ most) }
    ensures apart { IfOk result (λ log. AreApart (L.blocks_out room.old) (L.footprint log)) }
    ensures out { IfOk result (λ log. Trades (L.blocks_out room.old) (L.blocks_out room.new) [] (L.footprint log)) }
    ensures given_back { OnErr result (Trades (L.blocks_out room.old) (L.blocks_out room.new) [] []) }
    ensures keeps_logs { KeepsLogs L.stands L.footprint L.content L.spare [] room.old room.new }
    ensures keeps_olds { KeepsOlds L.old_stands L.old_footprint L.old_content [] room.old room.new }
{
    logs.reserve_one()?;
    index.row_or_new(l)?;
    let pairs = pairs_of(alloc, graph, v, l)?;
    log_of_list(
        alloc,
        room,
        v,
        l,
        &pairs,
        graph.list_size(v, l),
        epoch,
        most,
    )
}

// Gives the blocks of the logs back to the room.
fn give_back<L: EdgeLog>(room: &mut L::Room, mut logs: RowLogs<L>)
    requires { (most : ℕ) × AreLogs L.stands L.footprint L.limit most logs.items room.old }
    ensures out { Trades (L.blocks_out room.old) (L.blocks_out room.new) (footprints_of L.footprint logs.items) [] }
    ensures keeps_logs { KeepsLogs L.stands L.footprint L.content L.spare
        (footprints_of L.footprint logs.items) room.old room.new }
    ensures keeps_olds { KeepsOlds L.old_stands L.old_footprint L.old_content
        (footprints_of L.footprint logs.items) room.old room.new }
{
    while let Some(log) = logs.pop() {
        L::release(room, log.retire());
    }
    logs.destroy_empty();
}
