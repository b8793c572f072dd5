//! The first edge under a label, in a log of its own.

ghost use Rattle.std.specs.Prelude.{◌≡◌, ◌<◌, ◌≤◌, ◌↔◌, ◌++◌, ◌∷◌, [], true, length, position, nat_eq, None, Err, IfOk, OnOk, OnErr, vec_len, vec_capacity};
ghost use Rattle.graph_model.specs.Change.{edge_size};
ghost use Rattle.graph_model.specs.Records.{list_most};
ghost use Rattle.edge_log.specs.Contents.{empty_content, with_appended};
ghost use Rattle.edge_log.specs.Rooms.{AreApart, KeepsLogs, KeepsOlds};

use edge_log::{EdgeLog, LogRefusal};
use graph_model::{NoMemory, Payload};
use label_index::LabelIndex;
use row_logs::RowLogs;
use std::alloc::Global;

/// A log of the vertex `v` and the label `l` with this one edge, private to the transaction, whose entries may have
/// the size `most` together. LogFull where the entry passes that limit, NoMemory where memory ran out: after either the room is as before.
/// Time: that of `start`, and one step for each byte.
pub fn log_with_first<L: EdgeLog>(
    alloc: Global,
    room: &mut L::Room,
    tid: u64,
    v: u64,
    l: u16,
    d: u64,
    p: &Payload,
    most: u64,
) -> Result<L, LogRefusal>
    requires number { L.keeps_number tid }
    requires most { most ≤ list_most }
    ensures full { (result ≡ Err LogRefusal.LogFull) ↔ (most < edge_size p.now) }
    ensures stands { IfOk result (λ log. L.stands log room.new) }
    ensures written { IfOk result (λ log. L.content log room.new ≡ with_appended tid d p.now empty_content) }
    ensures limit { IfOk result (λ log. L.limit log ≡ most) }
    ensures apart { IfOk result (λ log. AreApart (L.blocks_out room.old) (L.footprint log)) }
    ensures unchanged { OnErr result (room.new ≡ room.old) }
    ensures keeps_logs { KeepsLogs L.stands L.footprint L.content L.spare [] room.old room.new }
    ensures keeps_olds { KeepsOlds L.old_stands L.old_footprint L.old_content [] room.old room.new }
{
    let mut log = L::start(alloc, room, v, l, 28 + p.len() as u64, most)?;
    log.append(room, tid, d, p);
    Ok(log)
}

/// Makes room for one log and one note more, and then gives a label its number, which is the next.
/// After NoMemory the labels are as before. Time: amortized constant.
pub fn name_label<L>(
    index: &mut LabelIndex,
    logs: &mut RowLogs<L>,
    touched: &mut Vec<u32>,
    l: u16,
) -> Result<u32, NoMemory>
    requires unnamed { position (nat_eq l) index.old ≡ None }
    ensures number { IfOk result (λ n. n ≡ length index.old) }
    ensures named { OnOk result (index.new ≡ index.old ++ l ∷ []) }
    ensures has_room { OnOk result ((logs.new.has_room ≡ true)
        × (vec_len touched.new < vec_capacity touched.new)) }
    ensures unchanged { OnErr result (index.new ≡ index.old) }
    ensures keeps { (logs.new.items ≡ logs.old.items) × (touched.new.items ≡ touched.old.items) }
{
    logs.reserve_one()?;
    touched.reserve(1)?;
    index.row_or_new(l)
}
