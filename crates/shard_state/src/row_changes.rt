//! The changes of one row, which its transaction sees and may take.

ghost use Rattle.std.specs.Prelude.{◌≡◌, ◌<◌, ℕ, Some, OnOk, OnErr};
ghost use Rattle.graph_model.specs.declared.change.Change.TheVariants as change;
ghost use Rattle.graph_model.specs.Records.{destination_end, list_most};
ghost use Rattle.core_rows.specs.Rows.{fresh_row, push_row};
ghost use Rattle.core_states.specs.declared.event.Act.TheVariants as act;
ghost use Rattle.vertex_rows.specs.RowIn.{row_over, row_blocks, IsRowIn};
ghost use Rattle.shard_state.specs.Shards.{MayChange, ChangesAlone, limits_with};
ghost use Rattle.shard_state.specs.Says.{Changes, says_placed, says_taken, says_done};

use crate::{Placed, ShardRefusal, Taken, Who};
use edge_log::{EdgeLog, LogRefusal};
use graph_model::{NoMemory, Payload};
use std::alloc::Global;
use vertex_rows::VertexRow;

/// The encoded lengths of changes, without their payloads.
const PUT_LEN: u64 = 21;

const DEL_LEN: u64 = 19;

const SET_LEN: u64 = 11;

const DROP_LEN: u64 = 9;

/// Sets an edge of the vertex `v`, whose row this is. The refusals, and the time, are those of `Shard::put`.
pub fn put<L: EdgeLog>(
    row: &mut VertexRow<L>,
    alloc: Global,
    room: &mut L::Room,
    who: &Who,
    v: u64,
    l: u16,
    d: u64,
    p: &Payload,
) -> Result<Placed, ShardRefusal>
    requires stands { IsRowIn L.stands L.footprint L.content L.limit row.old room.old }
    requires may { MayChange who.now (row_over L.content row.old room.old) }
    requires destination { d < destination_end }
    requires number { L.keeps_number who.now.tid }
    ensures event { Changes (limits_with row.old.log_most) who.now (act.Put v l d p.now) (change.Put v l d p.now)
        (row_over L.content row.old room.old) (says_placed result) (row_over L.content row.new room.new) }
    ensures alone { ChangesAlone L.stands L.footprint L.content L.spare L.limit (L.blocks_out room.old)
        row.old row.new room.old room.new }
{
    let Who { tid, read, left } = *who;
    if !row.is_there(tid, read) {
        return Err(ShardRefusal::NoVertex);
    }
    if left < PUT_LEN + p.len() as u64 {
        row.take(tid);
        return Err(ShardRefusal::TxnFull);
    }
    match row.put(alloc, room, tid, read, v, l, d, p) {
        Ok(true) => Ok(Placed::Replaced),
        Ok(false) => Ok(Placed::Added),
        Err(LogRefusal::LogFull) => {
            row.take(tid);
            Err(ShardRefusal::LogFull)
        }
        Err(LogRefusal::NoMemory) => Err(ShardRefusal::NoMemory),
    }
}

/// Ends an edge. The refusals, and the time, are those of `Shard::del`.
pub fn del<L: EdgeLog>(
    row: &mut VertexRow<L>,
    room: &mut L::Room,
    who: &Who,
    l: u16,
    d: u64,
) -> Result<Taken, ShardRefusal>
    requires stands { IsRowIn L.stands L.footprint L.content L.limit row.old room.old }
    requires may { MayChange who.now (row_over L.content row.old room.old) }
    requires number { L.keeps_number who.now.tid }
    ensures event { (v : ℕ) → Changes (limits_with row.old.log_most) who.now (act.Del v l d) (change.Del v l d)
        (row_over L.content row.old room.old) (says_taken result) (row_over L.content row.new room.new) }
    ensures alone { ChangesAlone L.stands L.footprint L.content L.spare L.limit (L.blocks_out room.old)
        row.old row.new room.old room.new }
{
    if !row.is_there(who.tid, who.read) {
        return Err(ShardRefusal::NoVertex);
    }
    if !row.has_edge(room, who.tid, who.read, l, d) {
        row.take(who.tid);
        return Ok(Taken::Absent);
    }
    if who.left < DEL_LEN {
        row.take(who.tid);
        return Err(ShardRefusal::TxnFull);
    }
    match row.del(room, who.tid, who.read, l, d) {
        Ok(_) => Ok(Taken::Gone),
        Err(NoMemory) => Err(ShardRefusal::NoMemory),
    }
}

/// Sets the payload of the vertex. The refusals, and the time, are those of `Shard::set`.
pub fn set<L: EdgeLog>(row: &mut VertexRow<L>, who: &Who, p: &Payload) -> Result<(), ShardRefusal>
    requires may { (room : L.Room) × MayChange who.now (row_over L.content row.old room) }
    ensures event { (v : ℕ) (room : L.Room) → Changes (limits_with row.old.log_most) who.now (act.Set v p.now) (change.Set v p.now)
        (row_over L.content row.old room) (says_done result) (row_over L.content row.new room) }
    ensures stands { (room : L.Room) → IsRowIn L.stands L.footprint L.content L.limit row.old room
        → IsRowIn L.stands L.footprint L.content L.limit row.new room }
    ensures blocks { row_blocks L.footprint row.new ≡ row_blocks L.footprint row.old }
    ensures limit { row.new.log_most ≡ row.old.log_most }
{
    if !row.is_there(who.tid, who.read) {
        return Err(ShardRefusal::NoVertex);
    }
    if who.left < SET_LEN + p.len() as u64 {
        row.take(who.tid);
        return Err(ShardRefusal::TxnFull);
    }
    let Ok(content) = p.copy() else {
        return Err(ShardRefusal::NoMemory);
    };
    match row.push(who.tid, Some(content)) {
        Ok(()) => Ok(()),
        Err(NoMemory) => Err(ShardRefusal::NoMemory),
    }
}

/// Drops the vertex. The refusals, and the time, are those of `Shard::drop_vertex`.
pub fn drop_vertex<L: EdgeLog>(row: &mut VertexRow<L>, who: &Who) -> Result<(), ShardRefusal>
    requires may { (room : L.Room) × MayChange who.now (row_over L.content row.old room) }
    ensures event { (v : ℕ) (room : L.Room) → Changes (limits_with row.old.log_most) who.now (act.Drop v) (change.Drop v)
        (row_over L.content row.old room) (says_done result) (row_over L.content row.new room) }
    ensures stands { (room : L.Room) → IsRowIn L.stands L.footprint L.content L.limit row.old room
        → IsRowIn L.stands L.footprint L.content L.limit row.new room }
    ensures blocks { row_blocks L.footprint row.new ≡ row_blocks L.footprint row.old }
    ensures limit { row.new.log_most ≡ row.old.log_most }
{
    if !row.is_there(who.tid, who.read) {
        return Err(ShardRefusal::NoVertex);
    }
    if who.left < DROP_LEN {
        row.take(who.tid);
        return Err(ShardRefusal::TxnFull);
    }
    match row.push(who.tid, None) {
        Ok(()) => Ok(()),
        Err(NoMemory) => Err(ShardRefusal::NoMemory),
    }
}

/// Makes the vertex of a row that was never there, for the transaction. After NoMemory the row is as before. Time:
/// amortized constant.
pub fn make_vertex<L: EdgeLog>(
    row: &mut VertexRow<L>,
    who: &Who,
    p: &Payload,
) -> Result<(), NoMemory>
    requires fresh { (room : L.Room) × (row_over L.content row.old room ≡ fresh_row) }
    ensures made { OnOk result ((room : L.Room) → row_over L.content row.new room
        ≡ push_row who.now.tid (Some p.now) (row_over L.content row.old room)) }
    ensures unchanged { OnErr result ((room : L.Room) → row_over L.content row.new room ≡ row_over L.content row.old room) }
    ensures stands { (room : L.Room) → IsRowIn L.stands L.footprint L.content L.limit row.old room
        → IsRowIn L.stands L.footprint L.content L.limit row.new room }
    ensures blocks { row_blocks L.footprint row.new ≡ row_blocks L.footprint row.old }
    ensures limit { row.new.log_most ≡ row.old.log_most }
{
    let content = p.copy()?;
    row.push(who.tid, Some(content))
}
