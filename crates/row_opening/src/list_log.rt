//! The log of one list.

ghost use Rattle.std.specs.Prelude.{◌≡◌, ◌+◌, ◌≤◌, [], IfOk, OnOk, OnErr};
ghost use Rattle.graph_model.specs.Change.{edge_size};
ghost use Rattle.graph_model.specs.Records.{list_most, list_size};
ghost use Rattle.edge_log.specs.Entries.{sizes};
ghost use Rattle.edge_log.specs.Contents.{empty_content, with_appended};
ghost use Rattle.edge_log.specs.Rooms.{AreApart, TakesNew, KeepsLogs, KeepsOlds};
ghost use Rattle.core_rows.specs.Openings.{opened_log};
ghost use Rattle.vertex_rows.specs.Blocks.{StaysApart, Trades};

use edge_log::{EdgeLog, LogRefusal};
use graph_model::{NoMemory, Pair, Pairs};
use std::alloc::Global;
use vertex_rows::make_room;

/// The log of the edges of one list, which take `size` together, all of it at this epoch. After NoMemory the blocks
/// that were taken are given back. Time: one step for each edge and each byte; the log does not move where `start`
/// gives it room for `size`.
pub fn log_of_list<L: EdgeLog>(
    alloc: Global,
    room: &mut L::Room,
    v: u64,
    l: u16,
    pairs: &Pairs,
    size: u64,
    epoch: u64,
    most: u64,
) -> Result<L, NoMemory>
    requires most { most ≤ list_most }
    requires size { size ≡ list_size pairs.now }
    requires within { size ≤ most }
    requires number { L.keeps_number 0 }
    requires epoch { L.keeps_epoch epoch }
    ensures stands { IfOk result (λ log. L.stands log room.new) }
    ensures opened { IfOk result (λ log. L.content log room.new ≡ opened_log epoch pairs.now) }
    ensures limit { IfOk result (λ log. L.limit log ≡ most) }
    ensures apart { IfOk result (λ log. AreApart (L.blocks_out room.old) (L.footprint log)) }
    ensures out { IfOk result (λ log. Trades (L.blocks_out room.old) (L.blocks_out room.new) [] (L.footprint log)) }
    ensures given_back { OnErr result (Trades (L.blocks_out room.old) (L.blocks_out room.new) [] []) }
    ensures keeps_logs { KeepsLogs L.stands L.footprint L.content L.spare [] room.old room.new }
    ensures keeps_olds { KeepsOlds L.old_stands L.old_footprint L.old_content [] room.old room.new }
{
    let mut log: L = empty_log(alloc, room, v, l, size, most)?;
    let mut left = pairs.len();
    while left > 0 {
        left -= 1;
        let Some(pair) = pairs.get(left) else {
            unreachable!()
        };
        if append_pair(&mut log, room, pair).is_err() {
            L::release(room, log.retire());
            return Err(NoMemory);
        }
    }
    log.convert(room, 0, epoch);
    Ok(log)
}

// An empty log with room for one entry of this size, which is within the limit.
fn empty_log<L: EdgeLog>(
    alloc: Global,
    room: &mut L::Room,
    v: u64,
    l: u16,
    size: u64,
    most: u64,
) -> Result<L, NoMemory>
    requires most { most ≤ list_most }
    requires within { size ≤ most }
    ensures stands { IfOk result (λ log. L.stands log room.new) }
    ensures empty { IfOk result (λ log. L.content log room.new ≡ empty_content) }
    ensures limit { IfOk result (λ log. L.limit log ≡ most) }
    ensures apart { IfOk result (λ log. AreApart (L.blocks_out room.old) (L.footprint log)) }
    ensures out { IfOk result (λ log. Trades (L.blocks_out room.old) (L.blocks_out room.new) [] (L.footprint log)) }
    ensures unchanged { OnErr result (room.new ≡ room.old) }
    ensures keeps_logs { KeepsLogs L.stands L.footprint L.content L.spare [] room.old room.new }
    ensures keeps_olds { KeepsOlds L.old_stands L.old_footprint L.old_content [] room.old room.new }
{
    match L::start(alloc, room, v, l, size, most) {
        Ok(log) => Ok(log),
        Err(LogRefusal::NoMemory) => Err(NoMemory),
        Err(LogRefusal::LogFull) => unreachable!(),
    }
}

// Appends an edge that the limit allows, privately to the number 0. After NoMemory the log and the room are as before.
fn append_pair<L: EdgeLog>(log: &mut L, room: &mut L::Room, pair: &Pair) -> Result<(), NoMemory>
    requires stands { L.stands log.old room.old }
    requires within { sizes (L.content log.old room.old).entries + edge_size pair.now.p ≤ L.limit log.old }
    requires number { L.keeps_number 0 }
    ensures stands { L.stands log.new room.new }
    ensures appended { OnOk result (L.content log.new room.new
        ≡ with_appended 0 pair.now.d pair.now.p (L.content log.old room.old)) }
    ensures limit { L.limit log.new ≡ L.limit log.old }
    ensures apart { StaysApart (L.blocks_out room.old) (L.footprint log.old) (L.footprint log.new) }
    ensures out { Trades (L.blocks_out room.old) (L.blocks_out room.new) (L.footprint log.old) (L.footprint log.new) }
    ensures unchanged { OnErr result ((room.new ≡ room.old) × (L.footprint log.new ≡ L.footprint log.old)) }
    ensures keeps_logs { KeepsLogs L.stands L.footprint L.content L.spare (L.footprint log.old) room.old room.new }
    ensures keeps_olds { KeepsOlds L.old_stands L.old_footprint L.old_content (L.footprint log.old) room.old room.new }
{
    match make_room(log, room, pair.size()) {
        Ok(()) => {
            log.append(room, 0, pair.d, &pair.p);
            Ok(())
        }
        Err(LogRefusal::NoMemory) => Err(NoMemory),
        Err(LogRefusal::LogFull) => unreachable!(),
    }
}
