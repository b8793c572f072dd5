//! One log of a row, as its owner changes it.

ghost use Rattle.std.specs.Prelude.{◌≡◌, ◌+◌, ◌<◌, ◌≤◌, ◌↔◌, Ok, Err, Some, IfOk, OnOk, OnErr, is_some, true, false, if◌then◌else◌};
ghost use Rattle.graph_model.specs.Change.{edge_size};
ghost use Rattle.graph_model.specs.Graph.{pair_to};
ghost use Rattle.stamps.specs.Stamps.{Txn};
ghost use Rattle.edge_log.specs.Entries.{shown, sizes};
ghost use Rattle.edge_log.specs.Contents.{HasTailOf, with_appended};
ghost use Rattle.edge_log.specs.Rooms.{KeepsLogs, KeepsOlds};
ghost use Rattle.core_rows.specs.Rows.{ended_log, committed_log};
ghost use Rattle.vertex_rows.specs.Owned.{EndsNever, with_note};
ghost use Rattle.vertex_rows.specs.Blocks.{StaysApart, Trades};

use crate::touched::note;
use edge_log::{EdgeLog, LogRefusal};
use graph_model::{NoMemory, Payload};

/// Sets an edge: ends the one to the same destination that the transaction sees, appends the new one, and notes
/// the log's number, unless it was noted last. Answers whether one was ended. LogFull where the new entry passes
/// the limit, NoMemory where memory ran out: after either the log's content and the notes are as before.
/// Time: that of `find`, and one step for each byte.
pub fn put_edge<L: EdgeLog>(
    log: &mut L,
    room: &mut L::Room,
    touched: &mut Vec<u32>,
    n: u32,
    tid: u64,
    read: u64,
    d: u64,
    p: &Payload,
) -> Result<bool, LogRefusal>
    requires stands { L.stands log.old room.old }
    requires ends_never { EndsNever read tid (L.content log.old room.old) }
    requires number { L.keeps_number tid }
    ensures full { (result ≡ Err LogRefusal.LogFull)
        ↔ (L.limit log.old < sizes (L.content log.old room.old).entries + edge_size p.now) }
    ensures stands { L.stands log.new room.new }
    ensures written { OnOk result (L.content log.new room.new
        ≡ with_appended tid d p.now (ended_log d read tid (L.content log.old room.old))) }
    ensures replaced { IfOk result (λ replaced. replaced
        ≡ is_some (pair_to d (shown (L.content log.old room.old).entries read (Txn tid)))) }
    ensures noted { OnOk result (touched.new.items ≡ with_note n touched.old.items) }
    ensures limit { L.limit log.new ≡ L.limit log.old }
    ensures apart { StaysApart (L.blocks_out room.old) (L.footprint log.old) (L.footprint log.new) }
    ensures unchanged { OnErr result ((L.content log.new room.new ≡ L.content log.old room.old)
        × (touched.new.items ≡ touched.old.items)) }
    ensures keeps_logs { KeepsLogs L.stands L.footprint L.content L.spare (L.footprint log.old) room.old room.new }
    ensures keeps_olds { KeepsOlds L.old_stands L.old_footprint L.old_content (L.footprint log.old) room.old room.new }
{
    make_room(log, room, 28 + p.len() as u64)?;
    touched.reserve(1)?;
    let replaced = set_edge(log, room, tid, read, d, p);
    note(touched, n);
    Ok(replaced)
}

// Sets an edge where there is room for it. Time: that of `find`, and one step for each byte.
#[tactic(auto, using(core_rows::proofs::Shown::has_pair))]
fn set_edge<L: EdgeLog>(
    log: &mut L,
    room: &mut L::Room,
    tid: u64,
    read: u64,
    d: u64,
    p: &Payload,
) -> bool
    requires stands { L.stands log.old room.old }
    requires ends_never { EndsNever read tid (L.content log.old room.old) }
    requires has_room { edge_size p.now ≤ L.spare log.old room.old }
    requires may_end { L.may_end log.old }
    requires number { L.keeps_number tid }
    ensures stands { L.stands log.new room.new }
    ensures written { L.content log.new room.new
        ≡ with_appended tid d p.now (ended_log d read tid (L.content log.old room.old)) }
    ensures replaced { result ≡ is_some (pair_to d (shown (L.content log.old room.old).entries read (Txn tid))) }
    ensures limit { L.limit log.new ≡ L.limit log.old }
    ensures blocks { (L.footprint log.new ≡ L.footprint log.old) × (L.blocks_out room.new ≡ L.blocks_out room.old) }
    ensures keeps_logs { KeepsLogs L.stands L.footprint L.content L.spare (L.footprint log.old) room.old room.new }
    ensures keeps_olds { KeepsOlds L.old_stands L.old_footprint L.old_content (L.footprint log.old) room.old room.new }
{
    let found = log.find(room, d, read, tid);
    if let Some(place) = found {
        log.end_entry(room, place, tid);
    }
    log.append(room, tid, d, p);
    found.is_some()
}

/// Ends the edge to `d` that the transaction sees, notes the log's number, unless it was noted last, and answers
/// whether there is such an edge. Where there is none, nothing changes, and no memory is asked for. NoMemory where
/// memory to note the edge ran out: the log's content, the notes and the room are as before. Time: that of `find`.
#[tactic(auto, using(core_rows::proofs::Shown::has_pair))]
pub fn end_edge<L: EdgeLog>(
    log: &mut L,
    room: &mut L::Room,
    touched: &mut Vec<u32>,
    n: u32,
    tid: u64,
    read: u64,
    d: u64,
) -> Result<bool, NoMemory>
    requires stands { L.stands log.old room.old }
    requires ends_never { EndsNever read tid (L.content log.old room.old) }
    requires number { L.keeps_number tid }
    ensures stands { L.stands log.new room.new }
    ensures ended { OnOk result (L.content log.new room.new ≡ ended_log d read tid (L.content log.old room.old)) }
    ensures there { IfOk result (λ there. there
        ≡ is_some (pair_to d (shown (L.content log.old room.old).entries read (Txn tid)))) }
    ensures noted { IfOk result (λ there. touched.new.items
        ≡ (if there then with_note n touched.old.items else touched.old.items)) }
    ensures absent { IfOk result (λ there. there ≡ false
        → (room.new ≡ room.old) × (log.new ≡ log.old)) }
    ensures no_memory { OnErr result
        (is_some (pair_to d (shown (L.content log.old room.old).entries read (Txn tid))) ≡ true) }
    ensures limit { L.limit log.new ≡ L.limit log.old }
    ensures apart { StaysApart (L.blocks_out room.old) (L.footprint log.old) (L.footprint log.new) }
    ensures unchanged { OnErr result ((room.new ≡ room.old) × (L.footprint log.new ≡ L.footprint log.old)
        × (L.content log.new room.new ≡ L.content log.old room.old) × (touched.new.items ≡ touched.old.items)) }
    ensures keeps_logs { KeepsLogs L.stands L.footprint L.content L.spare (L.footprint log.old) room.old room.new }
    ensures keeps_olds { KeepsOlds L.old_stands L.old_footprint L.old_content (L.footprint log.old) room.old room.new }
{
    let Some(place) = log.find(room, d, read, tid) else {
        return Ok(false);
    };
    touched.reserve(1)?;
    if make_room(log, room, 0).is_err() {
        return Err(NoMemory);
    }
    log.end_entry(room, place, tid);
    note(touched, n);
    Ok(true)
}

/// Makes room for one entry of this size and for one end stamp; where the log moves, the blocks that it leaves
/// are given back at once. LogFull where the entry passes the limit, NoMemory where memory ran out: after either
/// the log and the room are as before. Time: that of `prepare`.
pub fn make_room<L: EdgeLog>(log: &mut L, room: &mut L::Room, size: u64) -> Result<(), LogRefusal>
    requires { L.stands log.old room.old }
    ensures full { (result ≡ Err LogRefusal.LogFull)
        ↔ (L.limit log.old < sizes (L.content log.old room.old).entries + size) }
    ensures stands { L.stands log.new room.new }
    ensures content { L.content log.new room.new ≡ L.content log.old room.old }
    ensures limit { L.limit log.new ≡ L.limit log.old }
    ensures has_room { OnOk result (size ≤ L.spare log.new room.new) }
    ensures may_end { OnOk result (L.may_end log.new) }
    ensures apart { StaysApart (L.blocks_out room.old) (L.footprint log.old) (L.footprint log.new) }
    ensures out { Trades (L.blocks_out room.old) (L.blocks_out room.new) (L.footprint log.old) (L.footprint log.new) }
    ensures unchanged { OnErr result ((room.new ≡ room.old) × (L.footprint log.new ≡ L.footprint log.old)) }
    ensures keeps_logs { KeepsLogs L.stands L.footprint L.content L.spare (L.footprint log.old) room.old room.new }
    ensures keeps_olds { KeepsOlds L.old_stands L.old_footprint L.old_content (L.footprint log.old) room.old room.new }
{
    match log.prepare(room, size) {
        Ok(Some(left)) => {
            L::release(room, left);
            Ok(())
        }
        Ok(None) => Ok(()),
        Err(refusal) => Err(refusal),
    }
}

/// Commits what is private to the transaction in the log, if there is anything of it, at this epoch.
/// Time: one step for each entry that it appended or ended there.
pub fn commit_log<L: EdgeLog>(log: &mut L, room: &mut L::Room, tid: u64, epoch: u64)
    requires stands { L.stands log.old room.old }
    requires tail { HasTailOf tid (L.content log.old room.old) }
    requires epoch { L.keeps_epoch epoch }
    ensures stands { L.stands log.new room.new }
    ensures committed { L.content log.new room.new ≡ committed_log tid epoch (L.content log.old room.old) }
    ensures limit { L.limit log.new ≡ L.limit log.old }
    ensures blocks { (L.footprint log.new ≡ L.footprint log.old) × (L.blocks_out room.new ≡ L.blocks_out room.old) }
    ensures keeps_logs { KeepsLogs L.stands L.footprint L.content L.spare (L.footprint log.old) room.old room.new }
    ensures keeps_olds { KeepsOlds L.old_stands L.old_footprint L.old_content (L.footprint log.old) room.old room.new }
{
    if log.has_entry_of(room, tid) {
        log.convert(room, tid, epoch);
    }
}
