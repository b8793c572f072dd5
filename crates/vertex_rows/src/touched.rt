//! The logs that the owner of a row touched: as they are noted, and when its transaction ends.

ghost use Rattle.std.specs.Prelude.{◌≡◌, ℕ, ◌<◌, [], length, get_or, vec_len, vec_capacity};
ghost use Rattle.edge_log.specs.Contents.{with_undone};
ghost use Rattle.edge_log.specs.Rooms.{KeepsLogs, KeepsOlds};
ghost use Rattle.core_rows.specs.Rows.{committed_log};
ghost use Rattle.vertex_rows.specs.Blocks.{AreLogs, footprints_of};
ghost use Rattle.vertex_rows.specs.Owned.{AreOwned, IsAllPast, ends_in, with_note};

use crate::one_log::commit_log;
use edge_log::EdgeLog;
use row_logs::RowLogs;

/// Notes that the owner touched a log, unless that is the one that was noted last. Time: constant.
pub fn note(touched: &mut Vec<u32>, n: u32)
    requires { vec_len touched.old < vec_capacity touched.old }
    ensures { touched.new.items ≡ with_note n touched.old.items }
{
    if !ends_in(touched, n) {
        touched.push_reserved(n);
    }
}

fn ends_in(touched: &Vec<u32>, n: u32) -> bool
    ensures { result ≡ ends_in n touched.now.items }
{
    match touched.last() {
        Some(last) => *last == n,
        None => false,
    }
}

/// Commits what the owner did in the logs, at this epoch. Time: one step for each log that it touched, and each
/// entry that it appended or ended.
pub fn commit_touched<L: EdgeLog>(
    logs: &mut RowLogs<L>,
    touched: &mut Vec<u32>,
    room: &mut L::Room,
    tid: u64,
    epoch: u64,
)
    requires stand { (most : ℕ) × AreLogs L.stands L.footprint L.limit most logs.old.items room.old }
    requires owned { AreOwned L.content tid epoch touched.old.items logs.old.items room.old }
    requires epoch { L.keeps_epoch epoch }
    ensures stand { (most : ℕ) → AreLogs L.stands L.footprint L.limit most logs.old.items room.old
        → AreLogs L.stands L.footprint L.limit most logs.new.items room.new }
    ensures count { length logs.new.items ≡ length logs.old.items }
    ensures committed { (n : ℕ) (d : L) → n < length logs.old.items
        → L.content (get_or logs.new.items n d) room.new
        ≡ committed_log tid epoch (L.content (get_or logs.old.items n d) room.old) }
    ensures past { (n : ℕ) (d : L) → n < length logs.old.items
        → IsAllPast epoch (L.content (get_or logs.new.items n d) room.new) }
    ensures none_touched { touched.new.items ≡ [] }
    ensures blocks { (footprints_of L.footprint logs.new.items ≡ footprints_of L.footprint logs.old.items)
        × (L.blocks_out room.new ≡ L.blocks_out room.old) }
    ensures keeps_logs { KeepsLogs L.stands L.footprint L.content L.spare
        (footprints_of L.footprint logs.old.items) room.old room.new }
    ensures keeps_olds { KeepsOlds L.old_stands L.old_footprint L.old_content
        (footprints_of L.footprint logs.old.items) room.old room.new }
{
    while let Some(n) = touched.pop() {
        commit_log(logs.at_mut(n as usize), room, tid, epoch);
    }
}

/// Gives up what the owner did in the logs. Time: that of `commit_touched`.
pub fn undo_touched<L: EdgeLog>(
    logs: &mut RowLogs<L>,
    touched: &mut Vec<u32>,
    room: &mut L::Room,
    tid: u64,
)
    requires stand { (most : ℕ) × AreLogs L.stands L.footprint L.limit most logs.old.items room.old }
    requires owned { (e : ℕ) × AreOwned L.content tid e touched.old.items logs.old.items room.old }
    ensures stand { (most : ℕ) → AreLogs L.stands L.footprint L.limit most logs.old.items room.old
        → AreLogs L.stands L.footprint L.limit most logs.new.items room.new }
    ensures count { length logs.new.items ≡ length logs.old.items }
    ensures undone { (n : ℕ) (d : L) → n < length logs.old.items
        → L.content (get_or logs.new.items n d) room.new
        ≡ with_undone tid (L.content (get_or logs.old.items n d) room.old) }
    ensures past { (e : ℕ) → AreOwned L.content tid e touched.old.items logs.old.items room.old
        → (n : ℕ) (d : L) → n < length logs.old.items
        → IsAllPast e (L.content (get_or logs.new.items n d) room.new) }
    ensures none_touched { touched.new.items ≡ [] }
    ensures blocks { (footprints_of L.footprint logs.new.items ≡ footprints_of L.footprint logs.old.items)
        × (L.blocks_out room.new ≡ L.blocks_out room.old) }
    ensures keeps_logs { KeepsLogs L.stands L.footprint L.content L.spare
        (footprints_of L.footprint logs.old.items) room.old room.new }
    ensures keeps_olds { KeepsOlds L.old_stands L.old_footprint L.old_content
        (footprints_of L.footprint logs.old.items) room.old room.new }
{
    while let Some(n) = touched.pop() {
        logs.at_mut(n as usize).undo(room, tid);
    }
}
