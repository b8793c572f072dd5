//! What a caller can conclude of a log over many calls, some of which fail, by the clauses of the calls alone.

ghost use Rattle.std.specs.Prelude.{◌≡◌, ◌<◌, ℕ, List, [], ◌++◌, length, IfSome};
ghost use Rattle.graph_model.specs.declared.record.Record.{Record};
ghost use Rattle.graph_model.specs.Records.{Lawful};
ghost use Rattle.disk_model.specs.Memory.{bytes_of};
ghost use Rattle.group_codec.specs.Log.{Recovers};
ghost use Rattle.group_commit.specs.Members.{records_at};
ghost use Rattle.graph_wal.specs.Log.{IsWhole};
ghost use Rattle.graph_wal.specs.Pieces.{AreWithin};
ghost use Rattle.graph_wal.specs.Story.{IsKnown};

use crate::Wal;
use disk_model::{Disk, MemDisk};
use group_commit::Group;

/// The bytes of a log that are as many as its durable length are its text, with nothing behind the last gate.
pub fn a_log_without_a_rest_is_whole()
    ensures { (bytes : List ℕ) (records : List Record) (durable : ℕ) →
        Recovers bytes records durable → length bytes ≡ durable → IsWhole records bytes }
{}

/// A disk with a log, and the moments at which it was made, at which its first group was durable, and its last.
#[derive(Drop)]
pub struct Story {
    pub disk: MemDisk,
    pub made: u64,
    pub first: u64,
    pub last: u64,
}

/// Makes a log on an empty disk, appends a group, then one whose append fails, then one in its place, and mends.
/// None where a call goes another way.
pub fn a_failed_append_is_replaced(
    disk: MemDisk,
    first: &Group,
    failing: &Group,
    last: &Group,
) -> Option<Story>
    requires empty { bytes_of disk ≡ [] }
    requires members { (0 < length first.now) × (0 < length failing.now) × (0 < length last.now) }
    requires within { AreWithin first.now × AreWithin failing.now × AreWithin last.now }
    requires first { Lawful (records_at 1 first.now) }
    requires failing { Lawful (records_at 1 first.now ++ records_at 2 failing.now) }
    requires last { Lawful (records_at 1 first.now ++ records_at 2 last.now) }
    ensures { IfSome result (λ s. IsKnown s.disk s.made s.first s.last
        (records_at 1 first.now) (records_at 2 failing.now) (records_at 2 last.now)) }
{
    let wal = match Wal::make(disk) {
        Ok(wal) => wal,
        Err(_) => return None,
    };
    let disk = wal.into_disk();
    let made = disk.moment();
    let mut wal = Wal::adopt(disk, 9);
    let first_at = match wal.append_group(1, first) {
        Ok(moment) => moment,
        Err(_) => return None,
    };
    match wal.append_group(2, failing) {
        Ok(_) => return None,
        Err(_) => {}
    }
    let last_at = match wal.append_group(2, last) {
        Ok(moment) => moment,
        Err(_) => return None,
    };
    match wal.mend() {
        Ok(()) => {}
        Err(_) => return None,
    }
    Some(Story {
        disk: wal.into_disk(),
        made,
        first: first_at,
        last: last_at,
    })
}
