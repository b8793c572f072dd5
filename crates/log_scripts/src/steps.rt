//! A step of a script on a log of any form.

ghost use Rattle.std.specs.Prelude.{◌≡◌, ℕ, ◌<◌, ◌≤◌, ◌^◌, IfOk, OnOk};
ghost use Rattle.edge_log.specs.Contents.{with_appended, with_converted, with_undone};
ghost use Rattle.log_scripts.specs.Owners.{IsOwned};
ghost use Rattle.log_scripts.specs.Leaving.{LeavesThose};

use crate::script::Step;
use edge_log::{EdgeLog, LogRefusal};
use graph_model::Payload;
use std::alloc::Global;
use std::process::Abort;

// Above the numbers of transactions and the epochs of scripts.
const NUMBERS: u64 = 1 << 32;

/// The transaction that changes a log, and the epoch at which it reads.
#[derive(Clone, Copy, Debug, PartialEq, Eq)]
pub(crate) struct Writer {
    pub(crate) tid: u64,
    pub(crate) read: u64,
}

/// How a step went.
#[derive(Clone, Copy, Debug, PartialEq, Eq)]
pub(crate) enum Answer {
    Added,
    Replaced,
    Gone,
    Absent,
    Refused(LogRefusal),
    Committed,
    Undone,
    OutOfTurn,
}

/// The bytes of a payload, which follow each other from `byte` on.
pub(crate) fn payload(rt: &impl Abort, alloc: Global, len: u16, byte: u8) -> Payload {
    let mut bytes = vec![in alloc; byte; usize::from(len)].expect(rt, "memory for bytes");
    let mut next = byte;
    for place in &mut bytes {
        *place = next;
        next = next.wrapping_add(1);
    }
    Payload::from_vec(bytes).expect(rt, "memory for a payload")
}

/// Makes room for an entry of this size and for an end stamp. Where the log moves, what it was is given back.
pub(crate) fn make_room<L: EdgeLog>(
    room: &mut L::Room,
    log: &mut L,
    size: u64,
) -> Result<(), LogRefusal>
    requires stands { L.stands log.old room.old }
    ensures stands { L.stands log.new room.new }
    ensures content { L.content log.new room.new ≡ L.content log.old room.old }
    ensures has_room { OnOk result (size ≤ L.spare log.new room.new) }
    ensures may_end { OnOk result (L.may_end log.new) }
    ensures leaves_logs { LeavesThose L.stands L.footprint L.content
        (L.footprint log.old) (L.footprint log.new) room.old room.new }
    ensures leaves_olds { LeavesThose L.old_stands L.old_footprint L.old_content
        (L.footprint log.old) (L.footprint log.new) room.old room.new }
{
    match log.prepare(room, size) {
        Ok(None) => Ok(()),
        Ok(Some(old)) => {
            L::release(room, old);
            Ok(())
        }
        Err(refusal) => Err(refusal),
    }
}

/// Ends the edge to `d` that the transaction sees, and answers whether there was one.
pub(crate) fn end_seen<L: EdgeLog>(room: &mut L::Room, log: &mut L, writer: Writer, d: u64) -> bool
    requires stands { L.stands log.old room.old }
    requires owned { IsOwned writer.read writer.tid (L.content log.old room.old) }
    requires may_end { L.may_end log.old }
    requires number { L.keeps_number writer.tid }
    ensures stands { L.stands log.new room.new }
    ensures owned { IsOwned writer.read writer.tid (L.content log.new room.new) }
    ensures room { L.spare log.new room.new ≡ L.spare log.old room.old }
    ensures leaves_logs { LeavesThose L.stands L.footprint L.content
        (L.footprint log.old) (L.footprint log.new) room.old room.new }
    ensures leaves_olds { LeavesThose L.old_stands L.old_footprint L.old_content
        (L.footprint log.old) (L.footprint log.new) room.old room.new }
{
    match log.find(room, d, writer.read, writer.tid) {
        None => false,
        Some(place) => {
            log.end_entry(room, place, writer.tid);
            true
        }
    }
}

/// Puts an edge, and ends the one to the same destination that it replaces.
pub(crate) fn put<L: EdgeLog>(
    room: &mut L::Room,
    log: &mut L,
    writer: Writer,
    d: u64,
    p: &Payload,
) -> Answer
    requires stands { L.stands log.old room.old }
    requires owned { IsOwned writer.read writer.tid (L.content log.old room.old) }
    requires number { L.keeps_number writer.tid }
    ensures stands { L.stands log.new room.new }
    ensures owned { IsOwned writer.read writer.tid (L.content log.new room.new) }
    ensures leaves_logs { LeavesThose L.stands L.footprint L.content
        (L.footprint log.old) (L.footprint log.new) room.old room.new }
    ensures leaves_olds { LeavesThose L.old_stands L.old_footprint L.old_content
        (L.footprint log.old) (L.footprint log.new) room.old room.new }
{
    if let Err(refusal) = make_room(room, log, 28 + p.len() as u64) {
        return Answer::Refused(refusal);
    }
    let replaced = end_seen(room, log, writer, d);
    log.append(room, writer.tid, d, p);
    if replaced {
        Answer::Replaced
    } else {
        Answer::Added
    }
}

/// Deletes the edge to `d` that the transaction sees.
pub(crate) fn del<L: EdgeLog>(room: &mut L::Room, log: &mut L, writer: Writer, d: u64) -> Answer
    requires stands { L.stands log.old room.old }
    requires owned { IsOwned writer.read writer.tid (L.content log.old room.old) }
    requires number { L.keeps_number writer.tid }
    ensures stands { L.stands log.new room.new }
    ensures owned { IsOwned writer.read writer.tid (L.content log.new room.new) }
    ensures leaves_logs { LeavesThose L.stands L.footprint L.content
        (L.footprint log.old) (L.footprint log.new) room.old room.new }
    ensures leaves_olds { LeavesThose L.old_stands L.old_footprint L.old_content
        (L.footprint log.old) (L.footprint log.new) room.old room.new }
{
    if let Err(refusal) = make_room(room, log, 0) {
        return Answer::Refused(refusal);
    }
    if end_seen(room, log, writer, d) {
        Answer::Gone
    } else {
        Answer::Absent
    }
}

/// Commits what the transaction did, at this epoch. The next transaction begins.
pub(crate) fn commit<L: EdgeLog>(room: &mut L::Room, log: &mut L, writer: &mut Writer, epoch: u64)
    requires stands { L.stands log.old room.old }
    requires owned { IsOwned writer.old.read writer.old.tid (L.content log.old room.old) }
    requires later { writer.old.read < epoch }
    requires epoch { L.keeps_epoch epoch }
    ensures stands { L.stands log.new room.new }
    ensures owned { IsOwned writer.new.read writer.new.tid (L.content log.new room.new) }
    ensures leaves_logs { LeavesThose L.stands L.footprint L.content
        (L.footprint log.old) (L.footprint log.new) room.old room.new }
    ensures leaves_olds { LeavesThose L.old_stands L.old_footprint L.old_content
        (L.footprint log.old) (L.footprint log.new) room.old room.new }
{
    log.convert(room, writer.tid, epoch);
    writer.tid = writer.tid.saturating_add(1);
    writer.read = epoch;
}

/// Gives up what the transaction did. The next transaction begins.
pub(crate) fn undo<L: EdgeLog>(room: &mut L::Room, log: &mut L, writer: &mut Writer)
    requires stands { L.stands log.old room.old }
    requires owned { IsOwned writer.old.read writer.old.tid (L.content log.old room.old) }
    ensures stands { L.stands log.new room.new }
    ensures owned { IsOwned writer.new.read writer.new.tid (L.content log.new room.new) }
    ensures leaves_logs { LeavesThose L.stands L.footprint L.content
        (L.footprint log.old) (L.footprint log.new) room.old room.new }
    ensures leaves_olds { LeavesThose L.old_stands L.old_footprint L.old_content
        (L.footprint log.old) (L.footprint log.new) room.old room.new }
{
    log.undo(room, writer.tid);
    writer.tid = writer.tid.saturating_add(1);
}

/// Does a step. One of a transaction or at an epoch that no script has is out of turn, and does nothing.
pub(crate) fn apply<L: EdgeLog>(
    rt: &impl Abort,
    alloc: Global,
    room: &mut L::Room,
    log: &mut L,
    writer: &mut Writer,
    step: Step,
) -> Answer
    requires stands { L.stands log.old room.old }
    requires owned { IsOwned writer.old.read writer.old.tid (L.content log.old room.old) }
    requires numbers { (n : ℕ) → n < 2 ^ 32 → L.keeps_number n }
    requires epochs { (n : ℕ) → 0 < n → n < 2 ^ 32 → L.keeps_epoch n }
    ensures stands { L.stands log.new room.new }
    ensures owned { IsOwned writer.new.read writer.new.tid (L.content log.new room.new) }
    ensures leaves_logs { LeavesThose L.stands L.footprint L.content
        (L.footprint log.old) (L.footprint log.new) room.old room.new }
    ensures leaves_olds { LeavesThose L.old_stands L.old_footprint L.old_content
        (L.footprint log.old) (L.footprint log.new) room.old room.new }
{
    if writer.tid >= NUMBERS {
        return Answer::OutOfTurn;
    }
    match step {
        Step::Put { d, len, byte } => {
            let p = payload(rt, alloc, len, byte);
            put(room, log, *writer, d, &p)
        }
        Step::Del { d } => del(room, log, *writer, d),
        Step::Commit { epoch } => {
            if epoch <= writer.read || epoch >= NUMBERS {
                return Answer::OutOfTurn;
            }
            commit(room, log, writer, epoch);
            Answer::Committed
        }
        Step::Undo => {
            undo(room, log, writer);
            Answer::Undone
        }
    }
}
