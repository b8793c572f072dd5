//! The rows that every form of an edge log meets, run through the trait's bound for logs over a vector and for logs in
//! blocks.

ghost use Rattle.std.specs.Prelude.{◌≡◌, ℕ, ◌<◌, ◌≤◌, length, Some, IfSome, IsSomeAnd};
ghost use Rattle.graph_model.specs.Payload.{payload_most};
ghost use Rattle.stamps.specs.Stamps.{Txn};
ghost use Rattle.stamps.specs.declared.stamp.Stamp.TheVariants.{Never};
ghost use Rattle.edge_log.specs.Contents.{with_appended, with_ended};
ghost use Rattle.edge_log.specs.Places.{newest_place, entry_at};

use crate::asserts::{holds, same};
use block_pool::Pool;
use edge_log::{EdgeLog, LogRefusal, Part, Place, PlainLog};
use graph_model::Payload;
use std::alloc::Global;
use std::process::Abort;
use std::test::Fail;
use tel_block::TelBlock;

// Makes room for an entry of this size and for an end stamp. Where the log moves, what it was is given back.
fn make_room<L: EdgeLog>(rt: &impl Abort, room: &mut L::Room, log: &mut L, size: u64)
    requires stands { L.stands log.old room.old }
    ensures stands { L.stands log.new room.new }
    ensures content { L.content log.new room.new ≡ L.content log.old room.old }
    ensures has_room { size ≤ L.spare log.new room.new }
    ensures may_end { L.may_end log.new }
{
    match log.prepare(room, size).expect(rt, "room for an entry") {
        None => {}
        Some(old) => L::release(room, old),
    }
}

// Appends an edge, with room made for it.
pub(super) fn put<L: EdgeLog>(
    rt: &impl Abort,
    alloc: Global,
    room: &mut L::Room,
    log: &mut L,
    tid: u64,
    d: u64,
    bytes: &[u8],
)
    requires stands { L.stands log.old room.old }
    requires short { length bytes.now ≤ payload_most }
    requires number { L.keeps_number tid }
    ensures stands { L.stands log.new room.new }
    ensures appended { L.content log.new room.new ≡ with_appended tid d bytes.now (L.content log.old room.old) }
{
    let payload = Payload::from_slice(alloc, bytes).expect(rt, "memory for a payload");
    make_room(rt, room, log, 28 + payload.len() as u64);
    log.append(room, tid, d, &payload);
}

// Ends the edge to `d` that the transaction sees.
fn end<L: EdgeLog>(rt: &impl Abort, room: &mut L::Room, log: &mut L, d: u64, read: u64, tid: u64)
    requires stands { L.stands log.old room.old }
    requires number { L.keeps_number tid }
    requires live { IfSome (newest_place (L.content log.old room.old).entries d read (Txn tid)) (λ place. IsSomeAnd (entry_at (L.content log.old room.old).entries place) (λ entry. entry.ended ≡ Never)) }
    ensures stands { L.stands log.new room.new }
    ensures ended { IfSome (newest_place (L.content log.old room.old).entries d read (Txn tid)) (λ place. L.content log.new room.new ≡ with_ended place tid (L.content log.old room.old)) }
{
    let place = log
        .find(room, d, read, tid)
        .expect(rt, "an edge that is seen");
    make_room(rt, room, log, 0);
    log.end_entry(room, place, tid);
}

// What is seen from the log's end or its committed end on is exactly this.
fn assert_shown<L: EdgeLog>(
    rt: &impl Abort,
    room: &L::Room,
    log: &L,
    read: u64,
    tid: u64,
    own: bool,
    part: &mut Part,
    edges: &[(u64, &[u8])],
)
    requires { L.stands log.now room.now }
{
    let next = log.part(room, log.cursor(own), read, tid, part);
    holds(rt, next.is_none());
    same(rt, part.pairs(), edges.len());
    for (i, (d, payload)) in edges.iter().enumerate() {
        same(rt, part.d(i), Some(*d));
        same(rt, part.p(i), Some(*payload));
    }
}

// A copy for this horizon has this many entries, and at the epoch `read` shows exactly these edges.
fn assert_copy<L: EdgeLog>(
    rt: &impl Abort,
    room: &mut L::Room,
    log: &L,
    horizon: u64,
    entries: u32,
    read: u64,
    part: &mut Part,
    edges: &[(u64, &[u8])],
)
    requires { L.stands log.now room.old }
    ensures { L.stands log.now room.new }
{
    let copy = log
        .copy_keeping(room, horizon)
        .expect(rt, "memory for a copy");
    same(rt, copy.cursor(false).below, entries);
    assert_shown(rt, room, &copy, read, 8, false, part, edges);
    L::release(room, copy.retire());
}

// An entry of this size is within the log's limit, or passes it.
fn assert_fits<L: EdgeLog>(rt: &impl Abort, room: &mut L::Room, log: &mut L, size: u64, fits: bool)
    requires { L.stands log.old room.old }
    ensures { L.stands log.new room.new }
{
    match log.prepare(room, size) {
        Ok(None) => holds(rt, fits),
        Ok(Some(old)) => {
            L::release(room, old);
            holds(rt, fits);
        }
        Err(refusal) => {
            holds(rt, !fits);
            same(rt, refusal, LogRefusal::LogFull);
        }
    }
}

fn each_snapshot_shows_its_entries<L: EdgeLog>(rt: &impl Abort, alloc: Global, room: &mut L::Room)
    requires number { (t : ℕ) → t < 10 → L.keeps_number t }
    requires epoch { (e : ℕ) → 0 < e → e < 10 → L.keeps_epoch e }
{
    let mut part = Part::new(alloc, Payload::MOST).expect(rt, "memory for a part");
    let mut log = L::start(alloc, room, 1, 5, 29, 1000).expect(rt, "a log");
    let first: &[(u64, &[u8])] = &[(7, &[]), (9, &[0xff])];
    let second: &[(u64, &[u8])] = &[(9, &[0]), (7, &[])];
    put(rt, alloc, room, &mut log, 5, 9, &[0xff]);
    put(rt, alloc, room, &mut log, 5, 7, &[]);
    log.convert(room, 5, 1);
    end(rt, room, &mut log, 9, 1, 6);
    put(rt, alloc, room, &mut log, 6, 9, &[0]);
    assert_shown(rt, room, &log, 1, 6, true, &mut part, second);
    log.convert(room, 6, 2);
    assert_shown(rt, room, &log, 1, 8, false, &mut part, first);
    assert_shown(rt, room, &log, 2, 8, false, &mut part, second);
    assert_copy(rt, room, &log, 1, 3, 1, &mut part, first);
    assert_copy(rt, room, &log, 2, 2, 2, &mut part, second);
    L::release(room, log.retire());
}

fn a_log_is_full_at_its_limit<L: EdgeLog>(rt: &impl Abort, alloc: Global, room: &mut L::Room)
    requires number { (t : ℕ) → t < 10 → L.keeps_number t }
{
    match L::start(alloc, room, 1, 5, 101, 100) {
        Ok(log) => {
            L::release(room, log.retire());
            assert!(rt; false, "an entry above the limit");
        }
        Err(refusal) => same(rt, refusal, LogRefusal::LogFull),
    }
    let mut log = L::start(alloc, room, 1, 5, 36, 100).expect(rt, "a log");
    put(rt, alloc, room, &mut log, 3, 9, &[1; 8]);
    put(rt, alloc, room, &mut log, 3, 7, &[2; 8]);
    assert_fits(rt, room, &mut log, 29, false);
    assert_fits(rt, room, &mut log, 28, true);
    L::release(room, log.retire());
}

fn undo_leaves_the_committed_entries<L: EdgeLog>(rt: &impl Abort, alloc: Global, room: &mut L::Room)
    requires number { (t : ℕ) → t < 10 → L.keeps_number t }
    requires epoch { (e : ℕ) → 0 < e → e < 10 → L.keeps_epoch e }
{
    let mut part = Part::new(alloc, Payload::MOST).expect(rt, "memory for a part");
    let mut log = L::start(alloc, room, 1, 5, 29, 1000).expect(rt, "a log");
    put(rt, alloc, room, &mut log, 3, 9, &[1]);
    log.convert(room, 3, 1);
    end(rt, room, &mut log, 9, 1, 4);
    put(rt, alloc, room, &mut log, 4, 9, &[2]);
    put(rt, alloc, room, &mut log, 4, 3, &[]);
    assert_shown(
        rt,
        room,
        &log,
        1,
        4,
        true,
        &mut part,
        &[(3, &[]), (9, &[2])],
    );
    log.undo(room, 4);
    let end = Place { below: 1, props: 1 };
    same(rt, log.cursor(true), end);
    same(rt, log.cursor(false), end);
    assert_shown(rt, room, &log, 1, 4, true, &mut part, &[(9, &[1])]);
    assert_shown(rt, room, &log, 5, 8, false, &mut part, &[(9, &[1])]);
    L::release(room, log.retire());
}

#[test]
fn each_snapshot_of_a_log_shows_its_entries(rt: HostRuntime) {
    each_snapshot_shows_its_entries::<PlainLog>(&rt, rt.alloc(), &mut ());
    each_snapshot_shows_its_entries::<TelBlock>(&rt, rt.alloc(), &mut Pool::new(rt.alloc()));
}

#[test]
fn a_log_of_either_form_is_full_at_its_limit(rt: HostRuntime) {
    a_log_is_full_at_its_limit::<PlainLog>(&rt, rt.alloc(), &mut ());
    a_log_is_full_at_its_limit::<TelBlock>(&rt, rt.alloc(), &mut Pool::new(rt.alloc()));
}

#[test]
fn undo_leaves_the_committed_entries_of_a_log(rt: HostRuntime) {
    undo_leaves_the_committed_entries::<PlainLog>(&rt, rt.alloc(), &mut ());
    undo_leaves_the_committed_entries::<TelBlock>(&rt, rt.alloc(), &mut Pool::new(rt.alloc()));
}
