//! Two logs and what one of them has left, in one room: a call on one leaves the others as they were.

ghost use Rattle.std.specs.Prelude.{◌≡◌, ℕ, ◌<◌, ◌≤◌, ◌^◌};
ghost use Rattle.edge_log.specs.Places.{IsPlaceIn};
ghost use Rattle.edge_log.specs.Rooms.{AreApart};
ghost use Rattle.log_scripts.specs.Owners.{IsOwned};

use crate::asserts::same;
use crate::readings::{Notes, note_all, note_old, readers};
use crate::script::{Step, generated};
use crate::steps::{Writer, apply};
use block_pool::{Block, Pool};
use edge_log::{EdgeLog, Part, Place};
use graph_model::Payload;
use std::alloc::Global;
use std::process::Abort;
use std::test::Fail;
use tel_block::TelBlock;

// The sizes of a log's entries are at most this together.
const MOST: u64 = 1 << 20;

// What all readers see of a log.
fn seen_of<L: EdgeLog>(
    rt: &impl Abort,
    alloc: Global,
    room: &L::Room,
    log: &L,
    writer: Writer,
) -> Notes
    requires { L.stands log.now room.now }
{
    let mut part = Part::new(alloc, Payload::MOST).expect(rt, "memory for a part");
    let mut notes = Notes::new(alloc);
    note_all(room, log, &readers(writer), &mut part, &mut notes).expect(rt, "memory for notes");
    notes
}

// What all readers see of an Old, from this place down.
fn old_seen_of<L: EdgeLog>(
    rt: &impl Abort,
    alloc: Global,
    room: &L::Room,
    old: &L::Old,
    from: Place,
    writer: Writer,
) -> Notes
    requires stands { L.old_stands old.now room.now }
    requires place { IsPlaceIn (L.old_content old.now room.now).entries from }
{
    let mut part = Part::new(alloc, Payload::MOST).expect(rt, "memory for a part");
    let mut notes = Notes::new(alloc);
    note_old::<L>(room, old, from, &readers(writer), &mut part, &mut notes).expect(
        rt,
        "memory for notes",
    );
    notes
}

// An empty log in the room of another.
fn start_beside<L: EdgeLog>(
    rt: &impl Abort,
    alloc: Global,
    room: &mut L::Room,
    other: &L,
    v: u64,
    size: u64,
) -> L
    requires { L.stands other.now room.old }
    ensures stands { L.stands result room.new }
    ensures owned { IsOwned 0 1 (L.content result room.new) }
    ensures other { L.stands other.now room.new }
    ensures content { L.content other.now room.new ≡ L.content other.now room.old }
    ensures apart { AreApart (L.footprint other.now) (L.footprint result) }
{
    L::start(alloc, room, v, 5, size, MOST).expect(rt, "a log")
}

// Makes a log move beside another, and answers what it was, and where a scan of that begins.
fn moved_out<L: EdgeLog>(
    rt: &impl Abort,
    room: &mut L::Room,
    log: &mut L,
    size: u64,
    other: &L,
) -> (L::Old, Place)
    requires stands { L.stands log.old room.old }
    requires other { L.stands other.now room.old }
    requires apart { AreApart (L.footprint log.old) (L.footprint other.now) }
    ensures stands { L.stands log.new room.new }
    ensures content { L.content log.new room.new ≡ L.content log.old room.old }
    ensures other { L.stands other.now room.new }
    ensures other_content { L.content other.now room.new ≡ L.content other.now room.old }
    ensures old { L.old_stands result.0 room.new }
    ensures place { IsPlaceIn (L.old_content result.0 room.new).entries result.1 }
    ensures apart { AreApart (L.footprint log.new) (L.footprint other.now) }
    ensures old_apart { AreApart (L.footprint log.new) (L.old_footprint result.0) }
    ensures other_apart { AreApart (L.footprint other.now) (L.old_footprint result.0) }
{
    let moved = log.prepare(room, size).expect(rt, "room for an entry");
    let old = moved.expect(rt, "a log that moves");
    (old, log.cursor(true))
}

// Does each step on a log.
fn run_alone<L: EdgeLog>(
    rt: &impl Abort,
    alloc: Global,
    room: &mut L::Room,
    log: &mut L,
    writer: &mut Writer,
    steps: &[Step],
)
    requires stands { L.stands log.old room.old }
    requires owned { IsOwned writer.old.read writer.old.tid (L.content log.old room.old) }
    requires numbers { (n : ℕ) → n < 2 ^ 32 → L.keeps_number n }
    requires epochs { (n : ℕ) → 0 < n → n < 2 ^ 32 → L.keeps_epoch n }
    ensures stands { L.stands log.new room.new }
    ensures owned { IsOwned writer.new.read writer.new.tid (L.content log.new room.new) }
{
    for step in steps {
        apply(rt, alloc, room, log, writer, *step);
    }
}

// Does a step on one log, and looks at the other and at the Old before and after.
fn step_beside<L: EdgeLog>(
    rt: &impl Abort,
    alloc: Global,
    room: &mut L::Room,
    log: &mut L,
    writer: &mut Writer,
    step: Step,
    other: &L,
    old: &L::Old,
    from: Place,
)
    requires stands { L.stands log.old room.old }
    requires owned { IsOwned writer.old.read writer.old.tid (L.content log.old room.old) }
    requires other { L.stands other.now room.old }
    requires old { L.old_stands old.now room.old }
    requires place { IsPlaceIn (L.old_content old.now room.old).entries from }
    requires apart { AreApart (L.footprint log.old) (L.footprint other.now) }
    requires old_apart { AreApart (L.footprint log.old) (L.old_footprint old.now) }
    requires numbers { (n : ℕ) → n < 2 ^ 32 → L.keeps_number n }
    requires epochs { (n : ℕ) → 0 < n → n < 2 ^ 32 → L.keeps_epoch n }
    ensures stands { L.stands log.new room.new }
    ensures owned { IsOwned writer.new.read writer.new.tid (L.content log.new room.new) }
    ensures other { L.stands other.now room.new }
    ensures content { L.content other.now room.new ≡ L.content other.now room.old }
    ensures old { L.old_stands old.now room.new }
    ensures place { IsPlaceIn (L.old_content old.now room.new).entries from }
    ensures apart { AreApart (L.footprint log.new) (L.footprint other.now) }
    ensures other_apart { AreApart (L.footprint other.now) (L.footprint log.new) }
    ensures old_apart { AreApart (L.footprint log.new) (L.old_footprint old.now) }
{
    let reader = *writer;
    let other_seen = seen_of(rt, alloc, room, other, reader);
    let old_seen = old_seen_of::<L>(rt, alloc, room, old, from, reader);
    apply(rt, alloc, room, log, writer, step);
    let other_after = seen_of(rt, alloc, room, other, reader);
    let old_after = old_seen_of::<L>(rt, alloc, room, old, from, reader);
    same(rt, other_after.as_slice(), other_seen.as_slice());
    same(rt, old_after.as_slice(), old_seen.as_slice());
}

// Does each step on both logs, one after the other.
fn run_beside<L: EdgeLog>(
    rt: &impl Abort,
    alloc: Global,
    room: &mut L::Room,
    left: &mut L,
    left_writer: &mut Writer,
    right: &mut L,
    right_writer: &mut Writer,
    old: &L::Old,
    from: Place,
    steps: &[Step],
)
    requires left { L.stands left.old room.old }
    requires right { L.stands right.old room.old }
    requires left_owned { IsOwned left_writer.old.read left_writer.old.tid (L.content left.old room.old) }
    requires right_owned { IsOwned right_writer.old.read right_writer.old.tid (L.content right.old room.old) }
    requires old { L.old_stands old.now room.old }
    requires place { IsPlaceIn (L.old_content old.now room.old).entries from }
    requires apart { AreApart (L.footprint left.old) (L.footprint right.old) }
    requires left_apart { AreApart (L.footprint left.old) (L.old_footprint old.now) }
    requires right_apart { AreApart (L.footprint right.old) (L.old_footprint old.now) }
    requires numbers { (n : ℕ) → n < 2 ^ 32 → L.keeps_number n }
    requires epochs { (n : ℕ) → 0 < n → n < 2 ^ 32 → L.keeps_epoch n }
    ensures left { L.stands left.new room.new }
    ensures right { L.stands right.new room.new }
    ensures old { L.old_stands old.now room.new }
    ensures left_apart { AreApart (L.footprint left.new) (L.old_footprint old.now) }
    ensures right_apart { AreApart (L.footprint right.new) (L.old_footprint old.now) }
{
    for step in steps {
        step_beside(rt, alloc, room, left, left_writer, *step, right, old, from);
        step_beside(rt, alloc, room, right, right_writer, *step, left, old, from);
    }
}

// Gives the block of an Old back, and looks at both logs before and after.
fn give_back<L: EdgeLog>(
    rt: &impl Abort,
    alloc: Global,
    room: &mut L::Room,
    old: L::Old,
    left: &L,
    right: &L,
)
    requires left { L.stands left.now room.old }
    requires right { L.stands right.now room.old }
    requires old { L.old_stands old room.old }
    requires left_apart { AreApart (L.footprint left.now) (L.old_footprint old) }
    requires right_apart { AreApart (L.footprint right.now) (L.old_footprint old) }
    ensures left { L.stands left.now room.new }
    ensures right { L.stands right.now room.new }
{
    let left_seen = seen_of(rt, alloc, room, left, LATER);
    let right_seen = seen_of(rt, alloc, room, right, LATER);
    L::release(room, old);
    let left_after = seen_of(rt, alloc, room, left, LATER);
    let right_after = seen_of(rt, alloc, room, right, LATER);
    same(rt, left_after.as_slice(), left_seen.as_slice());
    same(rt, right_after.as_slice(), right_seen.as_slice());
}

// How many steps both logs do.
const STEPS: u32 = 60;

// A reader after all of them.
const LATER: Writer = Writer {
    tid: 1000,
    read: 1000,
};

// What a log has when it moves: three edges, of which one is private.
const FIRST: [Step; 4] = [
    Step::Put {
        d: 3,
        len: 5,
        byte: 10,
    },
    Step::Put {
        d: 4,
        len: 7,
        byte: 20,
    },
    Step::Commit { epoch: 1 },
    Step::Put {
        d: 5,
        len: 0,
        byte: 0,
    },
];

// Which block it is.
fn name_of(block: &Block) -> (u32, u32, u32) {
    (block.chunk(), block.start(), block.order())
}

#[test]
fn a_call_on_one_log_leaves_the_others_in_its_pool_as_they_were(
    rt: HostRuntime,
) -> Result<(), Fail> {
    let alloc = rt.alloc();
    let mut pool = Pool::new(alloc);
    let mut left = TelBlock::start(alloc, &mut pool, 1, 5, 200, MOST).expect(&rt, "a log");
    let mut left_writer = Writer { tid: 1, read: 0 };
    run_alone(&rt, alloc, &mut pool, &mut left, &mut left_writer, &FIRST);
    let mut right = start_beside(&rt, alloc, &mut pool, &left, 2, 28);
    let mut right_writer = Writer { tid: 1, read: 0 };
    let (old, from) = moved_out(&rt, &mut pool, &mut left, 1000, &right);
    same(
        &rt,
        from,
        Place {
            below: 3,
            props: 12,
        },
    );
    let steps = generated(alloc, 7, STEPS)?;
    run_beside(
        &rt,
        alloc,
        &mut pool,
        &mut left,
        &mut left_writer,
        &mut right,
        &mut right_writer,
        &old,
        from,
        &steps,
    );
    assert!(rt; right.block().order() > 4, "the logs move");
    let block = name_of(old.block());
    give_back::<TelBlock>(&rt, alloc, &mut pool, old, &left, &right);
    let next = start_beside(&rt, alloc, &mut pool, &left, 3, 200);
    same(&rt, name_of(next.block()), block);
    Ok(())
}
