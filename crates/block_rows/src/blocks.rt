//! The bytes and the sizes of blocks, as they are written down elsewhere.

ghost use Rattle.std.specs.Prelude.{IfSome};
ghost use Rattle.edge_log.specs.Places.{IsPlaceIn};
ghost use Rattle.tel_block.specs.Places.{content_of, StandsIn};

use crate::asserts::{holds, same};
use crate::logs::put;
use block_pool::Pool;
use edge_log::{EdgeLog, Part, Place};
use std::alloc::Global;
use std::process::Abort;
use tel_block::TelBlock;

// The bytes of the block in which a log lies.
fn bytes_of<'a>(room: &'a Pool, log: &TelBlock) -> &'a [u8]
    requires { StandsIn log.now room.now }
{
    room.bytes(log.block())
}

// The block of a log with the edges 9, with the payload ff, and 7 from epoch 1 on.
const FIRST_SCRIPT: [u8; 128] = [
    0, 0, 0, 0, 0, 0, 0, 1, 0, 5, 1, 0, 0, 0, 0, 0, 0, 0, 0, 1, 0, 0, 0, 2, 0, 0, 0, 1, 0, 0, 0, 0,
    0, 0, 0, 0, 0xff, 0, 0, 0, 0, 0, 0, 0, 0, 0, 0, 0, 0, 0, 0, 0, 0, 0, 0, 0, 0, 0, 0, 0, 0, 0, 0,
    0, 0, 0, 0, 0, 0, 0, 0, 0, 0, 0, 0, 0, 0, 0, 0, 7, 0, 0, 0, 0, 0, 0, 0, 1, 0, 0, 0, 0, 0, 0, 0,
    0, 0, 0, 0, 0, 0, 0, 0, 0, 0, 0, 0, 9, 0, 0, 0, 0, 0, 0, 0, 1, 0, 0, 0, 0, 0, 0, 0, 0, 0, 0, 0,
    1,
];

#[test]
fn the_first_commit_stands_in_its_block_byte_for_byte(rt: HostRuntime) {
    let mut room = Pool::new(rt.alloc());
    let mut log = TelBlock::start(rt.alloc(), &mut room, 1, 5, 29, 1000).expect(&rt, "a log");
    put(&rt, rt.alloc(), &mut room, &mut log, 2, 9, &[0xff]);
    put(&rt, rt.alloc(), &mut room, &mut log, 2, 7, &[]);
    log.convert(&mut room, 2, 1);
    same(&rt, bytes_of(&room, &log), FIRST_SCRIPT.as_slice());
}

// The order of the block of a log with so many entries without payloads.
fn order_of(entries: u64) -> u32 {
    match entries {
        0..=1 => 0,
        2..=3 => 1,
        4..=7 => 2,
        8..=15 => 3,
        16..=33 => 4,
        34..=67 => 5,
        68..=135 => 6,
        _ => 7,
    }
}

// The places of a destination in a filter of 4,096 bits.
fn places_of(d: u64) -> [usize; 3] {
    let x = d.wrapping_mul(0x9E37_79B9_7F4A_7C15);
    [
        (x >> 52) as usize,
        (x.rotate_left(21) >> 52) as usize,
        (x.rotate_left(42) >> 52) as usize,
    ]
}

// The filter of 4,096 bits that has the bits of the destinations from 1 to `last`.
fn filter_of(last: u64) -> [u8; 512] {
    let mut filter = [0; 512];
    for d in 1..=last {
        for place in places_of(d) {
            if let Some(byte) = filter.get_mut(place / 8) {
                *byte |= 1 << (place % 8);
            }
        }
    }
    filter
}

// Whether a filter has all three bits of a destination.
fn may_hold(filter: &[u8], d: u64) -> bool {
    places_of(d).iter().all(|place| match filter.get(place / 8) {
        Some(byte) => byte >> (place % 8) & 1 == 1,
        None => false,
    })
}

// The next part of a scan by the transaction 2, from the edge to `newest` on. Answers where to go on.
fn assert_part(
    rt: &impl Abort,
    room: &Pool,
    log: &TelBlock,
    place: Option<Place>,
    part: &mut Part,
    newest: u64,
    pairs: usize,
) -> Option<Place>
    requires stands { StandsIn log.now room.now }
    requires place { IfSome place (IsPlaceIn (content_of log.now room.now).entries) }
    ensures { IfSome result (IsPlaceIn (content_of log.now room.now).entries) }
{
    let place = place.expect(rt, "a place to go on from");
    let next = log.part(room, place, 0, 2, part);
    same(rt, part.d(0), Some(newest));
    same(rt, part.pairs(), pairs);
    next
}

// Whether a transaction sees an edge exactly where the destination was put, though the filter holds some others.
fn assert_found(rt: &impl Abort, room: &Pool, log: &TelBlock, filter: &[u8])
    requires { StandsIn log.now room.now }
{
    let mut held: u64 = 0;
    for d in 0..4000 {
        let found = log.find(room, d, 0, 2);
        if d == 0 || d > 200 {
            same(rt, found, None);
            if may_hold(filter, d) {
                held = held.saturating_add(1);
            }
        } else {
            same(rt, found, Some((d - 1) as u32));
            holds(rt, may_hold(filter, d));
        }
    }
    holds(rt, held > 0);
}

// Puts the edge to `d`, and asserts in which block the log lies then.
fn put_one(rt: &impl Abort, alloc: Global, room: &mut Pool, log: &mut TelBlock, d: u64)
    requires { StandsIn log.old room.old }
    ensures { StandsIn log.new room.new }
{
    put(rt, alloc, room, log, 2, d, &[]);
    let order = order_of(d);
    same(rt, log.block().order(), order);
    let flags = if order < 3 { 0 } else { 1 };
    same(rt, bytes_of(room, log).get(11), Some(&flags));
}

// Puts the edges to the destinations from 1 to 200.
fn put_each(rt: &impl Abort, alloc: Global, room: &mut Pool, log: &mut TelBlock)
    requires { StandsIn log.old room.old }
    ensures { StandsIn log.new room.new }
{
    for d in 1..201 {
        put_one(rt, alloc, room, log, d);
    }
}

#[test]
fn two_hundred_puts_move_through_eight_blocks(rt: HostRuntime) {
    let mut room = Pool::new(rt.alloc());
    let mut log = TelBlock::start(rt.alloc(), &mut room, 1, 5, 28, 1 << 30).expect(&rt, "a log");
    put_each(&rt, rt.alloc(), &mut room, &mut log);
    let filter = filter_of(200);
    same(
        &rt,
        bytes_of(&room, &log).get(36..548),
        Some(filter.as_slice()),
    );
    assert_found(&rt, &room, &log, &filter);
    let mut part = Part::new(rt.alloc(), 65535).expect(&rt, "memory for a part");
    let first = Some(log.cursor(true));
    let second = assert_part(&rt, &room, &log, first, &mut part, 200, 64);
    let third = assert_part(&rt, &room, &log, second, &mut part, 136, 64);
    let fourth = assert_part(&rt, &room, &log, third, &mut part, 72, 64);
    let end = assert_part(&rt, &room, &log, fourth, &mut part, 8, 8);
    same(&rt, end, None);
}
