//! The work through the calls of an edge log, over a log in a pool of blocks.

ghost use Rattle.std.specs.Prelude.{◌≡◌, ◌+◌, ◌<◌, ◌≤◌, ◌^◌, length, IfOk, IfSome, IsTrue};
ghost use Rattle.edge_log.specs.Places.{IsPlaceIn};
ghost use Rattle.tel_block.specs.Places.{StandsIn};

use crate::work::{sum_of, wanted};
use block_pool::Pool;
use edge_log::{EdgeLog, Part};
use graph_model::Payload;
use std::alloc::Global;
use tel_block::TelBlock;

/// The limit on the sum of the entries' sizes.
const MOST: u64 = 1 << 30;

// How much an edge with a payload takes.
fn size_of(p: &Payload) -> u64
    ensures { result ≡ 28 + length p.now }
{
    28 + p.len() as u64
}

// Makes room for an entry of this size, where that can be. Where the log moves, its old block is given back.
fn make_room<L: EdgeLog>(room: &mut L::Room, log: &mut L, size: u64) -> bool
    requires { L.stands log.old room.old }
    ensures stands { L.stands log.new room.new }
    ensures has_room { IsTrue result → size ≤ L.spare log.new room.new }
{
    match log.prepare(room, size) {
        Err(_) => false,
        Ok(None) => true,
        Ok(Some(old)) => {
            L::release(room, old);
            true
        }
    }
}

// Appends an edge, where there can be room for it.
fn put<L: EdgeLog>(room: &mut L::Room, log: &mut L, d: u64, p: &Payload) -> bool
    requires stands { L.stands log.old room.old }
    requires number { L.keeps_number 1 }
    ensures { L.stands log.new room.new }
{
    let may = make_room(room, log, size_of(p));
    if may {
        log.append(room, 1, d, p);
    }
    may
}

// Appends edges to the destinations from 0 on, each with the same payload; false where there is no room for all.
fn put_all<L: EdgeLog>(room: &mut L::Room, log: &mut L, edges: u32, p: &Payload) -> bool
    requires stands { L.stands log.old room.old }
    requires number { L.keeps_number 1 }
    ensures { L.stands log.new room.new }
{
    for d in 0..edges {
        if !put(room, log, u64::from(d), p) {
            return false;
        }
    }
    true
}

// A new log of these edges, in a block with room for so many bytes at first; none where there is no room.
fn log_of(alloc: Global, room: &mut Pool, first: u64, edges: u32, p: &Payload) -> Option<TelBlock>
    ensures { IfSome result (λ log. StandsIn log room.new) }
{
    let mut log = TelBlock::start(alloc, room, 1, 2, first, MOST).ok()?;
    if put_all(room, &mut log, edges, p) {
        Some(log)
    } else {
        None
    }
}

// Begins a log and appends edges to it, and gives its block back.
fn append(alloc: Global, room: &mut Pool, first: u64, edges: u32, p: &Payload) -> Option<u64> {
    let log = log_of(alloc, room, first, edges, p)?;
    let order = log.block().order();
    TelBlock::release(room, log.retire());
    Some(
        u64::from(edges)
            .wrapping_mul(p.len() as u64)
            .wrapping_add(u64::from(order)),
    )
}

/// Appends edges to a new log, which grows as its block becomes full, so often; none where memory runs out.
pub fn double_all(alloc: Global, edges: u32, p: &Payload, rounds: u64) -> Option<u64> {
    let mut room = Pool::new(alloc);
    let mut sum = 0u64;
    for _round in 0..rounds {
        sum = sum.wrapping_add(append(alloc, &mut room, size_of(p), edges, p)?);
    }
    Some(sum)
}

// Looks for each of these destinations, so often.
fn find_all(room: &Pool, log: &TelBlock, ds: &[u64], rounds: u64) -> u64
    requires { StandsIn log.now room.now }
{
    let mut sum = 0u64;
    for _round in 0..rounds {
        for d in ds {
            let place = log.find(room, *d, 5, 9);
            sum = sum.wrapping_add(u64::from(place.unwrap_or(1)));
        }
    }
    sum
}

/// Looks for destinations that no edge of a log leads to, so often: those that the filter denies alone, or all; none
/// where memory runs out.
pub fn find_absent(
    alloc: Global,
    edges: u32,
    p: &Payload,
    denied: bool,
    rounds: u64,
) -> Option<u64> {
    let mut room = Pool::new(alloc);
    let log = log_of(alloc, &mut room, size_of(p), edges, p)?;
    let order = log.block().order() as u8;
    let bytes = room.bytes(log.block());
    let ds = wanted(alloc, bytes, order, u64::from(edges), denied)?;
    Some(find_all(&room, &log, &ds, rounds))
}
