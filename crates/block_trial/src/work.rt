//! The kinds of work.

ghost use Rattle.std.specs.Prelude.{◌≡◌, ◌+◌, ◌*◌, ◌^◌, ◌<◌, ◌≤◌, length, IfSome};
ghost use Rattle.block_layout.specs.Sizes.{order_most, block_len};
ghost use Rattle.block_trial.specs.Logs.{needed, IsLog, HasPastPlace};

use crate::logs::{READ, append_edges, is_past, one_more};
use block_layout::{FILTER_ORDER, HEADER, filter_len, props_start};
use block_reading::part_of_past;
use block_writing::{Fill, append_entry, begin_block, convert};
use byteorder::{BigEndian, ByteOrder};
use edge_bloom::may_hold;
use edge_log::{Part, Place};
use std::alloc::Global;

/// The sum of the destinations in a part, and of its payloads as numbers.
#[inline(always)]
pub fn sum_of(out: &Part) -> u64 {
    let mut sum = 0u64;
    for i in 0..out.pairs() {
        if let Some(d) = out.d(i) {
            sum = sum.wrapping_add(d);
        }
        if let Some(p) = out.p(i) {
            sum = sum.wrapping_add(number(p));
        }
    }
    sum
}

// A payload as a number: of 8 bytes as such, any other as its length.
#[inline(always)]
fn number(p: &[u8]) -> u64 {
    if p.len() == 8 {
        BigEndian::read_u64(p)
    } else {
        p.len() as u64
    }
}

// The sum of what one scan takes.
fn scan(block: &[u8], start: usize, from: Place, out: &mut Part) -> u64
    requires { HasPastPlace start from block.now }
{
    let mut sum = 0u64;
    let mut next = Some(from);
    for _part in 0..from.below {
        let Some(place) = next else {
            return sum;
        };
        next = part_of_past(block, start, place, READ, 9, out);
        sum = sum.wrapping_add(sum_of(out));
    }
    sum
}

// Scans a block in parts, so often.
fn scan_all(block: &[u8], start: usize, from: Place, out: &mut Part, rounds: u64) -> u64
    requires { HasPastPlace start from block.now }
{
    let mut sum = 0u64;
    for _round in 0..rounds {
        sum = sum.wrapping_add(scan(block, start, from, out));
    }
    sum
}

/// Scans a log in parts, so often, as a log in a block does whose commits are all of the past; none where there is no
/// memory for a part, or they are not.
pub fn scan_log(alloc: Global, block: &[u8], order: u8, fill: Fill, rounds: u64) -> Option<u64>
    requires small { order ≤ order_most }
    requires log { IsLog order fill.entries fill.props block.now }
{
    if !is_past(block, fill.entries) {
        return None;
    }
    let mut out = Part::new(alloc, 65535).ok()?;
    let from = Place {
        below: fill.entries,
        props: fill.props,
    };
    Some(scan_all(block, props_start(order), from, &mut out, rounds))
}

// Whether the filter of a block says that a destination is not there.
fn is_denied(block: &[u8], order: u8, d: u64) -> bool
    requires small { order ≤ order_most }
    requires long { length block.now ≡ block_len order }
{
    order >= FILTER_ORDER && !may_hold(&block[HEADER..HEADER + filter_len(order)], d)
}

/// 4,096 destinations from `first` on: those that the filter of a block denies alone, or all; none where memory runs out.
pub fn wanted(alloc: Global, block: &[u8], order: u8, first: u64, denied: bool) -> Option<Vec<u64>>
    requires small { order ≤ order_most }
    requires long { length block.now ≡ block_len order }
{
    let mut ds = Vec::with_capacity(alloc, 4096).ok()?;
    for i in 0..1_000_000u64 {
        let d = first.wrapping_add(i);
        if ds.len() < 4096 && (!denied || is_denied(block, order, d)) {
            ds.push(d).ok()?;
        }
    }
    Some(ds)
}

/// Begins a block and appends edges to it, so often.
pub fn append_all(block: &mut [u8], order: u8, edges: u32, p: &[u8], rounds: u64) -> u64
    requires small { order ≤ order_most }
    requires room { needed order edges ≤ length block.old }
    requires payload { length p.now ≤ 8 }
    requires long { length block.old ≡ block_len order }
    requires few { edges < 2 ^ 26 }
{
    let mut sum = 0u64;
    for _round in 0..rounds {
        begin_block(block, 1, 2, order, 0);
        let fill = append_edges(block, order, edges, p);
        sum = sum.wrapping_add(u64::from(fill.props));
    }
    sum
}

/// Appends an edge at the same place, and commits it where that is asked for, so often.
pub fn again(block: &mut [u8], order: u8, fill: Fill, p: &[u8], rounds: u64, commits: bool)
    requires small { order ≤ order_most }
    requires room { needed order (fill.entries + 1) ≤ length block.old }
    requires payload { length p.now ≤ 8 }
    requires few { fill.entries < 2 ^ 26 }
    requires props { fill.props ≤ 8 * fill.entries }
{
    let after = one_more(fill, p);
    for i in 0..rounds {
        append_entry(block, order, fill, 1, i % 1024, p);
        if commits {
            convert(block, fill.entries, after, &[], 1, 1);
        }
    }
}
