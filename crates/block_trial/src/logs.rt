//! The block of a log, as the work begins with it.

ghost use Rattle.std.specs.Prelude.{◌≡◌, ℕ, ◌+◌, ◌*◌, ◌^◌, ◌<◌, ◌≤◌, List, length, IfSome, IsTrue};
ghost use Rattle.edge_log.specs.Entries.{Entry as LogEntry};
ghost use Rattle.tel_entry.specs.Layouts.{entry_len, header_len};
ghost use Rattle.tel_entry.specs.RawStamps.{private_from};
ghost use Rattle.block_layout.specs.Sizes.{order_most, block_len};
ghost use Rattle.block_layout.specs.Blocks.{HoldsEntries};
ghost use Rattle.block_reading.specs.Past.{ArePast, IsPastRow};
ghost use Rattle.block_trial.specs.Logs.{needed, IsLog};

use crate::room::block_len;
use block_reading::entry_at;
use block_writing::{Fill, append_entry, begin_block, convert, end_entry};
use std::alloc::Global;
use tel_entry::Entry;

/// The epoch at which a log is read.
pub const READ: u64 = 5;

/// A block without entries of an order; none where memory runs out.
pub fn empty_block(alloc: Global, order: u8) -> Option<Vec<u8>>
    requires { order ≤ order_most }
    ensures long { IfSome result (λ block. length block.items ≡ block_len order) }
    ensures log { IfSome result (λ block. IsLog order 0 0 block.items) }
{
    let Ok(mut block) = vec![in alloc; 0u8; block_len(order)] else {
        return None;
    };
    begin_block(&mut block, 1, 2, order, 0);
    Some(block)
}

/// How much stands in a block with an edge more.
#[inline(always)]
pub fn one_more(fill: Fill, p: &[u8]) -> Fill
    requires entries { fill.entries + 1 < 2 ^ 32 }
    requires props { fill.props + length p.now < 2 ^ 32 }
    ensures entries { result.entries ≡ fill.entries + 1 }
    ensures props { result.props ≡ fill.props + length p.now }
{
    Fill {
        entries: fill.entries + 1,
        props: fill.props + p.len() as u32,
    }
}

/// Appends edges to the destinations from 0 on, each with the same payload, to a block without entries.
pub fn append_edges(block: &mut [u8], order: u8, edges: u32, p: &[u8]) -> Fill
    requires small { order ≤ order_most }
    requires room { needed order edges ≤ length block.old }
    requires payload { length p.now ≤ 8 }
    requires few { edges < 2 ^ 26 }
    ensures entries { result.entries ≡ edges }
    ensures props { result.props ≤ 8 * edges }
    ensures appended { IsLog order 0 0 block.old → IsLog order result.entries result.props block.new }
{
    let mut fill = Fill {
        entries: 0,
        props: 0,
    };
    for d in 0..edges {
        append_entry(block, order, fill, 1, u64::from(d), p);
        fill = one_more(fill, p);
    }
    fill
}

/// Commits what is private to a transaction.
pub fn commit(block: &mut [u8], order: u8, fill: Fill, tid: u64, epoch: u64)
    requires rows { entry_len * fill.entries ≤ length block.old }
    requires header { header_len ≤ length block.old }
    requires number { tid < private_from }
    requires epoch { (0 < epoch) × (epoch < private_from) }
    ensures { IsLog order fill.entries fill.props block.old → IsLog order fill.entries fill.props block.new }
{
    convert(block, 0, fill, &[], tid, epoch);
}

/// Ends the edges of half of the places, privately to the transaction 2, in no order that is easily foretold.
pub fn end_half(block: &mut [u8], order: u8, fill: Fill)
    requires rows { entry_len * fill.entries ≤ length block.old }
    ensures { IsLog order fill.entries fill.props block.old → IsLog order fill.entries fill.props block.new }
{
    for place in 0..fill.entries {
        if u64::from(place).wrapping_mul(0x9E37_79B9_7F4A_7C15) >> 63 == 1 {
            end_row(block, order, fill, place);
        }
    }
}

// Ends the edge of a place.
#[inline(always)]
fn end_row(block: &mut [u8], order: u8, fill: Fill, place: u32)
    requires there { place < fill.entries }
    requires rows { entry_len * fill.entries ≤ length block.old }
    ensures { IsLog order fill.entries fill.props block.old → IsLog order fill.entries fill.props block.new }
{
    end_entry(block, place, 2);
}

/// Makes a log of edges in a block without entries: committed, and about half of them ended where that is asked for.
pub fn fill_block(block: &mut [u8], order: u8, edges: u32, p: &[u8], half: bool) -> Fill
    requires small { order ≤ order_most }
    requires room { needed order edges ≤ length block.old }
    requires payload { length p.now ≤ 8 }
    requires few { edges < 2 ^ 26 }
    ensures entries { result.entries ≡ edges }
    ensures props { result.props ≤ 8 * edges }
    ensures filled { IsLog order 0 0 block.old → IsLog order result.entries result.props block.new }
{
    let fill = append_edges(block, order, edges, p);
    commit(block, order, fill, 1, 1);
    if half {
        end_half(block, order, fill);
        commit(block, order, fill, 2, 2);
    }
    fill
}

/// Whether each of `count` entries is of the past at the epoch at which a log is read.
pub fn is_past(block: &[u8], count: u32) -> bool
    requires { entry_len * count ≤ length block.now }
    ensures { (start : ℕ) (xs : List LogEntry) → HoldsEntries start xs block.now → length xs ≡ count → IsTrue result
        → ArePast 5 xs }
{
    for place in 0..count {
        if !is_past_row(entry_at(block, place)) {
            return false;
        }
    }
    true
}

// Whether an entry with these numbers is.
fn is_past_row(entry: Entry) -> bool
    ensures { IsTrue result → IsPastRow 5 entry }
{
    entry.created > 0 && entry.created <= READ && entry.ended <= READ
}
