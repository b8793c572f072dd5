//! An entry more.

ghost use Rattle.std.specs.Prelude.{◌≡◌, ℕ, ◌+◌, ◌*◌, ◌<◌, ◌≤◌, IsTrue, List, ◌∷◌, length};
ghost use Rattle.graph_model.specs.Payload.{payload_most};
ghost use Rattle.edge_log.specs.Entries.{Entry as LogEntry, fresh_entry, payload_sum};
ghost use Rattle.tel_entry.specs.declared.header.Header.{Header as LogHeader};
ghost use Rattle.tel_entry.specs.Layouts.{entry_len};
ghost use Rattle.tel_entry.specs.RawStamps.{private_from};
ghost use Rattle.edge_bloom.specs.Filters.{HasBitsOf};
ghost use Rattle.block_layout.specs.Sizes.{order_most, has_filter, props_start};
ghost use Rattle.block_layout.specs.Rows.{raw_entry, HasRow};
ghost use Rattle.block_layout.specs.Blocks.{IsBlock};
ghost use Rattle.block_writing.specs.Filters.{filter_in};

use crate::Fill;
use crate::rows::{put, write_row};
use block_layout::{FILTER_ORDER, HEADER, props_start};
use edge_bloom::add;
use tel_entry::{Entry, NEVER, private_stamp};

/// Appends an edge to a block of an order, with so much in it, privately to the transaction `tid`: the payload behind
/// the payloads, its row below the rows, and the bits of `d` in the filter where there is one. Time: one step for each
/// byte of the payload.
#[inline(always)]
pub fn append_entry(block: &mut [u8], order: u8, fill: Fill, tid: u64, d: u64, p: &[u8])
    requires small { order ≤ order_most }
    requires room { props_start order + (fill.props + length p.now) + entry_len * (fill.entries + 1)
        ≤ length block.old }
    requires number { tid < private_from }
    requires len { length p.now ≤ payload_most }
    ensures appended { (h : LogHeader) (filter : List ℕ) (xs : List LogEntry) → IsBlock order h filter xs block.old
        → length xs ≡ fill.entries → payload_sum xs ≡ fill.props
        → IsBlock order h (filter_in order block.new) (fresh_entry d p.now tid ∷ xs) block.new }
    ensures added { IsTrue (has_filter order) → (ds : List ℕ) → HasBitsOf (filter_in order block.old) ds
        → HasBitsOf (filter_in order block.new) (d ∷ ds) }
{
    let entry = Entry {
        d,
        created: private_stamp(tid),
        ended: NEVER,
        len: p.len() as u32,
    };
    put_entry(block, order, fill, &entry, p);
}

/// Appends an entry with these numbers and this payload.
#[inline(always)]
pub fn put_entry(block: &mut [u8], order: u8, fill: Fill, entry: &Entry, p: &[u8])
    requires small { order ≤ order_most }
    requires room { props_start order + (fill.props + length p.now) + entry_len * (fill.entries + 1)
        ≤ length block.old }
    ensures appended { (h : LogHeader) (filter : List ℕ) (xs : List LogEntry) (x : LogEntry)
        → IsBlock order h filter xs block.old → length xs ≡ fill.entries → payload_sum xs ≡ fill.props
        → HasRow x → raw_entry x ≡ entry.now → x.p ≡ p.now
        → IsBlock order h (filter_in order block.new) (x ∷ xs) block.new }
    ensures added { IsTrue (has_filter order) → (ds : List ℕ) → HasBitsOf (filter_in order block.old) ds
        → HasBitsOf (filter_in order block.new) (entry.now.d ∷ ds) }
{
    add_destination(block, order, entry.d);
    put(block, props_start(order) + fill.props as usize, p);
    write_row(block, fill.entries, entry);
}

// Sets the bits of `d` in the filter, where there is one.
#[inline(always)]
fn add_destination(block: &mut [u8], order: u8, d: u64)
    requires small { order ≤ order_most }
    requires room { props_start order ≤ length block.old }
    ensures keeps { (h : LogHeader) (filter : List ℕ) (xs : List LogEntry) → IsBlock order h filter xs block.old
        → IsBlock order h (filter_in order block.new) xs block.new }
    ensures added { IsTrue (has_filter order) → (ds : List ℕ) → HasBitsOf (filter_in order block.old) ds
        → HasBitsOf (filter_in order block.new) (d ∷ ds) }
{
    if order >= FILTER_ORDER {
        add(&mut block[HEADER..props_start(order)], d);
    }
}
