//! All entries, copied into another block.

ghost use Rattle.std.specs.Prelude.{◌≡◌, ℕ, ◌+◌, ◌*◌, ◌≤◌, IsTrue, List, [], length, map};
ghost use Rattle.edge_log.specs.Entries.{Entry as LogEntry, payload_sum};
ghost use Rattle.tel_entry.specs.declared.header.Header.{Header as LogHeader};
ghost use Rattle.tel_entry.specs.Layouts.{entry_len, header_len, HeaderFits};
ghost use Rattle.edge_bloom.specs.Filters.{IsFilter, HasBitsOf};
ghost use Rattle.block_layout.specs.Sizes.{block_len, order_most, has_filter, props_start};
ghost use Rattle.block_layout.specs.Blocks.{HoldsEntries, IsBlock};
ghost use Rattle.block_writing.specs.Filters.{filter_in};
ghost use Rattle.block_writing.specs.Headers.{moved_header};

use crate::Fill;
use crate::begin::begin_with;
use crate::rows::{put, read_row};
use block_layout::{FILTER_ORDER, HEADER, ROW, flags_of, props_start};
use edge_bloom::add;
use tel_entry::{Header, read_header};

/// Copies a block of the order `from_order`, with so much in it, into one of the order `order`, whatever its bytes
/// were: the header with the new order, all entries with the stamps that they have, and a filter with the bits of their
/// destinations alone. Time: one step for each entry, and for each byte of the payloads and of the filter.
pub fn copy_block(from: &[u8], from_order: u8, to: &mut [u8], order: u8, fill: Fill, previous: u64)
    requires orders { (from_order ≤ order_most) × (order ≤ order_most) }
    requires long { length to.old ≡ block_len order }
    requires header { header_len ≤ length from.now }
    requires held { props_start from_order + fill.props + entry_len * fill.entries ≤ length from.now }
    requires room { props_start order + fill.props + entry_len * fill.entries ≤ length to.old }
    ensures copied { (h : LogHeader) (filter : List ℕ) (xs : List LogEntry) → IsBlock from_order h filter xs from.now
        → length xs ≡ fill.entries → payload_sum xs ≡ fill.props
        → IsBlock order (moved_header order previous h) (filter_in order to.new) xs to.new }
    ensures filter { (h : LogHeader) (filter : List ℕ) (xs : List LogEntry) → IsBlock from_order h filter xs from.now
        → length xs ≡ fill.entries → payload_sum xs ≡ fill.props
        → IsTrue (has_filter order) → HasBitsOf (filter_in order to.new) (map (λ x. x.d) xs) }
{
    let header = read_header(from);
    begin_moved(to, order, &header, previous);
    fill_filter(to, order, from, fill.entries);
    let props = fill.props as usize;
    let start = props_start(from_order);
    put(to, props_start(order), &from[start..start + props]);
    let rows = ROW * fill.entries as usize;
    put(to, to.len() - rows, &from[from.len() - rows..]);
}

// Begins a block with a header that is moved to it.
fn begin_moved(to: &mut [u8], order: u8, header: &Header, previous: u64)
    requires small { order ≤ order_most }
    requires long { length to.old ≡ block_len order }
    ensures begun { HeaderFits header.now
        → IsBlock order (moved_header order previous header.now) (filter_in order to.new) [] to.new }
    ensures none { HasBitsOf (filter_in order to.new) [] }
{
    let moved = Header {
        order,
        flags: flags_of(order),
        previous,
        ..*header
    };
    begin_with(to, &moved);
}

// Sets the bits of the destinations of another block's entries in a filter without bits.
fn fill_filter(to: &mut [u8], order: u8, from: &[u8], count: u32)
    requires small { order ≤ order_most }
    requires room { props_start order ≤ length to.old }
    requires rows { entry_len * count ≤ length from.now }
    ensures { (h : LogHeader) (start : ℕ) (xs : List LogEntry) → IsBlock order h (filter_in order to.old) [] to.old
        → HasBitsOf (filter_in order to.old) [] → HoldsEntries start xs from.now → length xs ≡ count
        → IsBlock order h (filter_in order to.new) [] to.new
        × (IsTrue (has_filter order) → HasBitsOf (filter_in order to.new) (map (λ x. x.d) xs)) }
{
    if order >= FILTER_ORDER {
        add_all(&mut to[HEADER..props_start(order)], from, count);
    }
}

// The same, given the filter's bytes.
fn add_all(filter: &mut [u8], from: &[u8], count: u32)
    requires filter { IsFilter filter.old }
    requires rows { entry_len * count ≤ length from.now }
    ensures { (start : ℕ) (xs : List LogEntry) → HoldsEntries start xs from.now → length xs ≡ count
        → HasBitsOf filter.old [] → HasBitsOf filter.new (map (λ x. x.d) xs) }
{
    for place in 0..count {
        add(filter, read_row(from, place).d);
    }
}
