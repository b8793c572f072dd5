//! A block without entries.

ghost use Rattle.std.specs.Prelude.{◌≡◌, ◌≤◌, [], length};
ghost use Rattle.tel_entry.specs.Layouts.{HeaderFits};
ghost use Rattle.edge_bloom.specs.Filters.{HasBitsOf};
ghost use Rattle.block_layout.specs.Sizes.{block_len, order_most, flags_of};
ghost use Rattle.block_layout.specs.Blocks.{IsBlock};
ghost use Rattle.block_writing.specs.Headers.{fresh_header};
ghost use Rattle.block_writing.specs.Filters.{filter_in};

use block_layout::{HEADER, flags_of, props_start};
use edge_bloom::clear;
use tel_entry::{Header, write_header};

/// Begins the block of a new log, of the vertex `v` and the label `l`: a header, a filter without bits, and no
/// entries, whatever the bytes were. Time: one step for each byte of the filter.
pub fn begin_block(block: &mut [u8], v: u64, l: u16, order: u8, previous: u64)
    requires small { order ≤ order_most }
    requires long { length block.old ≡ block_len order }
    ensures begun { IsBlock order (fresh_header v l order previous) (filter_in order block.new) [] block.new }
    ensures none { HasBitsOf (filter_in order block.new) [] }
{
    let header = Header {
        source: v,
        label: l,
        order,
        flags: flags_of(order),
        epoch: 0,
        entries: 0,
        props: 0,
        previous,
    };
    begin_with(block, &header);
}

/// Begins a block with this header.
pub fn begin_with(block: &mut [u8], header: &Header)
    requires small { header.now.order ≤ order_most }
    requires flags { header.now.flags ≡ flags_of header.now.order }
    requires long { length block.old ≡ block_len header.now.order }
    ensures begun { HeaderFits header.now
        → IsBlock header.now.order header.now (filter_in header.now.order block.new) [] block.new }
    ensures none { HasBitsOf (filter_in header.now.order block.new) [] }
{
    let start = props_start(header.order);
    clear(&mut block[HEADER..start]);
    write_header(block, header);
}
