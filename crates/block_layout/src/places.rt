//! Where the parts of a block begin.

ghost use Rattle.std.specs.Prelude.{◌≡◌, ◌+◌, ◌*◌, ◌≤◌, length};
ghost use Rattle.tel_entry.specs.Layouts.{entry_len};
ghost use Rattle.block_layout.specs.Sizes.{order_most, filter_len, flags_of, props_start};
ghost use Rattle.block_layout.specs.Reads.{row_start};

/// How many bytes a header has.
pub const HEADER: usize = 36;

/// How many bytes an entry has.
pub const ROW: usize = 28;

/// The least order of a block with a filter.
pub const FILTER_ORDER: u8 = 3;

/// The flags of a block of an order.
pub fn flags_of(order: u8) -> u8
    ensures { result ≡ flags_of order }
{
    if order < FILTER_ORDER { 0 } else { 1 }
}

/// How many bytes its filter has.
#[inline(always)]
pub fn filter_len(order: u8) -> usize
    requires { order ≤ order_most }
    ensures { result ≡ filter_len order }
{
    if order < FILTER_ORDER { 0 } else { 4 << order }
}

/// Where its payloads begin.
#[inline(always)]
pub fn props_start(order: u8) -> usize
    requires { order ≤ order_most }
    ensures { result ≡ props_start order }
{
    HEADER + filter_len(order)
}

/// Where the entry of a place stands.
#[inline(always)]
pub fn row_start(block: &[u8], place: u32) -> usize
    requires { entry_len * (place + 1) ≤ length block.now }
    ensures { result ≡ row_start place block.now }
{
    block.len() - ROW * (place as usize + 1)
}
