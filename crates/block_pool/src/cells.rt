//! The cells in which a chunk keeps how it is cut.
//!
//! A part of order o has 2^(o + 1) - 1 cells: its own, those of its lower half, and those of its upper
//! half. Each call goes from the chunk's cell down to one block, and mends the cells above it on its way
//! back. So its time grows with the chunk's order alone, and it takes no memory.

ghost use Rattle.std.specs.Prelude.{◌≡◌, ◌+◌, ◌-◌, ◌^◌, ◌<◌, ◌≤◌, ◌≢◌, length, slice_index, slice_set, IsTrue};
ghost use Rattle.block_pool.specs.Trees.{Tree, fits};
ghost use Rattle.block_pool.specs.Cells.{has_bit, both_cells, Holds, carved, has_free, first_unit, taken, is_out_at, given};

// The bit of a part that is cut.
const CUT: u32 = 1 << 31;

/// Whether a cell has the bit of an order.
#[inline]
pub fn has_bit(cell: u32, order: u32) -> bool
    requires { order < 32 }
    ensures { result ≡ has_bit cell order }
{
    cell >> order & 1 == 1
}

/// How many units, and how many cells up to its upper half, a part of an order has.
#[inline]
pub fn power(order: u32) -> usize
    requires { order < 64 }
    ensures { result ≡ 2 ^ order }
{
    1 << order
}

/// The bit of an order.
#[inline]
pub fn bit(order: u32) -> u32
    requires { order < 32 }
    ensures { result ≡ 2 ^ order }
{
    1 << order
}

#[inline]
fn both(lower: u32, upper: u32) -> u32
    ensures { result ≡ both_cells lower upper }
{
    CUT | (lower | upper)
}

/// Cuts the free block that these cells are of down to an order, and takes the lowest part.
fn carve(cells: &mut [u32], own: u32, order: u32)
    requires order { order ≤ own }
    requires own { own ≤ 25 }
    requires long { 2 ^ (own + 1) ≤ length cells.old + 1 }
    ensures { Holds own cells.new (carved (own - order)) }
{
    if own == order {
        cells[0] = 0;
        return;
    }
    let upper = power(own);
    carve(&mut cells[1..upper], own - 1, order);
    cells[upper] = bit(own - 1);
    mend(cells, upper);
}

/// Takes a block of an order from the first free block of order `from`, and answers at which unit of 64
/// bytes it begins.
pub fn take_first(cells: &mut [u32], own: u32, from: u32, order: u32) -> usize
    requires orders { (order ≤ from) × (from ≤ own) × (own ≤ 25) }
    requires long { 2 ^ (own + 1) ≤ length cells.old + 1 }
    requires tree { (tree : Tree) × (Holds own cells.old tree × IsTrue (has_free own from tree)) }
    ensures tree { (tree : Tree) → Holds own cells.old tree → IsTrue (has_free own from tree)
        → Holds own cells.new (taken own from order tree) }
    ensures unit { (tree : Tree) → Holds own cells.old tree → IsTrue (has_free own from tree)
        → result ≡ first_unit own from tree }
    ensures within { result < 2 ^ own }
{
    if own == from {
        carve(cells, own, order);
        return 0;
    }
    let upper = power(own);
    if has_bit(cells[1], from) {
        let unit = take_first(&mut cells[1..upper], own - 1, from, order);
        mend(cells, upper);
        unit
    } else {
        let unit = take_first(&mut cells[upper..], own - 1, from, order);
        mend(cells, upper);
        power(own - 1) + unit
    }
}

/// Gives the block of an order at a unit back, and joins it with its buddy as long as that is free.
pub fn give_at(cells: &mut [u32], own: u32, order: u32, unit: usize)
    requires orders { (order ≤ own) × (own ≤ 25) }
    requires long { 2 ^ (own + 1) ≤ length cells.old + 1 }
    requires tree { (tree : Tree) × (Holds own cells.old tree × IsTrue (is_out_at own order unit tree)) }
    ensures { (tree : Tree) → Holds own cells.old tree → IsTrue (is_out_at own order unit tree)
        → Holds own cells.new (given own order unit tree) }
{
    if own == order {
        cells[0] = bit(own);
        return;
    }
    let upper = power(own);
    let half = power(own - 1);
    if unit < half {
        give_at(&mut cells[1..upper], own - 1, order, unit);
        join(cells, upper, own);
    } else {
        give_at(&mut cells[upper..], own - 1, order, unit - half);
        join(cells, upper, own);
    }
}

// Sets the cell of a part that is cut, by those of its halves.
#[inline]
fn mend(cells: &mut [u32], upper: usize)
    requires lower { 1 < length cells.old }
    requires upper { upper < length cells.old }
    ensures { cells.new ≡ slice_set cells.old 0 (both_cells (slice_index cells.old 1) (slice_index cells.old upper)) }
{
    cells[0] = both(cells[1], cells[upper]);
}

// The same, where two free halves are one free block again.
#[inline]
fn join(cells: &mut [u32], upper: usize, own: u32)
    requires lower { 1 < length cells.old }
    requires upper { upper < length cells.old }
    requires own { (0 < own) × (own ≤ 25) }
    ensures both { (slice_index cells.old 1 ≡ 2 ^ (own - 1)) × (slice_index cells.old upper ≡ 2 ^ (own - 1))
        → cells.new ≡ slice_set cells.old 0 (2 ^ own) }
    ensures lower { slice_index cells.old 1 ≢ 2 ^ (own - 1)
        → cells.new ≡ slice_set cells.old 0 (both_cells (slice_index cells.old 1) (slice_index cells.old upper)) }
    ensures upper { slice_index cells.old upper ≢ 2 ^ (own - 1)
        → cells.new ≡ slice_set cells.old 0 (both_cells (slice_index cells.old 1) (slice_index cells.old upper)) }
{
    cells[0] = joined(cells[1], cells[upper], own);
}

// The cell of two halves of order `own - 1`.
#[inline]
fn joined(lower: u32, upper: u32, own: u32) -> u32
    requires { (0 < own) × (own ≤ 25) }
    ensures both { (lower ≡ 2 ^ (own - 1)) × (upper ≡ 2 ^ (own - 1)) → result ≡ 2 ^ own }
    ensures lower { lower ≢ 2 ^ (own - 1) → result ≡ both_cells lower upper }
    ensures upper { upper ≢ 2 ^ (own - 1) → result ≡ both_cells lower upper }
{
    let free = bit(own - 1);
    if lower == free && upper == free {
        bit(own)
    } else {
        both(lower, upper)
    }
}
