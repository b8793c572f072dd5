//! The cells of the index: a leaf for each chunk, and above each two cells one with the bits of both.

ghost use Rattle.std.specs.Prelude.{◌≡◌, ℕ, ◌+◌, ◌-◌, ◌^◌, ◌<◌, ◌≤◌, true, false, length, slice_index, slice_set, bit_or, IsTrue};
ghost use Rattle.block_pool.specs.Cells.{has_bit};
ghost use Rattle.block_pool.specs.Index.{leaves_of, IsIndex};

use crate::cells::{has_bit, power};

/// Sets a leaf of an index of this depth, and the cells above it.
pub fn note(cells: &mut [u32], depth: u32, at: usize, cell: u32)
    requires depth { depth ≤ 32 }
    requires at { at < 2 ^ depth }
    requires long { 2 ^ (depth + 1) ≤ length cells.old + 1 }
    requires index { IsIndex depth cells.old }
    ensures index { IsIndex depth cells.new }
    ensures leaves { leaves_of depth cells.new ≡ slice_set (leaves_of depth cells.old) at cell }
{
    if depth == 0 {
        cells[0] = cell;
        return;
    }
    let upper = power(depth);
    let half = power(depth - 1);
    if at < half {
        note(&mut cells[1..upper], depth - 1, at, cell);
        gather(cells, upper);
    } else {
        note(&mut cells[upper..], depth - 1, at - half, cell);
        gather(cells, upper);
    }
}

// Sets the first cell to the bits of the two below it.
#[inline]
fn gather(cells: &mut [u32], upper: usize)
    requires lower { 1 < length cells.old }
    requires upper { upper < length cells.old }
    ensures { cells.new ≡ slice_set cells.old 0 (bit_or (slice_index cells.old 1) (slice_index cells.old upper)) }
{
    cells[0] = cells[1] | cells[upper];
}

/// The first leaf that has the bit of an order.
pub fn first_with(cells: &[u32], depth: u32, order: u32) -> usize
    requires depth { depth ≤ 32 }
    requires order { order < 32 }
    requires long { 2 ^ (depth + 1) ≤ length cells.now + 1 }
    requires index { IsIndex depth cells.now }
    requires some { IsTrue (has_bit (slice_index cells.now 0) order) }
    ensures within { result < 2 ^ depth }
    ensures found { has_bit (slice_index (leaves_of depth cells.now) result) order ≡ true }
    ensures first { (k : ℕ) → k < result → has_bit (slice_index (leaves_of depth cells.now) k) order ≡ false }
{
    if depth == 0 {
        return 0;
    }
    let upper = power(depth);
    if has_bit(cells[1], order) {
        first_with(&cells[1..upper], depth - 1, order)
    } else {
        power(depth - 1) + first_with(&cells[upper..], depth - 1, order)
    }
}
