//! The index of the chunks: in which of them there is a free block of an order.

ghost use Rattle.std.specs.Prelude.{◌≡◌, ℕ, ◌+◌, ◌-◌, ◌^◌, ◌<◌, ◌≤◌, ◌++◌, [], ◌∷◌, true, false, length, slice_index, slice_set, replicate, OnOk, OnErr, IfOk, IsTrue};
ghost use Rattle.std.specs.List.{list_any};
ghost use Rattle.block_pool.specs.Cells.{has_bit};

use crate::cells::{has_bit, power};
use crate::index_cells::{first_with, note};
use graph_model::NoMemory;
use std::alloc::Global;
use std::marker::Model;

/// A cell for each chunk, by number, with the bits of the orders of which the chunk has a free block.
#[derive(Drop)]
pub struct Index {
    cells: Vec<u32>,
    depth: u32,
    len: usize,
}

impl Model for Index {
    ghost use Rattle.std.specs.Prelude.{List, ℕ};
    ghost use Rattle.block_pool.specs.KeptIndex.{noted, IsKeptIndex};

    ghost Value = { List ℕ };

    ghost view = { noted };

    ghost invariant = { IsKeptIndex };
}

impl Index {
    /// An index of no chunks. It takes no memory.
    pub fn new(alloc: Global) -> Index
        ensures { result ≡ [] }
    {
        Index {
            cells: Vec::new(alloc),
            depth: 0,
            len: 0,
        }
    }

    /// Whether a chunk has the bit of an order. Time: constant.
    pub fn has(&self, order: u32) -> bool
        requires { order < 32 }
        ensures { result ≡ list_any (λ cell. has_bit cell order) self.now }
    {
        self.len > 0 && has_bit(self.cells[0], order)
    }

    /// The number of the first chunk that has the bit of an order. Time: one step for each doubling of the
    /// number of chunks.
    pub fn first(&self, order: u32) -> usize
        requires order { order < 32 }
        requires some { IsTrue (list_any (λ cell. has_bit cell order) self.now) }
        ensures within { result < length self.now }
        ensures found { has_bit (slice_index self.now result) order ≡ true }
        ensures first { (k : ℕ) → k < result → has_bit (slice_index self.now k) order ≡ false }
    {
        first_with(&self.cells, self.depth, order)
    }

    /// Sets the cell of a chunk. Time: as that of `first`.
    pub fn set(&mut self, at: usize, cell: u32)
        requires { at < length self.old }
        ensures { self.new ≡ slice_set self.old at cell }
    {
        note(&mut self.cells, self.depth, at, cell);
    }

    /// Appends the cell of a chunk. After NoMemory the index is as before. Time: as that of `first`, and where
    /// the number of chunks has doubled one step for each chunk.
    pub fn push(&mut self, cell: u32) -> Result<(), NoMemory>
        requires { length self.old < 2 ^ 32 }
        ensures pushed { OnOk result (self.new ≡ self.old ++ cell ∷ []) }
        ensures unchanged { OnErr result (self.new ≡ self.old) }
    {
        if self.len == 0 {
            let cells = one_cell(*self.cells.allocator(), cell)?;
            self.cells = cells;
            self.depth = 0;
            self.len = 1;
            return Ok(());
        }
        if self.len == power(self.depth) {
            let mut cells = deeper(*self.cells.allocator(), &self.cells)?;
            note(&mut cells, self.depth + 1, self.len, cell);
            self.cells = cells;
            self.depth += 1;
            self.len += 1;
            return Ok(());
        }
        note(&mut self.cells, self.depth, self.len, cell);
        self.len += 1;
        Ok(())
    }
}

fn one_cell(alloc: Global, cell: u32) -> Result<Vec<u32>, NoMemory>
    ensures { IfOk result (λ cells. cells.items ≡ cell ∷ []) }
{
    let mut cells = Vec::new(alloc);
    cells.push(cell)?;
    Ok(cells)
}

// The cells of an index of one level more: the first cell, these, and as many zeros.
fn deeper(alloc: Global, cells: &[u32]) -> Result<Vec<u32>, NoMemory>
    requires { (0 < length cells.now) × (length cells.now < 2 ^ 62) }
    ensures { IfOk result (λ more.
        more.items ≡ slice_index cells.now 0 ∷ (cells.now ++ replicate (length cells.now) 0)) }
{
    let mut more = Vec::new(alloc);
    more.push(cells[0])?;
    more.extend_from_slice(cells)?;
    more.resize(2 * cells.len() + 1, 0)?;
    Ok(more)
}
