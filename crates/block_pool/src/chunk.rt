//! A chunk: its bytes, and how it is cut into blocks.

ghost use Rattle.std.specs.Prelude.{◌≡◌, ◌+◌, ◌-◌, ◌*◌, ◌^◌, ◌<◌, ◌≤◌, ◌⊎◌, ◌≢◌, length, slice_index, slice_range, replicate, vec_len, IfOk, IsTrue};
ghost use Rattle.std.specs.Borrow.{sem};
ghost use Rattle.block_pool.specs.Blocks.{len_of};
ghost use Rattle.block_pool.specs.Pools.{fresh_chunk, IsChunk, chunk_at, with_part, with_bytes};
ghost use Rattle.block_pool.specs.Cells.{cell_of, has_free, first_unit, taken, is_out_at, given};
ghost use Rattle.block_pool.specs.Lending.{LendsPart};
ghost use Rattle.block_pool.specs.Transfers.{Makes};

use crate::cells::{bit, give_at, power, take_first};
use crate::transfer::{Bounds, Transfer, transfer_within};
use graph_model::NoMemory;
use std::alloc::Global;
use std::marker::Model;

/// Bytes, and the cells that say which blocks of them are free and which are out.
#[derive(Drop)]
pub struct Chunk {
    order: u32,
    bytes: Vec<u8>,
    cells: Vec<u32>,
}

impl Model for Chunk {
    ghost use Rattle.block_pool.specs.Pools.{ChunkContent};
    ghost use Rattle.block_pool.specs.Cells.{tree_of};
    ghost use Rattle.block_pool.specs.Codes.{chunk_code};
    ghost use Rattle.block_pool.specs.Kept.{IsKept};

    ghost Value = { ChunkContent };

    ghost coded = { chunk_code };

    ghost view = { λ a. record { order = a.order; bytes = a.bytes.items; tree = tree_of a.order a.cells.items } };

    ghost invariant = { IsKept };
}

impl Chunk {
    /// A chunk of zeros that is one free block. All memory that it will need is taken now.
    pub fn new(alloc: Global, order: u32) -> Result<Chunk, NoMemory>
        requires { order ≤ 25 }
        ensures fresh { IfOk result (λ chunk. chunk ≡ fresh_chunk order) }
        ensures whole { IfOk result (λ chunk. IsChunk chunk) }
    {
        let bytes = zeros(alloc, 64 * power(order))?;
        let cells = free_cells(alloc, order)?;
        Ok(Chunk {
            order,
            bytes,
            cells,
        })
    }

    /// The bits of the orders of which it has a free block.
    pub fn cell(&self) -> u32
        ensures cell { result ≡ cell_of self.now.order self.now.tree }
        ensures whole { IsChunk self.now }
    {
        self.cells[0]
    }

    /// Takes a block of an order from the first free block of order `from`, and answers at which unit of 64
    /// bytes it begins. Time: one step for each order below the chunk's.
    pub fn take(&mut self, from: u32, order: u32) -> usize
        requires below { order ≤ from }
        requires free { IsTrue (has_free self.old.order from self.old.tree) }
        ensures taken { self.new ≡ record self.old { tree = taken self.old.order from order self.old.tree } }
        ensures unit { result ≡ first_unit self.old.order from self.old.tree }
        ensures within { result < 2 ^ self.old.order }
        ensures whole { IsChunk self.new }
    {
        take_first(&mut self.cells, self.order, from, order)
    }

    /// Gives the block of an order at a unit back. Time: one step for each order below the chunk's.
    pub fn give(&mut self, order: u32, unit: usize)
        requires { IsTrue (is_out_at self.old.order order unit self.old.tree) }
        ensures given { self.new ≡ record self.old { tree = given self.old.order order unit self.old.tree } }
        ensures whole { IsChunk self.new }
    {
        give_at(&mut self.cells, self.order, order, unit);
    }

    /// The bytes between two places.
    pub fn part(&self, from: usize, to: usize) -> &[u8]
        requires order { from ≤ to }
        requires within { to ≤ length self.now.bytes }
        ensures { result.now ≡ slice_range self.now.bytes from to }
    {
        &self.bytes[from..to]
    }

    /// The bytes between two places, to be written.
    pub fn part_mut(&mut self, from: usize, to: usize) -> &mut [u8]
        requires order { from ≤ to }
        requires within { to ≤ length self.old.bytes }
        ensures* lends { sem 𝓛 (LendsPart self.entry from result) }
        ensures value { result.now ≡ slice_range self.old.bytes from to }
    {
        self.bytes.slice_mut(from..to)
    }

    /// Does work between two parts of its bytes.
    pub fn transfer<W: Transfer>(&mut self, from: Bounds, to: Bounds, work: &W)
        requires from { (from.from ≤ from.to) × (from.to ≤ length self.old.bytes) }
        requires to { (to.from ≤ to.to) × (to.to ≤ length self.old.bytes) }
        requires apart { (from.to ≤ to.from) ⊎ (to.to ≤ from.from) }
        requires may { W.may work.now (slice_range self.old.bytes from.from from.to)
            (slice_range self.old.bytes to.from to.to) }
        ensures { Makes (W.does work.now (slice_range self.old.bytes from.from from.to)
            (slice_range self.old.bytes to.from to.to)) (to.to - to.from)
            (λ part. record self.old { bytes = with_part self.old.bytes to.from part }) self.new }
    {
        transfer_within(&mut self.bytes, from, to, work);
    }
}

/// Does work between the bytes of two chunks.
pub fn transfer_across<W: Transfer>(
    chunks: &mut [Chunk],
    from_chunk: usize,
    from: Bounds,
    to_chunk: usize,
    to: Bounds,
    work: &W,
)
    requires within { (from_chunk < length chunks.old) × (to_chunk < length chunks.old) }
    requires apart { from_chunk ≢ to_chunk }
    requires from { (from.from ≤ from.to) × (from.to ≤ length (chunk_at chunks.old from_chunk).bytes) }
    requires to { (to.from ≤ to.to) × (to.to ≤ length (chunk_at chunks.old to_chunk).bytes) }
    requires may { W.may work.now (slice_range (chunk_at chunks.old from_chunk).bytes from.from from.to)
        (slice_range (chunk_at chunks.old to_chunk).bytes to.from to.to) }
    ensures { Makes (W.does work.now (slice_range (chunk_at chunks.old from_chunk).bytes from.from from.to)
        (slice_range (chunk_at chunks.old to_chunk).bytes to.from to.to)) (to.to - to.from)
        (with_bytes chunks.old to_chunk to.from) chunks.new }
{
    if from_chunk < to_chunk {
        let (front, back) = chunks.split_at_mut(to_chunk);
        let read = front[from_chunk].part(from.from, from.to);
        work.transfer(read, back[0].part_mut(to.from, to.to));
    } else {
        let (front, back) = chunks.split_at_mut(from_chunk);
        let read = back[0].part(from.from, from.to);
        work.transfer(read, front[to_chunk].part_mut(to.from, to.to));
    }
}

fn zeros(alloc: Global, len: usize) -> Result<Vec<u8>, NoMemory>
    ensures { IfOk result (λ bytes. bytes.items ≡ replicate len 0) }
{
    let mut bytes = Vec::new(alloc);
    bytes.resize(len, 0)?;
    Ok(bytes)
}

// The cells of one free block. Only the first is read before the block is cut.
fn free_cells(alloc: Global, order: u32) -> Result<Vec<u32>, NoMemory>
    requires { order ≤ 25 }
    ensures long { IfOk result (λ cells. vec_len cells + 1 ≡ 2 ^ (order + 1)) }
    ensures free { IfOk result (λ cells. slice_index cells.items 0 ≡ 2 ^ order) }
{
    let mut cells = Vec::new(alloc);
    cells.resize(power(order + 1) - 1, bit(order))?;
    Ok(cells)
}
