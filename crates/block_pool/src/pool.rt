//! A pool of blocks.

ghost use Rattle.std.specs.Prelude.{◌≡◌, ℕ, ◌+◌, ◌*◌, ◌^◌, ◌<◌, ◌≤◌, ◌++◌, [], ◌∷◌, true, false, ◌==◌, All, Contains, length, IfOk, IfSome, IfNone, OnOk, OnErr, IsTrue};
ghost use Rattle.std.specs.List.{list_any};
ghost use Rattle.block_pool.specs.Blocks.{len_of, area_end, are_apart, HasOneMore};
ghost use Rattle.block_pool.specs.Pools.{order_most, ChunkContent, IsChunk, Takes, fresh_chunk, has_room, free_blocks, out_blocks, shapes, chunk_at, bytes_of, with_bytes, KeepsOut, KeepsOutBut};
ghost use Rattle.std.specs.Borrow.{sem};
ghost use Rattle.block_pool.specs.Cuts.{CutsFirst};
ghost use Rattle.block_pool.specs.LendingBlocks.{LendsBlock};
ghost use Rattle.block_pool.specs.Transfers.{Makes};

use crate::Block;
use crate::cells::power;
use crate::chunk::{Chunk, transfer_across};
use crate::index::Index;
use crate::transfer::{Bounds, Transfer};
use graph_model::NoMemory;
use std::alloc::Global;
use std::marker::Model;

// The order of a chunk that several blocks share, and that of the largest block.
const SHARED_ORDER: u32 = 14;

const ORDER_MOST: u32 = 25;

/// Chunks of bytes, each cut into blocks by halves.
///
/// A block is free or out. Two free halves of one block are joined, so that the blocks that are out
/// decide which are free. The memory that this needs is taken when a chunk is added: giving a block back
/// takes none.
#[derive(Drop)]
pub struct Pool {
    chunks: Vec<Chunk>,
    index: Index,
}

impl Model for Pool {
    ghost use Rattle.std.specs.Prelude.{List};
    ghost use Rattle.std.specs.Coded.{coded_list};
    ghost use Rattle.block_pool.specs.Pools.{ChunkContent};
    ghost use Rattle.block_pool.specs.Codes.{chunk_code};
    ghost use Rattle.block_pool.specs.KeptPool.{IsKeptPool};

    ghost Value = { List ChunkContent };

    ghost coded = { coded_list chunk_code };

    ghost view = { λ a. a.chunks.items };

    ghost invariant = { IsKeptPool };
}

impl Pool {
    /// A pool without chunks. It takes no memory.
    pub fn new(alloc: Global) -> Pool
        ensures { result ≡ [] }
    {
        Pool {
            chunks: Vec::new(alloc),
            index: Index::new(alloc),
        }
    }

    /// Takes a block of 64 * 2^order bytes. Time: one step for each order up to the chunk's, and for each
    /// doubling of the number of chunks; where a chunk is added, one step for each of its bytes.
    ///
    /// `NoMemory`, also where 2^32 - 1 chunks are there and one more is needed: the pool is as it was.
    pub fn take(&mut self, order: u32) -> Result<Block, NoMemory>
        requires { order ≤ order_most }
        ensures taken { IfOk result (λ b. Takes order self.old b self.new) }
        ensures out { IfOk result (λ b. Contains (out_blocks self.new) b) }
        ensures keeps { OnOk result (KeepsOut self.old self.new) }
        ensures whole { OnOk result (All IsChunk self.new) }
        ensures unchanged { OnErr result (self.new ≡ self.old) }
    {
        match self.smallest(order) {
            Some(from) => Ok(self.cut(from, order)),
            None => {
                let from = order.max(SHARED_ORDER);
                self.add_chunk(from)?;
                Ok(self.cut(from, order))
            }
        }
    }

    /// Gives a block back, and joins it with its buddy as long as that is free. Time: as that of `take`
    /// where no chunk is added. It takes no memory.
    pub fn give(&mut self, b: Block)
        requires { Contains (out_blocks self.old) b }
        ensures out { HasOneMore b (out_blocks self.new) (out_blocks self.old) }
        ensures keeps { KeepsOutBut b self.old self.new }
        ensures kept { shapes self.new ≡ shapes self.old }
        ensures joined { All IsChunk self.new }
    {
        let c = b.chunk() as usize;
        let chunk = &mut self.chunks[c];
        chunk.give(b.order(), b.start() as usize / 64);
        let cell = chunk.cell();
        self.index.set(c, cell);
    }

    /// The bytes of a block. Time: constant.
    pub fn bytes(&self, b: &Block) -> &[u8]
        requires { Contains (out_blocks self.now) b.now }
        ensures bytes { result.now ≡ bytes_of self.now b.now }
        ensures long { length result.now ≡ len_of b.now.order }
    {
        let Bounds { from, to } = self.bounds_of(b);
        self.chunks[b.chunk() as usize].part(from, to)
    }

    /// The bytes of a block, to be written. Those of every other block stay. Time: constant.
    pub fn bytes_mut(&mut self, b: &Block) -> &mut [u8]
        requires { Contains (out_blocks self.old) b.now }
        ensures* lends { sem 𝓛 (LendsBlock self.entry b.now result) }
        ensures bytes { result.now ≡ bytes_of self.old b.now }
        ensures long { length result.now ≡ len_of b.now.order }
    {
        let Bounds { from, to } = self.bounds_of(b);
        let chunk = &mut self.chunks[b.chunk() as usize];
        chunk.part_mut(from, to)
    }

    /// Does work that reads the bytes of one block and writes those of another. Those of every other block stay.
    /// Time: that of the work.
    pub fn transfer<W: Transfer>(&mut self, from: &Block, to: &Block, work: &W)
        requires from { Contains (out_blocks self.old) from.now }
        requires to { Contains (out_blocks self.old) to.now }
        requires apart { IsTrue (are_apart from.now to.now) }
        requires may { W.may work.now (bytes_of self.old from.now) (bytes_of self.old to.now) }
        ensures { Makes (W.does work.now (bytes_of self.old from.now) (bytes_of self.old to.now))
            (len_of to.now.order) (with_bytes self.old to.now.chunk to.now.start) self.new }
    {
        let read = self.bounds_of(from);
        let written = self.bounds_of(to);
        let from_chunk = from.chunk() as usize;
        let to_chunk = to.chunk() as usize;
        if from_chunk == to_chunk {
            self.chunks[to_chunk].transfer(read, written, work);
        } else {
            transfer_across(&mut self.chunks, from_chunk, read, to_chunk, written, work);
        }
    }

    // Where a block begins and ends in its chunk.
    fn bounds_of(&self, b: &Block) -> Bounds
        requires { Contains (out_blocks self.now) b.now }
        ensures from { result.from ≡ b.now.start }
        ensures to { result.to ≡ area_end b.now }
        ensures chunk { b.now.chunk < length self.now }
        ensures within { area_end b.now ≤ length (chunk_at self.now b.now.chunk).bytes }
        ensures whole { All IsChunk self.now }
    {
        let _ = &self.chunks;
        let from = b.start() as usize;
        Bounds {
            from,
            to: from + 64 * power(b.order()),
        }
    }

    // The smallest order from this one on of which there is a free block.
    fn smallest(&self, order: u32) -> Option<u32>
        ensures found { IfSome result (λ j. (order ≤ j) × ((j ≤ order_most)
            × (list_any (λ g. g.order == j) (free_blocks self.now) ≡ true))) }
        ensures least { IfSome result (λ j. (i : ℕ) → order ≤ i → i < j
            → list_any (λ g. g.order == i) (free_blocks self.now) ≡ false) }
        ensures none { IfNone result (has_room order self.now ≡ false) }
    {
        for j in order..ORDER_MOST + 1 {
            if self.index.has(j) {
                return Some(j);
            }
        }
        None
    }

    // Takes a block from the first free block of order `from`.
    fn cut(&mut self, from: u32, order: u32) -> Block
        requires orders { (order ≤ from) × (from ≤ order_most) }
        requires free { list_any (λ g. g.order == from) (free_blocks self.old) ≡ true }
        ensures cut { CutsFirst from order self.old result self.new }
        ensures whole { All IsChunk self.new }
    {
        let c = self.index.first(from);
        let chunk = &mut self.chunks[c];
        let unit = chunk.take(from, order);
        let cell = chunk.cell();
        self.index.set(c, cell);
        Block::named(c as u32, (64 * unit) as u32, order)
    }

    // Adds a free chunk.
    fn add_chunk(&mut self, order: u32) -> Result<(), NoMemory>
        requires { order ≤ order_most }
        ensures added { OnOk result (self.new ≡ self.old ++ fresh_chunk order ∷ []) }
        ensures unchanged { OnErr result (self.new ≡ self.old) }
    {
        if self.chunks.len() == u32::MAX as usize {
            return Err(NoMemory);
        }
        let chunk = Chunk::new(*self.chunks.allocator(), order)?;
        let cell = chunk.cell();
        self.chunks.push(chunk)?;
        if self.index.push(cell).is_err() {
            let _ = self.chunks.pop();
            return Err(NoMemory);
        }
        Ok(())
    }
}
