//! Laws of pools, which hold of their definitions. The crates above cite them.

ghost use Rattle.std.specs.Prelude.{◌≡◌, ℕ, List, All, Contains, IsTrue, length};
ghost use Rattle.block_pool.specs.Blocks.{Area, len_of, are_apart};
ghost use Rattle.block_pool.specs.Pools.{ChunkContent, IsChunk, are_all_apart, free_blocks, out_blocks, bytes_of, with_bytes};

/// No byte is in two blocks that are out.
pub fn blocks_that_are_out_are_apart()
    ensures { (pool : List ChunkContent) → IsTrue (are_all_apart (out_blocks pool)) }
{}

/// What is written to a block that is out stands there, and every block that is apart from it has the bytes
/// that it had. The same blocks are out, and the same are free.
pub fn a_write_leaves_the_other_blocks()
    ensures written { (pool : List ChunkContent) (b : Area) (part : List ℕ) → All IsChunk pool
        → Contains (out_blocks pool) b → length part ≡ len_of b.order →
        bytes_of (with_bytes pool b.chunk b.start part) b ≡ part }
    ensures others { (pool : List ChunkContent) (a b : Area) (part : List ℕ) → All IsChunk pool
        → Contains (out_blocks pool) b → length part ≡ len_of b.order → IsTrue (are_apart a b) →
        bytes_of (with_bytes pool b.chunk b.start part) a ≡ bytes_of pool a }
    ensures out { (pool : List ChunkContent) (c start : ℕ) (part : List ℕ)
        → out_blocks (with_bytes pool c start part) ≡ out_blocks pool }
    ensures free { (pool : List ChunkContent) (c start : ℕ) (part : List ℕ)
        → free_blocks (with_bytes pool c start part) ≡ free_blocks pool }
{}
