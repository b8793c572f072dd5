//! The name of a block.

ghost use Rattle.std.specs.Prelude.{◌≡◌};

use std::marker::Model;

/// Names a block of a pool: its chunk, the byte of the chunk at which it begins, and its order.
///
/// A block that a pool gave out is out of it until it is given back. Who drops it loses its bytes.
#[derive(Debug, Drop)]
pub struct Block {
    chunk: u32,
    start: u32,
    order: u32,
}

impl Model for Block {
    ghost use Rattle.block_pool.specs.Blocks.{Area};

    ghost Value = { Area };

    ghost view = { λ b. record { chunk = b.chunk; start = b.start; order = b.order } };
}

impl Block {
    /// The number of its chunk, from 0.
    pub fn chunk(&self) -> u32
        ensures { result ≡ self.now.chunk }
    {
        self.chunk
    }

    /// The byte of its chunk at which it begins.
    pub fn start(&self) -> u32
        ensures { result ≡ self.now.start }
    {
        self.start
    }

    /// It has 64 * 2^order bytes.
    pub fn order(&self) -> u32
        ensures { result ≡ self.now.order }
    {
        self.order
    }

    /// Only a pool names blocks.
    pub(crate) fn named(chunk: u32, start: u32, order: u32) -> Block
        ensures { result ≡ record { chunk = chunk; start = start; order = order } }
    {
        Block {
            chunk,
            start,
            order,
        }
    }
}
