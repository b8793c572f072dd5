//! A log that takes no further entry.

ghost use Rattle.std.specs.Prelude.{◌≡◌};

use block_pool::Block;
use block_writing::Fill;

/// A block that a log has left, or that was retired, with how much is in it, the tail included. It can be scanned
/// until its block is given back. Who drops it loses the block.
#[derive(Drop)]
pub struct OldBlock {
    pub(crate) block: Block,
    pub(crate) fill: Fill,
    // How many entries are committed, and the epoch of the last commit.
    pub(crate) committed: u32,
    pub(crate) epoch: u64,
}

impl OldBlock {
    /// The block in which it lies.
    pub fn block(&self) -> &Block
        ensures { result.now ≡ self.now.block }
    {
        &self.block
    }
}
