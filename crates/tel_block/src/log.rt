//! A log in a block.

ghost use Rattle.std.specs.Prelude.{◌≡◌, IfOk};

use block_index::EntryIndex;
use block_pool::Block;
use block_writing::Fill;

/// A log in a block of a pool. Who drops it loses the block.
#[derive(Drop)]
pub struct TelBlock {
    pub(crate) block: Block,
    pub(crate) fill: Fill,
    // An index of its entries. It stands beside what every call reads.
    pub(crate) index: EntryIndex,
    // How much of it is committed, and the epoch of the last commit.
    pub(crate) committed: Fill,
    pub(crate) epoch: u64,
    // The greatest epoch of a commit: no stamp of it is that of a later one.
    pub(crate) latest: u64,
    // The limit on the sum of the entries' sizes.
    pub(crate) most: u64,
    // Below `settled`, which is the committed count where each transaction ends before the next one begins, private
    // stamps stand at the noted places alone.
    pub(crate) noted: Vec<u32>,
    pub(crate) settled: u32,
}

impl TelBlock {
    /// The block in which it lies.
    pub fn block(&self) -> &Block
        ensures { result.now ≡ self.now.block }
    {
        &self.block
    }
}
