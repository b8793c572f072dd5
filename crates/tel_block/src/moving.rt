//! A block that is copied into another one of its pool.

use block_pool::Transfer;
use block_writing::{Fill, copy_block};

/// A copy of all that a log has in its block: from and into which order, how much, and what names the old block.
#[derive(Drop)]
pub struct Moving {
    pub from_order: u8,
    pub order: u8,
    pub fill: Fill,
    pub previous: u64,
}

impl Transfer for Moving {
    ghost use Rattle.tel_block.specs.Moved.{IsMovable, IsMoved};

    ghost may = { IsMovable };

    ghost does = { λ moving from _ new. IsMoved moving from new };

    fn transfer(&self, from: &[u8], to: &mut [u8]) {
        copy_block(
            from,
            self.from_order,
            to,
            self.order,
            self.fill,
            self.previous,
        );
    }
}
