//! Work that reads the bytes of one block and writes those of another.

ghost use Rattle.std.specs.Prelude.{◌≡◌, ◌-◌, ◌≤◌, ◌⊎◌, ℕ, List, length, slice_range};
ghost use Rattle.block_pool.specs.Pools.{with_part};
ghost use Rattle.block_pool.specs.Transfers.{Makes};

/// Work between two blocks.
pub trait Transfer {
    /// The bytes of both before which it may be done.
    ghost may: { Self → List ℕ → List ℕ → Type 0 };

    /// What it makes of the bytes of the second.
    ghost does: { Self → List ℕ → List ℕ → List ℕ → Type 0 };

    /// Reads `from`, and writes `to`.
    fn transfer(&self, from: &[u8], to: &mut [u8])
        requires { may self.now from.now to.old }
        ensures { does self.now from.now to.old to.new };
}

/// Where a block begins and ends in its chunk.
#[derive(Clone, Copy)]
pub struct Bounds {
    pub from: usize,
    pub to: usize,
}

/// Does work between two parts of the same bytes.
pub fn transfer_within<W: Transfer>(bytes: &mut [u8], from: Bounds, to: Bounds, work: &W)
    requires from { (from.from ≤ from.to) × (from.to ≤ length bytes.old) }
    requires to { (to.from ≤ to.to) × (to.to ≤ length bytes.old) }
    requires apart { (from.to ≤ to.from) ⊎ (to.to ≤ from.from) }
    requires may { W.may work.now (slice_range bytes.old from.from from.to) (slice_range bytes.old to.from to.to) }
    ensures { Makes (W.does work.now (slice_range bytes.old from.from from.to) (slice_range bytes.old to.from to.to))
        (to.to - to.from) (with_part bytes.old to.from) bytes.new }
{
    if from.to <= to.from {
        let (front, back) = bytes.split_at_mut(to.from);
        work.transfer(&front[from.from..from.to], &mut back[..to.to - to.from]);
    } else {
        let (front, back) = bytes.split_at_mut(from.from);
        work.transfer(&back[..from.to - from.from], &mut front[to.from..to.to]);
    }
}
