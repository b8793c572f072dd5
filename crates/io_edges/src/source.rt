//! Where bytes come from.

ghost use Rattle.std.specs.Prelude.{ℕ, List, Option};
ghost use Rattle.io_edges.specs.Faults.{NeverFalls, Rose};
ghost use Rattle.io_edges.specs.Reads.{ReadTakes};
ghost use Rattle.std.specs.Prelude.{◌≡◌, IfOk, OnErr};

use crate::Failed;

/// Where bytes come from, in order.
pub trait Source {
    /// The bytes still to come, where the source tells them.
    ghost left: { Self → Option (List ℕ) };

    /// The count of faults.
    ghost faults: { Self → ℕ };

    /// Reads the next bytes into the front of `buf` and answers their number. `Ok(0)` for a buffer that is
    /// not empty is the end of input.
    ///
    /// `Failed`: the count of faults rose, and nothing was taken.
    fn read(&mut self, buf: &mut [u8]) -> Result<usize, Failed>
        ensures taken { IfOk result (ReadTakes (left self.old) (left self.new) buf.new) }
        ensures failed { OnErr result (Rose (faults self.old) (faults self.new)) }
        ensures unchanged { OnErr result (left self.new ≡ left self.old) }
        ensures count { NeverFalls (faults self.old) (faults self.new) };
}
