//! Where bytes go.

ghost use Rattle.std.specs.Prelude.{◌≡◌, ℕ, List, Option, IfOk, OnErr};
ghost use Rattle.io_edges.specs.Faults.{NeverFalls, Rose};
ghost use Rattle.io_edges.specs.Writes.{Writes};

use crate::Failed;

/// Where bytes go, in order.
pub trait Sink {
    /// The bytes written so far, where the sink tells them.
    ghost written: { Self → Option (List ℕ) };

    /// The count of faults.
    ghost faults: { Self → ℕ };

    /// Writes the first bytes of the piece and answers their number, at least one for a piece that is not
    /// empty.
    ///
    /// `Failed`: the count of faults rose, and nothing was written.
    fn write(&mut self, bytes: &[u8]) -> Result<usize, Failed>
        ensures written { IfOk result (Writes (written self.old) (written self.new) bytes.now) }
        ensures failed { OnErr result (Rose (faults self.old) (faults self.new)) }
        ensures unchanged { OnErr result (written self.new ≡ written self.old) }
        ensures count { NeverFalls (faults self.old) (faults self.new) };
}
