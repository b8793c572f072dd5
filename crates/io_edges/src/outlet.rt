//! The way of bytes to a sink: at once, or through a buffer.

ghost use Rattle.std.specs.Prelude.{◌≡◌, ◌++◌, [], ℕ, List, OnOk, OnErr};
ghost use Rattle.std.specs.Io.KnownBytes.{append_known};
ghost use Rattle.io_edges.specs.Faults.{NeverFalls, Rose};
ghost use Rattle.io_edges.specs.Writes.{Appended, AppendedPart};

use crate::{Sink, WriteFault};

/// The way of bytes to a sink. Bytes that were put and have not reached the sink are pending.
pub trait Outlet {
    /// The bytes that were put and have not reached the sink.
    ghost pending: { Self → List ℕ };

    /// Puts these bytes behind all earlier ones. The sink takes a prefix of the pending bytes and these.
    ///
    /// `WriteFault`: the sink's count of faults rose, the sink has a prefix of the pending bytes and these,
    /// and the rest of them is let go: nothing is pending.
    fn put<K: Sink>(&mut self, sink: &mut K, bytes: &[u8]) -> Result<(), WriteFault>
        ensures put { OnOk result (Appended (append_known (K.written sink.old) (pending self.old))
            (append_known (K.written sink.new) (pending self.new)) bytes.now) }
        ensures write_fault { OnErr result (Rose (K.faults sink.old) (K.faults sink.new)) }
        ensures part { AppendedPart (K.written sink.old) (K.written sink.new) (pending self.old ++ bytes.now) }
        ensures emptied { OnErr result (pending self.new ≡ []) }
        ensures count { NeverFalls (K.faults sink.old) (K.faults sink.new) };
}
