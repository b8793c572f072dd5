//! The way to a sink without a buffer.

use crate::{Outlet, Sink, WriteFault, write_all};

/// Writes each piece to the sink at once. Nothing is ever pending.
#[derive(Clone, Copy, Debug, PartialEq, Eq)]
pub struct Direct;

impl Outlet for Direct {
    ghost use Rattle.std.specs.Prelude.{[]};

    ghost pending = { λ _. [] };

    fn put<K: Sink>(&mut self, sink: &mut K, bytes: &[u8]) -> Result<(), WriteFault> {
        write_all(sink, bytes)
    }
}
