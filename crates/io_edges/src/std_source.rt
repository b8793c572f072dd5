//! A source over a reader of the standard library: the edge to standard input, which is trusted.

ghost use Rattle.std.specs.Prelude.{◌≡◌, ◌≤◌, length, None, IfOk, OnOk, OnErr};
ghost use Rattle.std.specs.Io.KnownBytes.{ReadConsumes};
ghost use Rattle.io_edges.specs.Faults.{one_more, NeverFalls, Rose};

use crate::{Failed, Source};
use std::io::{ErrorKind, Read};
use std::marker::Model;

/// How often a read or a write that was interrupted is tried, at most.
pub(crate) const TRIES: u32 = 64;

/// A source over a reader, as `rt.reader()`. As a source it tells nothing of its bytes: what the reader gives is
/// trusted. Contracts see the reader, and the count of faults, which stays at 2^64 - 1 once it is there.
#[derive(Drop)]
pub struct StdSource<R: Read> {
    reader: R,
    faults: u64,
}

impl<R: Read> Model for StdSource<R> {
    ghost use Rattle.io_edges.specs.Std.{OverReader};

    ghost Value = { OverReader R };

    ghost view = { λ s. record { reader = s.reader; faults = s.faults } };
}

impl<R: Read> StdSource<R> {
    /// A source over this reader, with no fault yet.
    pub fn new(reader: R) -> StdSource<R>
        ensures { result ≡ record { reader = reader; faults = 0 } }
    {
        StdSource { reader, faults: 0 }
    }

    /// The count of faults.
    pub fn faults(&self) -> u64
        ensures { result ≡ self.now.faults }
    {
        self.faults
    }
}

impl<R: Read> Source for StdSource<R> {
    ghost left = { λ _. None };

    ghost faults = { λ s. s.faults };

    /// Reads once; a read that was interrupted is tried again, up to 64 times in all.
    ///
    /// `Failed`: the reader answered an error, or was interrupted each time.
    fn read(&mut self, buf: &mut [u8]) -> Result<usize, Failed>
        ensures within { IfOk result (λ n. n ≤ length buf.new) }
        ensures bytes { ReadConsumes (R.remaining self.old.reader) (R.remaining self.new.reader)
            result buf.new }
        ensures kept { OnOk result (self.new.faults ≡ self.old.faults) }
        ensures raised { OnErr result (self.new.faults ≡ one_more self.old.faults) }
        ensures failed { OnErr result (Rose self.old.faults self.new.faults) }
        ensures count { NeverFalls self.old.faults self.new.faults }
    {
        for _ in 0..TRIES {
            match self.reader.read(buf) {
                Ok(n) => return Ok(n),
                Err(error) if error.kind() == ErrorKind::Interrupted => {}
                Err(_) => break,
            }
        }
        self.faults = self.faults.saturating_add(1);
        Err(Failed)
    }
}
