//! A source over memory, with faults at chosen reads.

ghost use Rattle.std.specs.Prelude.{◌≡◌, ◌↔◌, ◌++◌, take, drop, length, min, Some, IsErr, IfOk, OnErr};
ghost use Rattle.io_edges.specs.Faults.{NeverFalls, Rose};
ghost use Rattle.io_edges.specs.Calls.{no_call, counted_call, counted_fault, IsNextListed};

use crate::calls::Calls;
use crate::{Failed, Source};
use std::marker::Model;

/// A source of bytes in memory. Contracts see the bytes still to come and the count of its reads.
#[derive(Drop)]
pub struct MemSource {
    bytes: Vec<u8>,
    at: usize,
    calls: Calls,
}

impl Model for MemSource {
    ghost use Rattle.std.specs.Prelude.{◌≤◌, drop, vec_len};
    ghost use Rattle.io_edges.specs.Memory.{MemoryInput};

    ghost Value = { MemoryInput };

    ghost view = { λ s. record { left = drop s.at s.bytes.items; count = s.calls } };

    ghost invariant = { λ s. s.at ≤ vec_len s.bytes };
}

impl MemSource {
    /// A source of these bytes. Its reads of the listed numbers, from 1, fail.
    pub fn new(bytes: Vec<u8>, failing: Vec<u64>) -> MemSource
        ensures { result ≡ record { left = bytes.items; count = no_call failing.items } }
    {
        MemSource {
            bytes,
            at: 0,
            calls: Calls::new(failing),
        }
    }

    /// The count of faults.
    pub fn faults(&self) -> u64
        ensures { result ≡ self.now.count.faults }
    {
        self.calls.faults()
    }
}

impl Source for MemSource {
    ghost left = { λ s. Some s.left };

    ghost faults = { λ s. s.count.faults };

    /// Reads as many bytes as the buffer holds, or all that are left where these are fewer.
    ///
    /// `Failed`: the read was listed, nothing was taken, and the buffer is as before.
    fn read(&mut self, buf: &mut [u8]) -> Result<usize, Failed>
        ensures fails { IsErr result ↔ IsNextListed self.old.count }
        ensures amount { IfOk result (λ n. n ≡ min (length buf.old) (length self.old.left)) }
        ensures taken { IfOk result (λ n. self.new ≡ record {
          left = drop n self.old.left;
          count = counted_call self.old.count;
        }) }
        ensures filled { IfOk result (λ n. buf.new ≡ take n self.old.left ++ drop n buf.old) }
        ensures failed { OnErr result (Rose self.old.count.faults self.new.count.faults) }
        ensures unchanged { OnErr result
            (self.new ≡ record self.old { count = counted_fault self.old.count }) }
        ensures unfilled { OnErr result (buf.new ≡ buf.old) }
        ensures count { NeverFalls self.old.count.faults self.new.count.faults }
    {
        if self.calls.is_next_listed() {
            self.calls.add_fault();
            return Err(Failed);
        }
        let n = buf.len().min(self.bytes.len() - self.at);
        buf[..n].copy_from_slice(&self.bytes[self.at..self.at + n]);
        self.at += n;
        Ok(n)
    }
}
