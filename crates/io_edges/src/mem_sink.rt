//! A sink over memory, with a fixed room and faults at chosen writes.

ghost use Rattle.std.specs.Prelude.{◌≡◌, ◌↔◌, ◌++◌, [], take, length, min, Some, IsErr, IfOk, OnErr};
ghost use Rattle.io_edges.specs.Faults.{NeverFalls, Rose};
ghost use Rattle.io_edges.specs.Calls.{no_call, counted_call, counted_fault};
ghost use Rattle.io_edges.specs.Memory.{room_left, PieceFails};

use crate::calls::Calls;
use crate::{Failed, NoMemory, Sink};
use std::alloc::Global;
use std::marker::Model;

/// A sink into memory, which it takes when it is made. Contracts see the bytes written, the room, and the
/// count of its writes.
#[derive(Drop)]
pub struct MemSink {
    bytes: Vec<u8>,
    room: usize,
    calls: Calls,
}

impl Model for MemSink {
    ghost use Rattle.std.specs.Prelude.{◌≤◌, vec_len, vec_capacity};
    ghost use Rattle.io_edges.specs.Memory.{MemoryOutput};

    ghost Value = { MemoryOutput };

    ghost view = { λ s. record { written = s.bytes.items; room = s.room; count = s.calls } };

    ghost invariant = { λ s. (vec_len s.bytes ≤ s.room) × (s.room ≤ vec_capacity s.bytes) };
}

impl MemSink {
    /// An empty sink with room for so many bytes. Its writes of the listed numbers, from 1, fail.
    pub fn new(alloc: Global, room: usize, failing: Vec<u64>) -> Result<MemSink, NoMemory>
        ensures { IfOk result (λ s. s ≡ record {
          written = [];
          room = room;
          count = no_call failing.items;
        }) }
    {
        let bytes = Vec::with_capacity(alloc, room)?;
        let calls = Calls::new(failing);
        Ok(MemSink { bytes, room, calls })
    }

    /// The bytes written so far.
    pub fn written(&self) -> &[u8]
        ensures { result.now ≡ self.now.written }
    {
        self.bytes.as_slice()
    }

    /// The count of faults.
    pub fn faults(&self) -> u64
        ensures { result ≡ self.now.count.faults }
    {
        self.calls.faults()
    }
}

impl Sink for MemSink {
    ghost written = { λ s. Some s.written };

    ghost faults = { λ s. s.count.faults };

    /// Writes as much of the piece as room is left for.
    ///
    /// `Failed`: the write was listed, or no room is left for a piece that is not empty. Nothing was written.
    fn write(&mut self, bytes: &[u8]) -> Result<usize, Failed>
        ensures fails { IsErr result ↔ PieceFails self.old bytes.now }
        ensures amount { IfOk result (λ n. n ≡ min (length bytes.now) (room_left self.old)) }
        ensures written { IfOk result (λ n. self.new ≡ record {
          written = self.old.written ++ take n bytes.now;
          room = self.old.room;
          count = counted_call self.old.count;
        }) }
        ensures failed { OnErr result (Rose self.old.count.faults self.new.count.faults) }
        ensures unchanged { OnErr result
            (self.new ≡ record self.old { count = counted_fault self.old.count }) }
        ensures count { NeverFalls self.old.count.faults self.new.count.faults }
    {
        let listed = self.calls.is_next_listed();
        let spare = self.room - self.bytes.len();
        if listed || (spare == 0 && !bytes.is_empty()) {
            self.calls.add_fault();
            return Err(Failed);
        }
        let n = bytes.len().min(spare);
        self.bytes.extend_from_slice(&bytes[..n]).unwrap();
        Ok(n)
    }
}
