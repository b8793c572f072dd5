//! A buffer before a sink, so that many small pieces cost few writes.

ghost use Rattle.std.specs.Prelude.{◌≡◌, ◌+◌, ◌≤◌, ◌++◌, [], length, IfOk, OnOk, OnErr};
ghost use Rattle.std.specs.Io.KnownBytes.{append_known};
ghost use Rattle.io_edges.specs.Faults.{NeverFalls, Rose};
ghost use Rattle.io_edges.specs.Writes.{Appended, AppendedPart};

use crate::{NoMemory, Outlet, Sink, WriteFault, write_all};
use std::alloc::Global;
use std::marker::Model;

/// A buffer before a sink. It has a fixed room, whose memory it takes when it is made and no more after.
///
/// What is put is pending until the room is used up or `flush` is called. A piece that does not fit hands
/// the pending bytes to the sink first, and a piece longer than the room goes straight to the sink.
/// Contracts see the pending bytes and the room.
#[derive(Drop)]
pub struct OutBuffer {
    bytes: Vec<u8>,
    room: usize,
}

impl Model for OutBuffer {
    ghost use Rattle.std.specs.Prelude.{◌≤◌, vec_len, vec_capacity};
    ghost use Rattle.io_edges.specs.OutBuffer.{Buffered};

    ghost Value = { Buffered };

    ghost view = { λ b. record { pending = b.bytes.items; room = b.room } };

    ghost invariant = { λ b. (vec_len b.bytes ≤ b.room) × (b.room ≤ vec_capacity b.bytes) };
}

impl OutBuffer {
    /// An empty buffer with room for so many bytes.
    pub fn new(alloc: Global, room: usize) -> Result<OutBuffer, NoMemory>
        ensures { IfOk result (λ b. b ≡ record { pending = []; room = room }) }
    {
        let bytes = Vec::with_capacity(alloc, room)?;
        Ok(OutBuffer { bytes, room })
    }

    /// Hands all pending bytes to the sink. Nothing is pending after.
    ///
    /// `WriteFault`: the sink's count of faults rose, the sink has a prefix of the pending bytes, and the
    /// rest of them is let go.
    pub fn flush<K: Sink>(&mut self, sink: &mut K) -> Result<(), WriteFault>
        ensures flushed { OnOk result
            (Appended (K.written sink.old) (K.written sink.new) self.old.pending) }
        ensures write_fault { OnErr result (Rose (K.faults sink.old) (K.faults sink.new)) }
        ensures part { OnErr result
            (AppendedPart (K.written sink.old) (K.written sink.new) self.old.pending) }
        ensures emptied { self.new ≡ record self.old { pending = [] } }
        ensures count { NeverFalls (K.faults sink.old) (K.faults sink.new) }
    {
        let result = write_all(sink, self.bytes.as_slice());
        self.bytes.clear();
        result
    }

    /// Keeps a piece that fits.
    fn keep(&mut self, bytes: &[u8])
        requires { length self.old.pending + length bytes.now ≤ self.old.room }
        ensures { self.new ≡ record self.old { pending = self.old.pending ++ bytes.now } }
    {
        self.bytes.extend_from_slice(bytes).unwrap()
    }

    /// How many more bytes fit.
    fn spare(&self) -> usize
        ensures { result + length self.now.pending ≡ self.now.room }
    {
        self.room - self.bytes.len()
    }
}

impl Outlet for OutBuffer {
    ghost pending = { λ b. b.pending };

    /// Keeps a piece that fits; else hands the pending bytes to the sink first, and then keeps the piece or, where
    /// it is longer than the room, hands it on too.
    fn put<K: Sink>(&mut self, sink: &mut K, bytes: &[u8]) -> Result<(), WriteFault>
        ensures put { OnOk result (Appended (append_known (K.written sink.old) self.old.pending)
            (append_known (K.written sink.new) self.new.pending) bytes.now) }
        ensures write_fault { OnErr result (Rose (K.faults sink.old) (K.faults sink.new)) }
        ensures part { AppendedPart (K.written sink.old) (K.written sink.new)
            (self.old.pending ++ bytes.now) }
        ensures emptied { OnErr result (self.new.pending ≡ []) }
        ensures room { self.new.room ≡ self.old.room }
        ensures count { NeverFalls (K.faults sink.old) (K.faults sink.new) }
    {
        if bytes.len() > self.spare() {
            self.flush(sink)?;
        }
        if bytes.len() > self.spare() {
            return write_all(sink, bytes);
        }
        self.keep(bytes);
        Ok(())
    }
}
