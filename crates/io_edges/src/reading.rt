//! The loop that reads a source to its end.

ghost use Rattle.std.specs.Prelude.{◌≡◌, ◌≢◌, ◌+◌, ◌<◌, ◌≤◌, length, take, vec_len, IfOk, OnOk, OnErr, IfErr, IsErrOf};
ghost use Rattle.io_edges.specs.Faults.{NeverFalls, Rose};
ghost use Rattle.io_edges.specs.Reads.{ReadToEnd, TookAtMost, TookCount};

use crate::{Bytes, Failed, NoMemory, Source};
use std::alloc::Global;

/// The first and smallest piece that is read, in bytes. Later pieces grow with what came, up to the greatest, which the
/// caches of a processor hold between its clearing and its reading.
const PIECE: usize = 65536;

const PIECE_MOST: usize = 1 << 20;

/// The room that a buffer has at first, in bytes. What of it is never written takes no memory, and a buffer that has it is
/// not moved while it grows.
const ROOM: u64 = 1 << 26;

/// Why a source was not read to its end.
#[derive(Clone, Copy, Debug, PartialEq, Eq)]
pub enum ReadRefusal {
    /// Number 1: memory ran out.
    NoMemory = 1,
    /// Number 2: a read failed, and the source's count of faults rose.
    ReadFault = 2,
    /// Number 3: the source gave more bytes than allowed.
    TooLong = 3,
}

impl ReadRefusal {
    /// The number of the refusal.
    pub fn number(self) -> u8
        ensures no_memory { self ≡ ReadRefusal.NoMemory → result ≡ 1 }
        ensures read_fault { self ≡ ReadRefusal.ReadFault → result ≡ 2 }
        ensures too_long { self ≡ ReadRefusal.TooLong → result ≡ 3 }
    {
        self as u8
    }
}

impl From<Failed> for ReadRefusal {
    ghost use Rattle.std.specs.Prelude.{◌≡◌};
    ghost use Rattle.io_edges.specs.declared.reading.ReadRefusal.TheVariants as refusals;

    ghost from_gives = { λ _ refusal. refusal ≡ refusals.ReadFault };

    fn from(_failed: Failed) -> ReadRefusal {
        ReadRefusal::ReadFault
    }
}

impl From<NoMemory> for ReadRefusal {
    ghost use Rattle.std.specs.Prelude.{◌≡◌};
    ghost use Rattle.io_edges.specs.declared.reading.ReadRefusal.TheVariants as refusals;

    ghost from_gives = { λ _ refusal. refusal ≡ refusals.NoMemory };

    fn from(_no_memory: NoMemory) -> ReadRefusal {
        ReadRefusal::NoMemory
    }
}

/// Reads a source to its end, at most `most` bytes.
///
/// Proved: the loop ends, and each turn of it but the last takes at least one byte. Counted here, and in no
/// clause: so there are at most `most + 1` calls of the source.
///
/// Memory: at most what came, and a piece of at most 1 MiB. Room for 64 MiB, or for `most` bytes where they are fewer, is
/// asked for at once, and given back behind what came; where more came a buffer that is full is moved into one twice as
/// large. Time: one step for each byte.
///
/// What was taken off the source before a refusal is let go. `TooLong`: it gave `most + 1` bytes. `ReadFault`:
/// its count of faults rose, and it gave at most `most` bytes. `NoMemory`: it gave at most `most` bytes.
pub fn read_all<S: Source>(alloc: Global, source: &mut S, most: u64) -> Result<Bytes, ReadRefusal>
    ensures read { IfOk result (ReadToEnd (S.left source.old) (S.left source.new)) }
    ensures within { IfOk result (λ bytes. length bytes ≤ most) }
    ensures read_fault { IsErrOf result ReadRefusal.ReadFault →
        Rose (S.faults source.old) (S.faults source.new) }
    ensures too_long { IsErrOf result ReadRefusal.TooLong →
        TookCount (S.left source.old) (S.left source.new) (most + 1) }
    ensures taken { IfErr result (λ refusal.
        refusal ≢ ReadRefusal.TooLong → TookAtMost (S.left source.old) (S.left source.new) most) }
    ensures count { NeverFalls (S.faults source.old) (S.faults source.new) }
{
    let mut buffer = empty_buffer(alloc, most);
    let mut at = 0;
    loop {
        make_room(&mut buffer, at, most)?;
        let n = source.read(&mut buffer[at..])?;
        if n == 0 {
            buffer.truncate(at);
            buffer.shrink_to_fit();
            return Ok(Bytes::from(buffer));
        }
        at += n;
        if at as u64 > most {
            return Err(ReadRefusal::TooLong);
        }
    }
}

/// A buffer without a byte, which mostly has room for all that will come.
fn empty_buffer(alloc: Global, most: u64) -> Vec<u8>
    ensures { vec_len result ≡ 0 }
{
    let room = most.saturating_add(1).min(ROOM);
    Vec::with_capacity(alloc, room as usize).unwrap_or_else(|_| Vec::new(alloc))
}

/// Makes room in a buffer behind its first `at` bytes, where there is none: as much again as the buffer has,
/// at least a small piece and at most a great one, and up to `most + 1` in all.
///
/// `NoMemory`: the buffer is as before.
fn make_room(buffer: &mut Vec<u8>, at: usize, most: u64) -> Result<(), NoMemory>
    requires allowed { at ≤ most }
    requires filled { at ≤ vec_len buffer.old }
    requires within { vec_len buffer.old ≤ most + 1 }
    ensures room { OnOk result (at < vec_len buffer.new) }
    ensures within { OnOk result (vec_len buffer.new ≤ most + 1) }
    ensures kept { take at buffer.new.items ≡ take at buffer.old.items }
{
    let len = buffer.len();
    if at < len {
        return Ok(());
    }
    let piece = len.clamp(PIECE, PIECE_MOST);
    let size = len.checked_add(piece).ok_or(NoMemory)?;
    buffer.resize(size.min(most.saturating_add(1) as usize), 0)?;
    Ok(())
}
