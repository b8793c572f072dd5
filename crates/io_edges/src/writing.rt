//! The loop that hands a whole piece to a sink.

ghost use Rattle.std.specs.Prelude.{OnOk, OnErr};
ghost use Rattle.io_edges.specs.Faults.{NeverFalls, Rose};
ghost use Rattle.io_edges.specs.Writes.{Appended, AppendedPart};

use crate::{Sink, WriteFault};

/// Writes all of the bytes.
///
/// Proved: the loop ends, and each turn of it hands on at least one byte. Counted here, and in no clause: so
/// the calls of the sink are at most as many as the bytes.
///
/// `WriteFault`: the sink's count of faults rose, and the sink has a prefix of the bytes.
pub fn write_all<K: Sink>(sink: &mut K, bytes: &[u8]) -> Result<(), WriteFault>
    ensures written { OnOk result (Appended (K.written sink.old) (K.written sink.new) bytes.now) }
    ensures write_fault { OnErr result (Rose (K.faults sink.old) (K.faults sink.new)) }
    ensures part { OnErr result (AppendedPart (K.written sink.old) (K.written sink.new) bytes.now) }
    ensures count { NeverFalls (K.faults sink.old) (K.faults sink.new) }
{
    let mut at = 0;
    while at < bytes.len() {
        at += sink.write(&bytes[at..])?;
    }
    Ok(())
}
