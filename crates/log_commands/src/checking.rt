//! Checking a log.

ghost use Rattle.std.specs.Prelude.{◌≡◌, ◌≤◌, ℕ, List, [], OnOk, OnErr, IfOk, IfErr};
ghost use Rattle.io_edges.specs.Faults.{NeverFalls, Rose};
ghost use Rattle.io_edges.specs.Writes.{Appended, AppendedPart};
ghost use Rattle.log_commands.specs.Opening.{IsUnwritten, Unopened};
ghost use Rattle.log_commands.specs.Status.{HasPrinted, Printed, IsDoneOrNoMemory};
ghost use Rattle.graph_dump.specs.CheckText.{text_of_log};
ghost use Rattle.log_commands.specs.Check.{IsCheck, CanCheck};

use crate::Status;
use crate::buffer::BUFFER_ROOM;
use disk_model::Disk;
use graph_dump::check_text_through;
use graph_recover::{Recovered, recover};
use io_edges::{OutBuffer, Sink, WriteFault};
use std::alloc::Global;

/// Writes a line that tells of a log to the sink: its last epoch, its records, its durable length, and what
/// follows that. The disk is only read.
///
/// A status other than `Done` and `WriteFault`: nothing was written. Memory: the log, its records, and a graph.
#[tactic(auto, using(crate::proofs::Ending::unopened_silent, crate::proofs::Ending::unopened_done))]
pub fn check<K: Sink, D: Disk>(alloc: Global, sink: &mut K, disk: &mut D) -> Status
    ensures checked { HasPrinted result →
        (text : List ℕ) × IsCheck (D.told disk.old) text × Printed result
        (K.written sink.old) (K.written sink.new) (K.faults sink.old) (K.faults sink.new) text }
    ensures refused { ¬ HasPrinted result →
        Unopened result (D.told disk.old) (D.faults disk.old) (D.faults disk.new) }
    ensures silent { ¬ HasPrinted result → sink.new ≡ sink.old }
    ensures complete { CanCheck (D.told disk.old) →
        ¬ Rose (D.faults disk.old) (D.faults disk.new) →
        ¬ Rose (K.faults sink.old) (K.faults sink.new) → IsDoneOrNoMemory result }
    ensures unwritten { IsUnwritten D.told D.moment D.images disk.old disk.new }
    ensures disk_count { NeverFalls (D.faults disk.old) (D.faults disk.new) }
    ensures sink_count { NeverFalls (K.faults sink.old) (K.faults sink.new) }
{
    let (log, buffer) = match prepare(alloc, disk) {
        Ok(prepared) => prepared,
        Err(status) => return status,
    };
    match print(buffer, sink, &log) {
        Ok(()) => Status::Done,
        Err(WriteFault) => Status::WriteFault,
    }
}

/// The log on a disk, and a buffer to print through. The disk is only read.
fn prepare<D: Disk>(alloc: Global, disk: &mut D) -> Result<(Recovered, OutBuffer), Status>
    ensures checked { IfOk result (λ r.
        IsCheck (D.told disk.old) (text_of_log r.0)) }
    ensures empty { IfOk result (λ r. r.1.pending ≡ []) }
    ensures durable { IfOk result (λ r. r.0.durable ≤ r.0.length) }
    ensures refused { IfErr result (λ status.
        Unopened status (D.told disk.old) (D.faults disk.old) (D.faults disk.new)) }
    ensures unwritten { IsUnwritten D.told D.moment D.images disk.old disk.new }
    ensures disk_count { NeverFalls (D.faults disk.old) (D.faults disk.new) }
{
    let log = recover(alloc, disk)?;
    let buffer = OutBuffer::new(alloc, BUFFER_ROOM)?;
    Ok((log, buffer))
}

/// Writes the line of a log.
///
/// `WriteFault`: the sink's count of faults rose, and the sink has a prefix of the line.
#[tactic(auto, using(crate::proofs::Printing::put_part))]
fn print<K: Sink>(buffer: OutBuffer, sink: &mut K, log: &Recovered) -> Result<(), WriteFault>
    requires empty { buffer.pending ≡ [] }
    requires durable { log.now.durable ≤ log.now.length }
    ensures printed { OnOk result (Appended (K.written sink.old) (K.written sink.new)
        (text_of_log log.now)) }
    ensures write_fault { OnErr result (Rose (K.faults sink.old) (K.faults sink.new)) }
    ensures part { OnErr result (AppendedPart (K.written sink.old) (K.written sink.new)
        (text_of_log log.now)) }
    ensures count { NeverFalls (K.faults sink.old) (K.faults sink.new) }
{
    let mut buffer = buffer;
    check_text_through(&mut buffer, sink, log)?;
    buffer.flush(sink)
}
