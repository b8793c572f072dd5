//! Dumping the graph that a log makes.

ghost use Rattle.std.specs.Prelude.{◌≡◌, ◌<◌, ◌^◌, ℕ, List, [], OnOk, OnErr, IfOk, IfErr};
ghost use Rattle.io_edges.specs.Faults.{NeverFalls, Rose};
ghost use Rattle.io_edges.specs.Writes.{Appended, AppendedPart};
ghost use Rattle.graph_model.specs.Graph.{at};
ghost use Rattle.log_commands.specs.Opening.{IsUnwritten};
ghost use Rattle.log_commands.specs.Status.{HasPrinted, Printed, IsDoneOrNoMemory};
ghost use Rattle.graph_dump.specs.DumpText.{text_of_graph, edge_count};
ghost use Rattle.log_commands.specs.Dump.{IsDump, Undumped, CanDump};

use crate::Status;
use crate::buffer::BUFFER_ROOM;
use disk_model::Disk;
use graph_dump::dump_text_through;
use graph_model::{Base, Graph, Records};
use graph_recover::{Recovered, recover};
use io_edges::{OutBuffer, Sink, WriteFault};
use std::alloc::Global;

/// Writes the graph that a log makes at an epoch, or at its last one, to the sink. The disk is only read.
///
/// A status other than `Done` and `WriteFault`: nothing was written. Memory: the log, its records, and at most
/// two graphs.
#[tactic(auto, using(crate::proofs::Ending::undumped_silent, crate::proofs::Ending::undumped_done))]
pub fn dump<K: Sink, D: Disk>(
    alloc: Global,
    asked: Option<u64>,
    sink: &mut K,
    disk: &mut D,
) -> Status
    ensures dumped { HasPrinted result →
        (text : List ℕ) × IsDump (D.told disk.old) asked text × Printed result
        (K.written sink.old) (K.written sink.new) (K.faults sink.old) (K.faults sink.new) text }
    ensures refused { ¬ HasPrinted result →
        Undumped result (D.told disk.old) asked (D.faults disk.old) (D.faults disk.new) }
    ensures silent { ¬ HasPrinted result → sink.new ≡ sink.old }
    ensures complete { CanDump (D.told disk.old) asked →
        ¬ Rose (D.faults disk.old) (D.faults disk.new) →
        ¬ Rose (K.faults sink.old) (K.faults sink.new) → IsDoneOrNoMemory result }
    ensures unwritten { IsUnwritten D.told D.moment D.images disk.old disk.new }
    ensures disk_count { NeverFalls (D.faults disk.old) (D.faults disk.new) }
    ensures sink_count { NeverFalls (K.faults sink.old) (K.faults sink.new) }
{
    let (graph, epoch, buffer) = match prepare(alloc, asked, disk) {
        Ok(prepared) => prepared,
        Err(status) => return status,
    };
    match print(buffer, sink, &graph, epoch) {
        Ok(()) => Status::Done,
        Err(WriteFault) => Status::WriteFault,
    }
}

/// The graph to show and its epoch, and a buffer to print it through. The disk is only read.
fn prepare<D: Disk>(
    alloc: Global,
    asked: Option<u64>,
    disk: &mut D,
) -> Result<(Graph, u64, OutBuffer), Status>
    ensures shown { IfOk result (λ r. IsDump (D.told disk.old) asked (text_of_graph r.0 r.1)) }
    ensures few { IfOk result (λ r. edge_count r.0 < 2 ^ 64) }
    ensures empty { IfOk result (λ r. r.2.pending ≡ []) }
    ensures refused { IfErr result (λ status.
        Undumped status (D.told disk.old) asked (D.faults disk.old) (D.faults disk.new)) }
    ensures unwritten { IsUnwritten D.told D.moment D.images disk.old disk.new }
    ensures disk_count { NeverFalls (D.faults disk.old) (D.faults disk.new) }
{
    let Recovered { base, records, .. } = recover(alloc, disk)?;
    let Base {
        graph: newest,
        epoch: last,
        ..
    } = base;
    let epoch = asked.unwrap_or(last);
    if epoch > last {
        return Err(Status::BadEpoch { asked: epoch, last });
    }
    let graph = snapshot(alloc, newest, last, &records, epoch)?;
    let buffer = OutBuffer::new(alloc, BUFFER_ROOM)?;
    Ok((graph, epoch, buffer))
}

/// The graph at an epoch of the records of a log, whose newest graph and last epoch these are.
///
/// `NoMemory` is the only error, since the changes of a log all fit.
fn snapshot(
    alloc: Global,
    newest: Graph,
    last: u64,
    records: &Records,
    epoch: u64,
) -> Result<Graph, Status>
    requires { newest ≡ at [] records.now last }
    ensures at { IfOk result (λ graph. graph ≡ at [] records.now epoch) }
    ensures no_memory { IfErr result (λ status. status ≡ Status.NoMemory) }
{
    if epoch == last {
        return Ok(newest);
    }
    match Graph::at(alloc, &Graph::empty(alloc), records, epoch) {
        Ok(graph) => Ok(graph),
        Err(_) => Err(Status::NoMemory),
    }
}

/// Writes the text of a graph.
///
/// `WriteFault`: the sink's count of faults rose, and the sink has a prefix of the text.
#[tactic(auto, using(crate::proofs::Printing::put_part))]
fn print<K: Sink>(
    buffer: OutBuffer,
    sink: &mut K,
    graph: &Graph,
    epoch: u64,
) -> Result<(), WriteFault>
    requires empty { buffer.pending ≡ [] }
    requires few { edge_count graph.now < 2 ^ 64 }
    ensures printed { OnOk result
        (Appended (K.written sink.old) (K.written sink.new) (text_of_graph graph.now epoch)) }
    ensures write_fault { OnErr result (Rose (K.faults sink.old) (K.faults sink.new)) }
    ensures part { OnErr result
        (AppendedPart (K.written sink.old) (K.written sink.new) (text_of_graph graph.now epoch)) }
    ensures count { NeverFalls (K.faults sink.old) (K.faults sink.new) }
{
    let mut buffer = buffer;
    dump_text_through(&mut buffer, sink, graph, epoch)?;
    buffer.flush(sink)
}
