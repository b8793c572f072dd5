//! The summary of a drill.

ghost use Rattle.std.specs.Prelude.{◌≡◌, ℕ, ◌<◌, ◌≤◌, ◌^◌, [], length, IsOk, OnOk, OnErr, IfErr, IfSome};
ghost use Rattle.io_edges.specs.Faults.{NeverFalls, Rose};
ghost use Rattle.io_edges.specs.Writes.{Appended, AppendedPart};
ghost use Rattle.graph_model.specs.Graph.{at};
ghost use Rattle.graph_model.specs.Records.{all_changes, last_epoch};
ghost use Rattle.graph_dump.specs.DumpText.{edge_count};
ghost use Rattle.graph_drill.specs.Summary.{summary_text};
ghost use Rattle.script_runs.specs.Logged.{count_before};
ghost use Rattle.run_ending.specs.Ran.{told_count};
ghost use Rattle.drill_runs.specs.Drills.{DrilledAs};

use graph_drill::drill_text_through;
use graph_model::{Base, Graph, Record, Records};
use graph_wal::DiskFault;
use io_edges::{OutBuffer, Sink, WriteFault};
use log_commands::Status;
use run_ending::status_after;
use std::alloc::Global;

/// No memory holds so many changes.
const CHANGES_END: u64 = 1 << 63;

/// The graph after the last of the records that continue a base; None where there is no memory for it.
fn last_graph(alloc: Global, base: &Base, records: &Records) -> Option<Graph>
    requires few { edge_count base.now.graph < 2 ^ 63 }
    ensures graph { IfSome result (λ g.
        g ≡ at base.now.graph records.now (last_epoch base.now.epoch records.now)) }
    ensures few { IfSome result (λ g. edge_count g < 2 ^ 64) }
{
    if change_count(records.as_slice())? >= CHANGES_END {
        return None;
    }
    let last = last_epoch(base.epoch, records.as_slice());
    match Graph::at(alloc, &base.graph, records, last) {
        Ok(graph) => Some(graph),
        Err(_) => None,
    }
}

/// How many changes the records have; None where they are more than can be counted.
fn change_count(records: &[Record]) -> Option<u64>
    ensures { IfSome result (λ n. n ≡ length (all_changes records.now)) }
{
    let mut count = 0u64;
    for record in records {
        count = count.checked_add(record.changes.len() as u64)?;
    }
    Some(count)
}

/// The epoch of the last record, or this one where there is none.
fn last_epoch(epoch: u64, records: &[Record]) -> u64
    ensures { result ≡ last_epoch epoch records.now }
{
    match records.last() {
        Some(record) => record.epoch,
        None => epoch,
    }
}

/// Prints the summary of a graph and of so many commits.
///
/// `WriteFault`: the sink's count of faults rose, and the sink has a prefix of the text.
fn print<K: Sink>(
    buffer: OutBuffer,
    sink: &mut K,
    g: &Graph,
    commits: u64,
) -> Result<(), WriteFault>
    requires empty { buffer.pending ≡ [] }
    requires few { edge_count g.now < 2 ^ 64 }
    ensures printed { OnOk result (Appended (K.written sink.old) (K.written sink.new) (summary_text g.now commits)) }
    ensures write_fault { OnErr result (Rose (K.faults sink.old) (K.faults sink.new)) }
    ensures part { OnErr result (AppendedPart (K.written sink.old) (K.written sink.new) (summary_text g.now commits)) }
    ensures count { NeverFalls (K.faults sink.old) (K.faults sink.new) }
{
    let mut buffer = buffer;
    drill_text_through(&mut buffer, sink, g, commits)?;
    buffer.flush(sink)
}

/// Writes the line of a drill from this base, whose last mending ended so, and says how it ended: with `NoMemory`, and
/// nothing written, where there is no memory for the last graph.
pub(crate) fn sum_up<K: Sink>(
    alloc: Global,
    buffer: OutBuffer,
    sink: &mut K,
    base: &Base,
    records: &Records,
    mended: Result<(), DiskFault>,
) -> Status
    requires empty { buffer.pending ≡ [] }
    requires few { edge_count base.now.graph < 2 ^ 63 }
    ensures done { result ≡ Status.Done → IsOk mended }
    ensures told { (exit : ℕ) → count_before mended exit ≤ exit → count_before mended exit ≤ told_count result exit }
    ensures drilled { (entry exit : ℕ) → IfErr mended
        (λ fault. (entry ≤ fault.before) × (fault.after ≡ exit) × Rose fault.before fault.after) →
        DrilledAs K.written K.faults sink.old sink.new result entry exit
        (summary_text (at base.now.graph records.now (last_epoch base.now.epoch records.now)) (length records.now)) }
    ensures count { NeverFalls (K.faults sink.old) (K.faults sink.new) }
{
    let Some(graph) = last_graph(alloc, base, records) else {
        return Status::NoMemory;
    };
    let commits = records.len() as u64;
    status_after(print(buffer, sink, &graph, commits), mended)
}
