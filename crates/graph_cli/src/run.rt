//! Running a script on a log.

ghost use Rattle.std.specs.Prelude.{◌≡◌, ◌⊎◌, ◌+◌, ◌<◌, ◌≤◌, ℕ, Bool, true, List, Option, Result, [], IsOk, OnOk, OnErr, IfOk, IfErr};
ghost use Rattle.io_edges.specs.Faults.{NeverFalls, Rose};
ghost use Rattle.io_edges.specs.declared.write_fault.WriteFault.{WriteFault};
ghost use Rattle.io_edges.specs.Reads.{TookAtMost};
ghost use Rattle.io_edges.specs.Writes.{Appended, AppendedPart};
ghost use Rattle.request_text.specs.ReplyText.{replies_text};
ghost use Rattle.request_text.specs.Limits.{AreWithinLimits};
ghost use Rattle.store_log.specs.Written.{Origin};
ghost use Rattle.run_opening.specs.Script.{script_most, ReadScript};
ghost use Rattle.run_opening.specs.Moments.{IsSettledAsRead};
ghost use Rattle.script_runs.specs.Logged.{HasGoneOn};
ghost use Rattle.run_opening.specs.Opening.{Unrun, IsOpened};
ghost use Rattle.run_ending.specs.Report.{empty_report};
ghost use Rattle.run_ending.specs.Ran.{Refused, RanAs};
ghost use Rattle.run_ending.specs.Ending.{HasNotRun, IsOrigin, status_after, report_of};
ghost use Rattle.graph_cli.specs.Running.{RanScript};

use disk_model::Disk;
use graph_model::Base;
use graph_wal::Wal;
use io_edges::{Gate, OutBuffer, Sink, Source, WriteFault};
use log_commands::Status;
use reply_printing::print_side_by_side;
use request_text::Replies;
use run_ending::{Ended, status_after};
use run_opening::{Opened, open_run};
use script_runs::{ScriptRun, run_on_log};
use std::alloc::Global;
use std::snapshot::Snapshot;
use std::sync::Wait;
use std::thread::Threads;

/// Runs the script of a source on the log of a disk by so many workers, on a store of so many shards, 1 to 64 each, and
/// writes a line for each reply to the sink.
///
/// The order is: the log is made firm and recovered, the script is read, and judged by as many threads as there are
/// workers, what stands behind the log is cut off, the store is opened, the requests run, an attempt that failed last is
/// mended, and the replies are spelled, by as many threads, and printed. The status names the first thing that went wrong
/// in this order, but that a failed print goes before a failed mending.
pub(crate) fn run<
    S: Source,
    K: Sink,
    D: Disk + Send + Sync,
    G: Gate + Sync,
    R: Threads + Wait + Sync,
>(
    rt: &R,
    alloc: Global,
    workers: u32,
    shards: u32,
    source: &mut S,
    sink: &mut K,
    disk: D,
    gate: &G,
) -> Ended<D>
    ghost settled: { Bool }
    requires workers { 0 < workers }
    requires shards { (0 < shards) × (shards ≤ 64) }
    requires settled { settled ≡ true → IsSettledAsRead D.told D.moment D.images disk }
    ensures ends { (Refused D.told D.moment D.images D.faults disk result.disk result.status
        (Unrun result.status (S.left source.old) (S.left source.new) (S.faults source.old) (S.faults source.new)
        (D.told disk) (D.faults disk) (D.faults result.disk))
        × (sink.new ≡ sink.old) × (result.report ≡ empty_report))
        ⊎ (RanScript D.told D.moment D.images D.faults settled workers disk result.disk
        (S.left source.old) (S.left source.new) result.report result.status
        × RanAs result.status (K.written sink.old) (K.written sink.new) (K.faults sink.old) (K.faults sink.new)
        (D.faults disk) (D.faults result.disk) (replies_text result.report.replies)) }
    ensures keeps { HasGoneOn D.told D.moment D.faults (D.moment disk) disk result.disk }
    ensures taken { TookAtMost (S.left source.old) (S.left source.new) (script_most + 1) }
    ensures source_count { NeverFalls (S.faults source.old) (S.faults source.new) }
    ensures sink_count { NeverFalls (K.faults sink.old) (K.faults sink.new) }
{
    let mut disk = disk;
    let entry = Snapshot::of(&disk);
    match open_run(rt, alloc, workers, source, &mut disk) {
        Ok(opened) => run_opened(rt, alloc, entry, opened, workers, shards, sink, disk, gate),
        Err(status) => Ended::without_run(alloc, status, disk),
    }
}

/// Runs a script on a log that was opened, and writes a line for each reply to the sink. What the disk was at entry is
/// for clauses alone.
fn run_opened<K: Sink, D: Disk + Send + Sync, G: Gate + Sync, R: Threads + Wait + Sync>(
    rt: &R,
    alloc: Global,
    entry: Snapshot<D>,
    opened: Opened,
    workers: u32,
    shards: u32,
    sink: &mut K,
    disk: D,
    gate: &G,
) -> Ended<D>
    ghost origin: { Origin }
    requires workers { 0 < workers }
    requires shards { (0 < shards) × (shards ≤ 64) }
    requires opened { IsOpened D.told D.moment D.images entry.value disk
        opened.records.value opened.base opened.durable }
    requires origin { IsOrigin D.told D.moment D.images disk opened.records.value opened.base origin }
    requires within { AreWithinLimits opened.script }
    requires empty { opened.buffer.pending ≡ [] }
    ensures ends { (settled : Bool) (left left' : Option (List ℕ)) → ReadScript left left' opened.script →
        D.moment entry.value ≤ origin.since → (settled ≡ true → origin.since ≡ D.moment entry.value) →
        HasGoneOn D.told D.moment D.faults (D.moment entry.value) entry.value disk →
        HasNotRun disk result.disk result.status result.report sink.old sink.new
        ⊎ (RanScript D.told D.moment D.images D.faults settled workers entry.value result.disk
        left left' result.report result.status
        × RanAs result.status (K.written sink.old) (K.written sink.new) (K.faults sink.old) (K.faults sink.new)
        (D.faults entry.value) (D.faults result.disk) (replies_text result.report.replies)) }
    ensures keeps { HasGoneOn D.told D.moment D.faults origin.since disk result.disk }
    ensures count { NeverFalls (K.faults sink.old) (K.faults sink.new) }
{
    let _entry = entry;
    let Opened {
        base,
        durable,
        script,
        buffer,
        records: _,
    } = opened;
    let wal = Wal::adopt(disk, durable);
    match run_on_log(rt, alloc, &base, wal, script, workers, shards, gate) {
        Ok(run) => finish(rt, alloc, workers, buffer, sink, base, run),
        Err(disk) => Ended::without_run(alloc, Status::NoMemory, disk),
    }
}

/// Writes the replies of a run from this base, which so many threads spell where there are many, and says how it ended.
fn finish<K: Sink, D: Disk, R: Threads + Sync>(
    rt: &R,
    alloc: Global,
    threads: u32,
    buffer: OutBuffer,
    sink: &mut K,
    base: Base,
    run: ScriptRun<D>,
) -> Ended<D>
    requires { buffer.pending ≡ [] }
    ensures report { result.report ≡ report_of base [] run.replies run.closed }
    ensures disk { result.disk ≡ run.closed.disk }
    ensures done { result.status ≡ Status.Done → IsOk run.closed.mended }
    ensures status { (printed : Result (Unit {0}) WriteFault) × (result.status ≡ status_after printed run.closed.mended) }
    ensures ran { (entry exit : ℕ) → IfErr run.closed.mended
        (λ fault. (entry ≤ fault.before) × (fault.after ≡ exit) × Rose fault.before fault.after) →
        RanAs result.status (K.written sink.old) (K.written sink.new) (K.faults sink.old) (K.faults sink.new)
        entry exit (replies_text run.replies) }
    ensures count { NeverFalls (K.faults sink.old) (K.faults sink.new) }
{
    let ScriptRun { replies, closed } = run;
    let status = status_after(
        print(rt, alloc, threads, buffer, sink, &replies),
        closed.mended,
    );
    Ended::after_run(status, base, Replies::new(alloc), replies, closed)
}

/// Writes the replies, which so many threads spell where there are many.
///
/// `WriteFault`: the sink's count of faults rose, and the sink has a prefix of their text.
#[tactic(auto, using(run_ending::proofs::Printing::put_part))]
fn print<K: Sink, R: Threads + Sync>(
    rt: &R,
    alloc: Global,
    threads: u32,
    buffer: OutBuffer,
    sink: &mut K,
    replies: &Replies,
) -> Result<(), WriteFault>
    requires { buffer.pending ≡ [] }
    ensures printed { OnOk result
        (Appended (K.written sink.old) (K.written sink.new) (replies_text replies.now)) }
    ensures write_fault { OnErr result (Rose (K.faults sink.old) (K.faults sink.new)) }
    ensures part { OnErr result
        (AppendedPart (K.written sink.old) (K.written sink.new) (replies_text replies.now)) }
    ensures count { NeverFalls (K.faults sink.old) (K.faults sink.new) }
{
    let mut buffer = buffer;
    print_side_by_side(rt, alloc, threads, &mut buffer, sink, replies)?;
    buffer.flush(sink)
}
