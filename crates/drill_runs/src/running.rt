//! Running a drill on a log.

ghost use Rattle.std.specs.Prelude.{◌≡◌, ◌⊎◌, ℕ, ◌+◌, ◌<◌, ◌≤◌, ◌^◌, Bool, true, [], length, IsOk, IfErr};
ghost use Rattle.io_edges.specs.Faults.{NeverFalls, Rose};
ghost use Rattle.graph_model.specs.Records.{all_changes};
ghost use Rattle.request_text.specs.Limits.{AreWithinLimits};
ghost use Rattle.graph_dump.specs.DumpText.{edge_count};
ghost use Rattle.graph_drill.specs.Scripts.{first_script, second_script};
ghost use Rattle.store_log.specs.Written.{Origin};
ghost use Rattle.script_runs.specs.Logged.{HasGoneOn, count_before};
ghost use Rattle.run_opening.specs.Moments.{IsSettledAsRead};
ghost use Rattle.run_opening.specs.Opening.{IsOpened};
ghost use Rattle.run_ending.specs.Ran.{told_count};
ghost use Rattle.run_ending.specs.Ending.{HasNotRun, IsOrigin, report_of};
ghost use Rattle.drill_runs.specs.Drills.{EndsDrill, RanDrill, DrilledAs, drill_text};

use crate::summary::sum_up;
use disk_model::Disk;
use graph_model::Base;
use graph_wal::Wal;
use io_edges::{Gate, OutBuffer, Sink};
use log_commands::Status;
use run_ending::Ended;
use run_opening::{OpenedDrill, open_drill};
use script_runs::{BothRun, run_both_on_log};
use std::alloc::Global;
use std::snapshot::Snapshot;
use std::sync::Wait;
use std::thread::Threads;

/// How many shards the store of a drill has.
const SHARDS: u32 = 16;

/// What a drill is to do.
#[derive(Clone, Copy, Debug, PartialEq, Eq)]
pub struct Plan {
    /// What its words are drawn from.
    pub seed: u64,
    /// How many sessions it has, from 1 to 65,535.
    pub sessions: u32,
    /// How many transactions each of them commits in the second script.
    pub rounds: u32,
    /// How many workers run the second script, from 1.
    pub workers: u32,
}

/// Runs the two scripts of a drill on the log of a disk, one after the other on one store, and writes a line to the sink
/// that sums up the graph after the last record. A worker passes the gate before each line.
///
/// The order is: the log is made firm and recovered, the scripts are made, what stands behind the log is cut off, the store
/// is opened, the requests run, an attempt that failed last is mended, and the line is printed. The status names the first
/// thing that went wrong in this order, but that a failed print, or want of memory for the last graph, goes before a failed
/// mending.
///
/// `Usage`: there are not so many numbers of vertices left below 2^62, and the bytes of the log are as they were.
/// `NoMemory`: memory ran out before the first request, and the report is empty; or there was none for the last graph behind
/// both scripts, and then the report tells of these and nothing was printed. Nothing here says that the waits end.
pub fn drill<K: Sink, D: Disk + Send + Sync, G: Gate + Sync, R: Threads + Wait + Sync>(
    rt: &R,
    alloc: Global,
    plan: Plan,
    sink: &mut K,
    disk: D,
    gate: &G,
) -> Ended<D>
    ghost settled: { Bool }
    requires workers { 0 < plan.workers }
    requires sessions { (0 < plan.sessions) × (plan.sessions ≤ 65535) }
    requires settled { settled ≡ true → IsSettledAsRead D.told D.moment D.images disk }
    ensures ends { EndsDrill K.written K.faults D.told D.moment D.images D.faults sink.old sink.new
        settled disk result plan }
    ensures keeps { HasGoneOn D.told D.moment D.faults (D.moment disk) disk result.disk }
    ensures count { NeverFalls (K.faults sink.old) (K.faults sink.new) }
{
    let mut disk = disk;
    let entry = Snapshot::of(&disk);
    match open_drill(alloc, plan.seed, plan.sessions, plan.rounds, &mut disk) {
        Ok(opened) => drill_opened(rt, alloc, entry, plan, opened, sink, disk, gate),
        Err(status) => Ended::without_run(alloc, status, disk),
    }
}

/// Runs the two scripts of a drill on a log that was opened, and writes its line to the sink. What the disk was at entry is
/// for clauses alone.
fn drill_opened<K: Sink, D: Disk + Send + Sync, G: Gate + Sync, R: Threads + Wait + Sync>(
    rt: &R,
    alloc: Global,
    entry: Snapshot<D>,
    plan: Plan,
    opened: OpenedDrill,
    sink: &mut K,
    disk: D,
    gate: &G,
) -> Ended<D>
    ghost origin: { Origin }
    requires workers { 0 < plan.workers }
    requires opened { IsOpened D.told D.moment D.images entry.value disk
        opened.records.value opened.base opened.durable }
    requires origin { IsOrigin D.told D.moment D.images disk opened.records.value opened.base origin }
    requires numbers { opened.base.next_vertex + plan.sessions ≤ 2 ^ 62 }
    requires first { opened.first ≡ first_script plan.sessions }
    requires second { opened.second ≡ second_script plan.seed opened.base.next_vertex plan.sessions plan.rounds }
    requires within { AreWithinLimits opened.first × AreWithinLimits opened.second }
    requires empty { opened.buffer.pending ≡ [] }
    requires changes { length (all_changes opened.records.value) < 2 ^ 63 }
    ensures ends { (settled : Bool) →
        D.moment entry.value ≤ origin.since → (settled ≡ true → origin.since ≡ D.moment entry.value) →
        HasGoneOn D.told D.moment D.faults (D.moment entry.value) entry.value disk →
        HasNotRun disk result.disk result.status result.report sink.old sink.new
        ⊎ (RanDrill D.told D.moment D.images D.faults settled plan entry.value result.disk result.report result.status
        × DrilledAs K.written K.faults sink.old sink.new result.status
        (D.faults entry.value) (D.faults result.disk) (drill_text result.report)) }
    ensures keeps { HasGoneOn D.told D.moment D.faults origin.since disk result.disk }
    ensures count { NeverFalls (K.faults sink.old) (K.faults sink.new) }
{
    let _entry = entry;
    let OpenedDrill {
        base,
        durable,
        first,
        second,
        buffer,
        records: _,
    } = opened;
    let wal = Wal::adopt(disk, durable);
    match run_both_on_log(
        rt,
        alloc,
        &base,
        wal,
        first,
        second,
        plan.workers,
        SHARDS,
        gate,
    ) {
        Ok(run) => finish(alloc, buffer, sink, base, run),
        Err(disk) => Ended::without_run(alloc, Status::NoMemory, disk),
    }
}

/// Writes the line of a drill from this base, and says how it ended.
fn finish<K: Sink, D: Disk>(
    alloc: Global,
    buffer: OutBuffer,
    sink: &mut K,
    base: Base,
    run: BothRun<D>,
) -> Ended<D>
    requires empty { buffer.pending ≡ [] }
    requires few { edge_count base.graph < 2 ^ 63 }
    ensures report { result.report ≡ report_of base run.first run.second run.closed }
    ensures disk { result.disk ≡ run.closed.disk }
    ensures done { result.status ≡ Status.Done → IsOk run.closed.mended }
    ensures told { (exit : ℕ) → count_before run.closed.mended exit ≤ exit →
        count_before run.closed.mended exit ≤ told_count result.status exit }
    ensures drilled { (entry exit : ℕ) → IfErr run.closed.mended
        (λ fault. (entry ≤ fault.before) × (fault.after ≡ exit) × Rose fault.before fault.after) →
        DrilledAs K.written K.faults sink.old sink.new result.status entry exit
        (drill_text (report_of base run.first run.second run.closed)) }
    ensures count { NeverFalls (K.faults sink.old) (K.faults sink.new) }
{
    let BothRun {
        first: setup,
        second: replies,
        closed,
    } = run;
    let status = sum_up(alloc, buffer, sink, &base, &closed.records, closed.mended);
    Ended::after_run(status, base, setup, replies, closed)
}
