//! The run of two scripts on a log, one after the other.

ghost use Rattle.std.specs.Prelude.{◌≡◌, ◌<◌, ◌≤◌, ◌++◌, length, IfOk, IfErr, IsTrue};
ghost use Rattle.graph_model.specs.Records.{IsGood, list_most};
ghost use Rattle.request_text.specs.Limits.{AreWithinLimits};
ghost use Rattle.graph_legal.specs.Legal.{Legal};
ghost use Rattle.graph_legal.specs.Lines.{history};
ghost use Rattle.core_states.specs.Openings.{lists_within};
ghost use Rattle.store_log.specs.Written.{Origin};
ghost use Rattle.graph_store.specs.Closing.{HasEpochs};
ghost use Rattle.graph_store.specs.Found.{IsFound};
ghost use Rattle.script_runs.specs.Logged.{IsInLog, CountFaults, HasGoneOn};
ghost use Rattle.script_runs.specs.Runs.{shared_behind};

use disk_model::Disk;
use graph_model::{Base, LIST_MOST};
use graph_store::{Closed, Settings, Store};
use graph_wal::Wal;
use io_edges::Gate;
use request_text::Replies;
use script_parts::ScriptParts;
use std::alloc::Global;
use std::sync::Wait;
use std::thread::Threads;
use store_workers::{ScriptRoom, run_script};

/// What two scripts leave that were run one after the other.
#[derive(Drop)]
pub struct BothRun<D: Disk> {
    /// One reply for each line of the first script, in the order of the lines.
    pub first: Replies,
    /// One reply for each line of the second script, in the order of the lines.
    pub second: Replies,
    /// The records of both, and the log that has them.
    pub closed: Closed<D>,
}

/// Runs the lines of two scripts over the base that the records of a log make, on a store of so many shards, 1 to 64: those
/// of the first by one worker, and once they are over those of the second by so many workers. What the first one has open
/// at its end is given up before the second one begins. The replies to both are legal for the records that committed: so
/// the second script reads what the first one committed. A worker passes the gate before each line that it runs, with the
/// session and with the line's number in its script, counted from 1. Else all is as `run_on_log` has it.
///
/// Ends: the scripts, whose memory is given back as their lines run, or once they have.
///
/// `Err`: memory ran out before the store was opened, and no line of either script has run. The disk comes back exactly as
/// it was.
///
/// Time: that of the opening, as `run_on_log` has it; for each worker of a script one step for each line, and for each
/// session up to the greatest; and that of the lines and their gates. The memory for both scripts is taken at the start.
/// Nothing here says that the waits end.
pub fn run_both_on_log<D: Disk + Send + Sync, G: Gate + Sync, R: Threads + Wait + Sync>(
    rt: &R,
    alloc: Global,
    base: &Base,
    wal: Wal<D>,
    first: ScriptParts,
    second: ScriptParts,
    workers: u32,
    shards: u32,
    gate: &G,
) -> Result<BothRun<D>, D>
    ghost origin: { Origin }
    requires shards { (0 < shards) × (shards ≤ 64) }
    requires workers { 0 < workers }
    requires good { IsGood base.now }
    requires lists { IsTrue (lists_within list_most base.now.graph) }
    requires log { IsFound D.told D.moment D.images base.now wal origin }
    requires within { AreWithinLimits first × AreWithinLimits second }
    ensures len { IfOk result (λ run.
        (length run.first ≡ length first) × (length run.second ≡ length second)) }
    ensures legal { IfOk result (λ run. Legal (shared_behind first second workers) base.now run.closed.records
        (run.first ++ run.second)) }
    ensures no_memory { IfErr result (λ disk. disk ≡ wal.disk) }

    // The log has the records in groups, each from its moment on; and what a crash at any moment leaves.
    ensures logged { IfOk result (λ run. IsInLog D.told D.moment D.images origin base.now.epoch
        (history (shared_behind first second workers) (run.first ++ run.second)) run.closed) }
    ensures epochs { IfOk result (λ run.
        HasEpochs base.now run.closed.records run.closed.durable_at run.closed.last_moment) }

    // What a fault explains, and nothing else.
    ensures faults { IfOk result (λ run. CountFaults (D.faults wal.disk) (D.faults run.closed.disk) run.closed.mended
        (history (shared_behind first second workers) (run.first ++ run.second))) }
    ensures keeps { IfOk result (λ run. HasGoneOn D.told D.moment D.faults origin.since wal.disk run.closed.disk) }
{
    let Ok(first_room) = ScriptRoom::new(alloc, &first, 1) else {
        return Err(wal.into_disk());
    };
    let Ok(second_room) = ScriptRoom::new(alloc, &second, workers) else {
        first_room.give_back();
        return Err(wal.into_disk());
    };
    let settings = Settings {
        shards,
        log_most: LIST_MOST,
    };
    let (store, mut pass) = match Store::open_seat(alloc, base, wal, settings) {
        Ok(opened) => opened,
        Err(unopened) => {
            first_room.give_back();
            second_room.give_back();
            return Err(unopened.wal.into_disk());
        }
    };
    let first_replies = run_script(rt, alloc, &store, &mut pass, first, 1, first_room, gate);
    let second_replies = run_script(
        rt,
        alloc,
        &store,
        &mut pass,
        second,
        workers,
        second_room,
        gate,
    );
    let closed = store.close_seat(pass);
    Ok(BothRun {
        first: first_replies,
        second: second_replies,
        closed,
    })
}
