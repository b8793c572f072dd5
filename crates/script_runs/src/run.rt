//! The run of a script on a log.

ghost use Rattle.std.specs.Prelude.{◌≡◌, ◌<◌, ◌≤◌, length, IfOk, IfErr, IsTrue};
ghost use Rattle.graph_model.specs.Records.{IsGood, list_most};
ghost use Rattle.request_text.specs.Limits.{AreWithinLimits};
ghost use Rattle.graph_legal.specs.Legal.{Legal};
ghost use Rattle.graph_legal.specs.Lines.{history};
ghost use Rattle.core_states.specs.Openings.{lists_within};
ghost use Rattle.store_log.specs.Written.{Origin};
ghost use Rattle.graph_store.specs.Closing.{HasEpochs};
ghost use Rattle.graph_store.specs.Found.{IsFound};
ghost use Rattle.script_runs.specs.Logged.{IsInLog, CountFaults, HasGoneOn};
ghost use Rattle.script_runs.specs.Runs.{shared};

use disk_model::Disk;
use graph_model::{Base, LIST_MOST};
use graph_store::{Closed, Settings, Store};
use graph_wal::Wal;
use io_edges::Gate;
use request_text::Replies;
use script_parts::ScriptParts;
use std::alloc::Global;
use std::sync::Wait;
use std::thread::Threads;
use store_workers::{ScriptRoom, run_script};

/// What a script that was run leaves.
#[derive(Drop)]
pub struct ScriptRun<D: Disk> {
    /// One reply for each line, in the order of the lines.
    pub replies: Replies,
    /// The records, and the log that has them.
    pub closed: Closed<D>,
}

/// Runs the lines of a script over the base that the records of a log make, by so many workers and on a store of so many
/// shards, 1 to 64. A worker passes the gate before each line that it runs, with the session and with the line's number,
/// counted from 1. The replies are legal for the records that committed. Transactions that are open at the end are given
/// up, and what a failed append left behind the records is taken off once more. The log has each group of records from the
/// moment that is told for its epoch, and a crash leaves what was durable then; at which moment a commit is answered no
/// clause says.
///
/// Ends: the script, whose memory is given back as its lines run, or once they have.
///
/// `Err`: memory ran out before the store was opened, and no line has run. The disk comes back exactly as it was.
///
/// Time: that of the opening, which is logarithmic for each vertex of the base and each shard, and linear in its edges and
/// bytes; for each worker one step for each line, and for each session up to the greatest; and that of the lines and their
/// gates. Nothing here says that the waits end.
pub fn run_on_log<D: Disk + Send + Sync, G: Gate + Sync, R: Threads + Wait + Sync>(
    rt: &R,
    alloc: Global,
    base: &Base,
    wal: Wal<D>,
    script: ScriptParts,
    workers: u32,
    shards: u32,
    gate: &G,
) -> Result<ScriptRun<D>, D>
    ghost origin: { Origin }
    requires shards { (0 < shards) × (shards ≤ 64) }
    requires workers { 0 < workers }
    requires good { IsGood base.now }
    requires lists { IsTrue (lists_within list_most base.now.graph) }
    requires log { IsFound D.told D.moment D.images base.now wal origin }
    requires within { AreWithinLimits script }
    ensures len { IfOk result (λ run. length run.replies ≡ length script) }
    ensures legal { IfOk result (λ run.
        Legal (shared script workers) base.now run.closed.records run.replies) }
    ensures no_memory { IfErr result (λ disk. disk ≡ wal.disk) }

    // The log has the records in groups, each from its moment on; and what a crash at any moment leaves.
    ensures logged { IfOk result (λ run. IsInLog D.told D.moment D.images origin base.now.epoch
        (history (shared script workers) run.replies) run.closed) }
    ensures epochs { IfOk result (λ run.
        HasEpochs base.now run.closed.records run.closed.durable_at run.closed.last_moment) }

    // What a fault explains, and nothing else.
    ensures faults { IfOk result (λ run. CountFaults (D.faults wal.disk) (D.faults run.closed.disk) run.closed.mended
        (history (shared script workers) run.replies)) }
    ensures keeps { IfOk result (λ run. HasGoneOn D.told D.moment D.faults origin.since wal.disk run.closed.disk) }
{
    let Ok(room) = ScriptRoom::new(alloc, &script, workers) else {
        return Err(wal.into_disk());
    };
    let settings = Settings {
        shards,
        log_most: LIST_MOST,
    };
    let (store, mut pass) = match Store::open_seat(alloc, base, wal, settings) {
        Ok(opened) => opened,
        Err(unopened) => {
            room.give_back();
            return Err(unopened.wal.into_disk());
        }
    };
    let replies = run_script(rt, alloc, &store, &mut pass, script, workers, room, gate);
    let closed = store.close_seat(pass);
    Ok(ScriptRun { replies, closed })
}
