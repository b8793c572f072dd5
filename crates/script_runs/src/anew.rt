//! A script on a new log.

ghost use Rattle.std.specs.Prelude.{◌≡◌, ◌<◌, ◌≤◌, IfSome, [], length};
ghost use Rattle.graph_model.specs.Records.{empty_base};
ghost use Rattle.request_text.specs.Limits.{AreWithinLimits};
ghost use Rattle.graph_legal.specs.Legal.{Legal};
ghost use Rattle.script_runs.specs.Runs.{shared};

use crate::run::{ScriptRun, run_on_log};
use disk_model::Disk;
use graph_store::empty_base;
use graph_wal::Wal;
use io_edges::Gate;
use script_parts::ScriptParts;
use std::alloc::Global;
use std::sync::Wait;
use std::thread::Threads;

/// Runs the lines of a script by so many workers on a store of so many shards, over a new log on an empty disk, as
/// `run_on_log` does; None where the disk failed or memory ran out.
pub fn run_anew<D: Disk + Send + Sync + Drop, G: Gate + Sync, R: Threads + Wait + Sync>(
    rt: &R,
    alloc: Global,
    disk: D,
    script: ScriptParts,
    workers: u32,
    shards: u32,
    gate: &G,
) -> Option<ScriptRun<D>>
    requires empty { IfSome (D.told disk) (λ b. b ≡ []) }
    requires within { AreWithinLimits script }
    requires workers { 0 < workers }
    requires shards { (0 < shards) × (shards ≤ 64) }
    ensures len { IfSome result (λ run. length run.replies ≡ length script) }
    ensures legal { IfSome result (λ run. Legal (shared script workers) empty_base run.closed.records run.replies) }
{
    let Ok(wal) = Wal::make(disk) else {
        return None;
    };
    let base = empty_base(alloc);
    run_on_log(rt, alloc, &base, wal, script, workers, shards, gate).ok()
}
