//! Reading a script.

ghost use Rattle.std.specs.Prelude.{◌≡◌, ◌+◌, OnErr, IfOk, IfErr};
ghost use Rattle.io_edges.specs.Faults.{NeverFalls};
ghost use Rattle.io_edges.specs.Reads.{TookAtMost};
ghost use Rattle.request_text.specs.Limits.{AreWithinLimits};
ghost use Rattle.run_opening.specs.Script.{script_most, ReadScript, Unread};

use io_edges::{Source, read_all};
use log_commands::Status;
use script_parts::ScriptParts;
use script_reading::read_side_by_side;
use std::alloc::Global;
use std::thread::Threads;

/// The greatest length of a script, in bytes.
const SCRIPT_MOST: u64 = 268435456;

/// The script that a source has, which is read to its end, and then judged by so many threads.
#[tactic(auto, using(crate::proofs::Reading::took_at_most))]
pub(crate) fn read_whole<S: Source, R: Threads + Sync>(
    rt: &R,
    alloc: Global,
    threads: u32,
    source: &mut S,
) -> Result<ScriptParts, Status>
    ensures read { IfOk result (ReadScript (S.left source.old) (S.left source.new)) }
    ensures within { IfOk result AreWithinLimits }
    ensures unread { IfErr result (λ status. Unread status
        (S.left source.old) (S.left source.new) (S.faults source.old) (S.faults source.new)) }
    ensures taken { TookAtMost (S.left source.old) (S.left source.new) (script_most + 1) }
    ensures count { NeverFalls (S.faults source.old) (S.faults source.new) }
{
    let bytes = read_all(alloc, source, SCRIPT_MOST)?;
    let script = read_side_by_side(rt, alloc, bytes.as_slice(), threads)?;
    Ok(script)
}
