//! Runs a script by several workers on a new log in a file: for timing.
//!
//! The words: the file of the log, which is not there yet; how many workers and how many shards there are, 1 to 64 each.
//! The script comes on standard input. It prints how many lines were answered and how many records were committed.
#![tactic(auto)]

ghost use Rattle.std.specs.Prelude.{◌<◌, ◌≤◌, IfSome};
ghost use Rattle.request_text.specs.Limits.{AreWithinLimits};

use disk_model::FileDisk;
use io_edges::{FreeGate, StdSource, read_all};
use request_text::read_script;
use script_parts::ScriptParts;
use script_runs::run_anew;
use std::env;
use std::process::ExitCode;

/// The greatest length of a script, in bytes.
const SCRIPT_MOST: u64 = 268435456;

/// The word of this place.
fn word(rt: &HostRuntime, place: usize) -> Option<String> {
    match env::args(rt) {
        Ok(words) => words.skip(place).next(),
        Err(_) => None,
    }
}

/// The word of this place, as a number from 1 to 64.
fn small(rt: &HostRuntime, place: usize) -> Option<u32>
    ensures { IfSome result (λ n. (0 < n) × (n ≤ 64)) }
{
    let n = word(rt, place)?.as_str().parse::<u32>().ok()?;
    if n == 0 || n > 64 {
        return None;
    }
    Some(n)
}

/// What to run.
#[derive(Drop)]
struct Task {
    name: String,
    workers: u32,
    shards: u32,
    script: ScriptParts,
}

/// What the words and standard input ask for.
fn asked_of(rt: &HostRuntime) -> Option<Task>
    ensures { IfSome result (λ t. (0 < t.workers) × ((0 < t.shards) × (t.shards ≤ 64)) × AreWithinLimits t.script) }
{
    let name = word(rt, 1)?;
    let workers = small(rt, 2)?;
    let shards = small(rt, 3)?;
    let mut source = StdSource::new(rt.reader());
    let bytes = read_all(rt.alloc(), &mut source, SCRIPT_MOST).ok()?;
    let lines = read_script(rt.alloc(), bytes.as_slice()).ok()?;
    let script = ScriptParts::of(rt.alloc(), lines).ok()?;
    Some(Task {
        name,
        workers,
        shards,
        script,
    })
}

fn main(rt: HostRuntime) -> ExitCode {
    let Some(asked) = asked_of(&rt) else {
        return ExitCode::from(1);
    };
    let Task {
        name,
        workers,
        shards,
        script,
    } = asked;
    let disk = FileDisk::new(&rt, name);
    let run = run_anew(&rt, rt.alloc(), disk, script, workers, shards, &FreeGate);
    let Some(run) = run else {
        return ExitCode::from(1);
    };
    let replies = run.replies.len();
    let records = run.closed.records.len();
    match println!(rt; "replies {replies} records {records}") {
        Ok(()) => ExitCode::from(0),
        Err(_) => ExitCode::from(2),
    }
}
