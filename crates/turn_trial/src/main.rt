//! Threads that take and give the turns of a small board: for timing.
//!
//! The words are: the power of 2 that is the number of threads; the number of shards, from 1 to 64; how many turns lie
//! from one thread's to the next one's; and how often each thread takes its turn and gives it. It prints the sum of
//! the counts that they raised, each under its turn.
#![tactic(auto)]

ghost use Rattle.std.specs.Prelude.{IfSome, ◌<◌, ◌≤◌};

use board_trials::counted;
use std::env;
use std::process::ExitCode;

/// The word of this place, as a number; none where it is not there or no number.
fn number(rt: &HostRuntime, place: usize) -> Option<u64> {
    match env::args(rt) {
        Ok(words) => words
            .skip(place)
            .next()
            .and_then(|word| word.as_str().parse::<u64>().ok()),
        Err(_) => None,
    }
}

/// The word of this place, as a small number.
fn small(rt: &HostRuntime, place: usize) -> Option<u32> {
    match number(rt, place) {
        Some(n) if n < 1_000_000 => Some(n as u32),
        _ => None,
    }
}

/// What to run.
#[derive(Drop)]
struct Run {
    depth: u32,
    count: u32,
    stride: u32,
    times: u64,
}

/// What the words say; none where one is missing or too large.
fn run_of(rt: &HostRuntime) -> Option<Run>
    ensures { IfSome result (λ run. (0 < run.count) × (run.count ≤ 64)) }
{
    let depth = small(rt, 1)?;
    let count = small(rt, 2)?;
    let stride = small(rt, 3)?;
    let times = number(rt, 4)?;
    if count == 0 || count > 64 {
        return None;
    }
    Some(Run {
        depth,
        count,
        stride,
        times,
    })
}

fn main(rt: HostRuntime) -> ExitCode {
    let Some(run) = run_of(&rt) else {
        return ExitCode::from(2);
    };
    match counted(&rt, rt.alloc(), run.depth, run.count, run.stride, run.times) {
        Ok(sum) => match println!(rt; "{sum}") {
            Ok(()) => ExitCode::from(0),
            Err(_) => ExitCode::from(2),
        },
        Err(_) => ExitCode::from(1),
    }
}
