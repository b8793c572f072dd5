//! Runs work on a store by its calls, for timing.
//!
//! The words: the file of the log, which is not there yet; how many shards there are, 1 to 64; how many vertices, edges
//! and edges of the hub the graph has; and then, for each phase of the work, its name, the power of 2 that is the number of
//! its threads, how many transactions each of them makes, how many calls each transaction, and after how many milliseconds
//! no transaction begins any more.
//!
//! `make` makes vertices, and `load` puts edges of the graph; `fill` puts those of the hub. `own` puts edges on a vertex of
//! the thread's own. `read` reads edges of the graph, and `eighth` those that begin in the thread's own eighth of the
//! vertices. `scan` reads the lists of the vertices, one after another. `hub` reads the list of the hub in the first thread,
//! and puts edges on it in the others.
//!
//! For each phase it prints what was done, and on standard error how long it took.
#![tactic(auto)]

ghost use Rattle.std.specs.Prelude.{◌<◌, ◌≤◌, IfSome};
ghost use Rattle.turn_board.specs.Board.{known};
ghost use Rattle.turn_board.specs.Views.{IsLast};
ghost use Rattle.store_trial.specs.Hands.{IsFree};

mod crowd;
mod hand;
mod opening;
mod plan;
mod tally;
mod work;

use crowd::crowd;
use disk_model::{Disk, FileDisk};
use graph_store::{Store, StorePass};
use opening::open_new;
use plan::{Call, Job, Sizes, Which};
use std::alloc::Global;
use std::env;
use std::io::{Eprint, Print};
use std::process::ExitCode;
use std::sync::Wait;
use std::thread::Threads;
use std::time::{Clock, Instant};
use work::{Task, nanos_since};

/// The words of a phase.
const PHASE: usize = 5;

/// A phase: its name, the power of 2 that is the number of its threads, and what each of them does.
#[derive(Drop)]
struct Phase {
    name: String,
    depth: u32,
    job: Job,
}

/// What is asked for.
#[derive(Drop)]
struct Asked {
    name: String,
    shards: u32,
    sizes: Sizes,
    phases: Vec<Phase>,
}

/// The word of this place.
fn word(rt: &HostRuntime, place: usize) -> Option<String> {
    match env::args(rt) {
        Ok(words) => words.skip(place).next(),
        Err(_) => None,
    }
}

/// The word of this place, as a number.
fn number(rt: &HostRuntime, place: usize) -> Option<u32> {
    word(rt, place)?.as_str().parse::<u32>().ok()
}

/// What the calls of a phase of this name do, and which edges they are about.
fn meant_by(name: &str) -> Option<(Call, Which)> {
    match name {
        "make" => Some((Call::Make, Which::InOrder)),
        "load" => Some((Call::Put, Which::InOrder)),
        "fill" => Some((Call::Put, Which::OfHub)),
        "own" => Some((Call::Put, Which::OwnVertex)),
        "read" => Some((Call::Read, Which::Jumping)),
        "eighth" => Some((Call::Read, Which::OwnEighth)),
        "scan" => Some((Call::Scan, Which::EachVertex)),
        "hub" => Some((Call::Scan, Which::OfHub)),
        _ => None,
    }
}

/// The phase whose words begin at this place.
fn phase_at(rt: &HostRuntime, place: usize) -> Option<Phase>
    requires { place < 1000 }
{
    let name = word(rt, place)?;
    let (call, which) = meant_by(name.as_str())?;
    Some(Phase {
        depth: number(rt, place + 1)?,
        job: Job {
            call,
            which,
            transactions: number(rt, place + 2)?,
            calls: number(rt, place + 3)?,
            millis: u64::from(number(rt, place + 4)?),
        },
        name,
    })
}

/// What the words ask for; None where one is missing or no number.
fn asked_of(rt: &HostRuntime) -> Option<Asked>
    ensures { IfSome result (λ a. (0 < a.shards) × (a.shards ≤ 64)) }
{
    let name = word(rt, 1)?;
    let shards = number(rt, 2)?;
    if shards == 0 || shards > 64 {
        return None;
    }
    let sizes = Sizes {
        vertices: number(rt, 3)?,
        edges: number(rt, 4)?,
        hub: number(rt, 5)?,
    };
    let mut phases = Vec::new(rt.alloc());
    for i in 0..20usize {
        if let Some(phase) = phase_at(rt, 6 + i * PHASE) {
            phases.push(phase).ok()?;
        }
    }
    Some(Asked {
        name,
        shards,
        sizes,
        phases,
    })
}

/// Runs a phase, and prints what was done.
fn run_phase<D: Disk + Send + Sync, R: Threads + Wait + Clock + Print + Eprint + Sync>(
    rt: &R,
    store: &Store<D>,
    alloc: Global,
    pass: StorePass<D>,
    sizes: Sizes,
    phase: &Phase,
) -> StorePass<D>
    requires free { IsFree store.now.board.turns store.now.board.shards pass }
    requires last { IsLast (known pass) }
    ensures free { IsFree store.now.board.turns store.now.board.shards result }
    ensures last { IsLast (known result) }
{
    let start = Instant::now(rt).ok();
    let task = Task {
        sizes,
        job: phase.job,
        place: 0,
    };
    let (pass, done) = crowd(rt, &store.board, alloc, pass, phase.depth, task);
    let nanos = nanos_since(rt, start);
    let name = phase.name.as_str();
    // Where a stream takes nothing, nothing is told.
    let _ = println!(rt;
        "{name}: transactions {} edges {} refused {}",
        done.transactions, done.edges, done.refused
    );
    let _ = eprintln!(rt;
        "{name} nanos {nanos} read {} transactions {} edges {} sum {}",
        done.read_nanos, done.transactions, done.edges, done.sum
    );
    pass
}

/// Runs the phases on a store, and closes it.
fn run_all<D: Disk + Send + Sync + Drop, R: Threads + Wait + Clock + Print + Eprint + Sync>(
    rt: &R,
    store: Store<D>,
    alloc: Global,
    pass: StorePass<D>,
    sizes: Sizes,
    phases: &[Phase],
)
    requires free { IsFree store.board.turns store.board.shards pass }
    requires last { IsLast (known pass) }
{
    let mut pass = pass;
    for phase in phases {
        pass = run_phase(rt, &store, alloc, pass, sizes, phase);
    }
    drop(store.close_seat(pass));
}

fn main(rt: HostRuntime) -> ExitCode {
    let Some(asked) = asked_of(&rt) else {
        return ExitCode::from(2);
    };
    let Asked {
        name,
        shards,
        sizes,
        phases,
    } = asked;
    let disk = FileDisk::new(&rt, name);
    match open_new(rt.alloc(), disk, shards) {
        Some((store, pass)) => {
            run_all(&rt, store, rt.alloc(), pass, sizes, phases.as_slice());
            ExitCode::from(0)
        }
        None => ExitCode::from(1),
    }
}
