//! The top call.

ghost use Rattle.std.specs.Prelude.{◌≡◌, ◌+◌, Bool, true};
ghost use Rattle.io_edges.specs.Faults.{NeverFalls, Rose};
ghost use Rattle.io_edges.specs.Reads.{TookAtMost};
ghost use Rattle.log_commands.specs.Status.{IsDoneOrNoMemory, IsUsageOrNoMemory};
ghost use Rattle.run_opening.specs.Script.{script_most};
ghost use Rattle.run_opening.specs.Moments.{IsSettledAsRead};
ghost use Rattle.command_words.specs.Commands.{IsCommand, IsWithinCounts};
ghost use Rattle.command_words.specs.declared.command.Command.{Command};
ghost use Rattle.graph_cli.specs.TopCall.{IsNothing, Ends, LacksNumbers, CanCarryOut, Keeps};

use crate::run::run;
use command_words::{Command, Words, WordsRefusal, read_command};
use disk_model::Disk;
use drill_runs::{Plan, drill};
use io_edges::{Gate, Sink, Source};
use log_commands::{Status, check, dump, init};
use run_ending::Ended;
use std::alloc::Global;
use std::sync::Wait;
use std::thread::Threads;

/// Carries out a command on the log of a disk.
///
/// `init` makes the log without a group on a disk without bytes. `run` reads a script from the source to its end,
/// runs it on the log by so many workers, each in a thread, and writes a line for each reply to the sink, in the order of
/// the script; a worker passes the gate before each line. `dump` writes the graph at an epoch of the
/// log, or at the last one, and `check` a line that tells of the log; both only read the disk. `drill` makes two scripts
/// of a seed, runs them on the log one after the other, and writes a line that sums up what they leave; the report has the
/// replies to the first script as those of its setup.
///
/// The words are judged first. A command that ran no request leaves an empty report; what it took off the source is
/// let go. Memory: the bytes of the log, its records and the graph after them; for `run` and `drill` the scripts, the
/// sessions of the workers up to the greatest of the script, and what the requests take besides; for `drill` the graph
/// after the last record. Nothing here says that the waits of `run` and `drill` end.
pub fn run_graph<
    S: Source,
    K: Sink,
    D: Disk + Send + Sync,
    G: Gate + Sync,
    R: Threads + Wait + Sync,
>(rt: &R, alloc: Global, words: &Words, source: &mut S, sink: &mut K, disk: D, gate: &G) -> Ended<D>
    // Whether a crash at entry leaves what a read gives: who calls says so where it is known, and then the clauses speak
    // of every image since the entry; else of those since a moment between the entry and the end, which is that at which
    // the log was opened, but no clause says so.
    ghost settled: { Bool }
    requires settled { settled ≡ true → IsSettledAsRead D.told D.moment D.images disk }

    // The words are a command, or none.
    ensures carried_out { (command : Command) → IsCommand words.now command →
        Ends S.left S.faults K.written K.faults D.told D.moment D.images D.faults
        source.old source.new sink.old sink.new settled disk result command }
    ensures usage { result.status ≡ Status.Usage → (command : Command) → IsCommand words.now command →
        LacksNumbers (D.told disk) command }
    ensures no_command { ((command : Command) → ¬ IsCommand words.now command) →
        IsUsageOrNoMemory result.status × IsNothing source.old source.new sink.old sink.new disk result }

    // What is owed to a source and a disk that tell their bytes.
    ensures complete { (command : Command) → IsCommand words.now command →
        CanCarryOut command (S.left source.old) (D.told disk) →
        ¬ Rose (S.faults source.old) (S.faults source.new) → ¬ Rose (K.faults sink.old) (K.faults sink.new) →
        ¬ Rose (D.faults disk) (D.faults result.disk) → IsDoneOrNoMemory result.status }

    // Nothing more is taken off the source than shows that a script is too long; and counts of faults never fall.
    ensures taken { TookAtMost (S.left source.old) (S.left source.new) (script_most + 1) }
    ensures source_count { NeverFalls (S.faults source.old) (S.faults source.new) }
    ensures sink_count { NeverFalls (K.faults sink.old) (K.faults sink.new) }
    ensures keeps { (command : Command) → IsCommand words.now command →
        Keeps D.told D.moment D.images D.faults disk result.disk command }
{
    match read_command(alloc, words) {
        Ok(command) => carry_out(rt, alloc, command, source, sink, disk, gate),
        Err(WordsRefusal::Usage) => Ended::without_run(alloc, Status::Usage, disk),
        Err(WordsRefusal::NoMemory) => Ended::without_run(alloc, Status::NoMemory, disk),
    }
}

/// Carries out a command.
fn carry_out<S: Source, K: Sink, D: Disk + Send + Sync, G: Gate + Sync, R: Threads + Wait + Sync>(
    rt: &R,
    alloc: Global,
    command: Command,
    source: &mut S,
    sink: &mut K,
    disk: D,
    gate: &G,
) -> Ended<D>
    ghost settled: { Bool }
    requires counts { IsWithinCounts command }
    requires settled { settled ≡ true → IsSettledAsRead D.told D.moment D.images disk }
    ensures ends { Ends S.left S.faults K.written K.faults D.told D.moment D.images D.faults
        source.old source.new sink.old sink.new settled disk result command }
    ensures complete { CanCarryOut command (S.left source.old) (D.told disk) →
        ¬ Rose (S.faults source.old) (S.faults source.new) → ¬ Rose (K.faults sink.old) (K.faults sink.new) →
        ¬ Rose (D.faults disk) (D.faults result.disk) → IsDoneOrNoMemory result.status }
    ensures understood { result.status ≡ Status.Usage → LacksNumbers (D.told disk) command }
    ensures taken { TookAtMost (S.left source.old) (S.left source.new) (script_most + 1) }
    ensures source_count { NeverFalls (S.faults source.old) (S.faults source.new) }
    ensures sink_count { NeverFalls (K.faults sink.old) (K.faults sink.new) }
    ensures keeps { Keeps D.told D.moment D.images D.faults disk result.disk command }
{
    match command {
        Command::Init => {
            let (status, disk) = init(disk);
            Ended::without_run(alloc, status, disk)
        }
        Command::Run { workers, shards } => {
            run(rt, alloc, workers, shards, source, sink, disk, gate)
        }
        Command::Dump { at } => {
            let mut disk = disk;
            let status = dump(alloc, at, sink, &mut disk);
            Ended::without_run(alloc, status, disk)
        }
        Command::Check => {
            let mut disk = disk;
            let status = check(alloc, sink, &mut disk);
            Ended::without_run(alloc, status, disk)
        }
        Command::Drill {
            seed,
            sessions,
            rounds,
            workers,
        } => {
            let plan = Plan {
                seed,
                sessions,
                rounds,
                workers,
            };
            drill(rt, alloc, plan, sink, disk, gate)
        }
    }
}
