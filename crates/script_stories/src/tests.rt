//! What no clause says: that workers run at all, with ample memory, and at the same time, what a script is answered whoever
//! runs its lines, and that a log has all that was answered as committed.

ghost use Rattle.std.specs.Prelude.{◌≡◌, ◌<◌, [], IfOk};
ghost use Rattle.disk_model.specs.Memory.{bytes_of};
ghost use Rattle.request_text.specs.Limits.{AreWithinLimits};

use crate::asserts::{holds, same, same_in};
use crate::meeting::{FirstTwo, HeldSync, ReadMeanwhile, Shown, Side};
use disk_model::{HookDisk, MemDisk};
use graph_model::Graph;
use graph_recover::recover;
use graph_store::Closed;
use io_edges::{FreeGate, MemSink, OutBuffer};
use reply_judge::{Judge, are_apart};
use request_text::{Line, Reply, print_replies, read_script};
use script_parts::ScriptParts;
use script_runs::{ScriptRun, run_anew};
use std::alloc::Global;
use std::sync::Wait;
use std::test::Fail;
use std::thread::Threads;

// What comes of a script on a new log.
#[derive(Drop)]
struct Outcome {
    printed: Vec<u8>,
    committed: usize,
    recovered: usize,
}

// How many records the disk of a store that was closed has.
fn recovered(alloc: Global, closed: Closed<MemDisk>) -> Result<usize, Fail> {
    let mut disk = closed.disk;
    let Ok(found) = recover(alloc, &mut disk) else {
        return Err(Fail::from("no log"));
    };
    Ok(found.records.len())
}

// The script that the text is, in one part.
fn script_of(alloc: Global, text: &str) -> Result<ScriptParts, Fail>
    ensures { IfOk result AreWithinLimits }
{
    let lines = read_script(alloc, text.as_bytes()).ok().ok_or("no script")?;
    Ok(ScriptParts::of(alloc, lines)?)
}

// The script that the text is, run by so many workers: its replies as they are printed, and how many records the store
// and the log have.
fn outcome_of<R: Threads + Wait + Sync>(
    rt: &R,
    alloc: Global,
    text: &str,
    workers: u32,
) -> Result<Outcome, Fail>
    requires { 0 < workers }
{
    let script = script_of(alloc, text)?;
    let disk = MemDisk::new(alloc, Vec::new(alloc), 100, 100_000, Vec::new(alloc))
        .ok()
        .ok_or("memory")?;
    let Some(run) = run_anew(rt, alloc, disk, script, workers, 2, &FreeGate) else {
        return Err(Fail::from("no run"));
    };
    let mut sink = MemSink::new(alloc, 100_000, Vec::new(alloc))
        .ok()
        .ok_or("memory")?;
    let mut buffer = OutBuffer::new(alloc, 1024).ok().ok_or("memory")?;
    let ScriptRun { replies, closed } = run;
    print_replies(&mut buffer, &mut sink, &replies)
        .ok()
        .ok_or("print")?;
    buffer.flush(&mut sink).ok().ok_or("print")?;
    Ok(Outcome {
        printed: sink.written().to_vec(alloc)?,
        committed: closed.records.len(),
        recovered: recovered(alloc, closed)?,
    })
}

#[test]
fn a_script_of_one_session_is_answered_the_same_by_any_number_of_workers(
    rt: HostRuntime,
) -> Result<(), Fail> {
    let script =
        "1 begin\n1 vertex 61\n1 put 1 5 9 ff\n1 put 1 5 7 -\n1 scan 1 5\n1 commit\n1 get 1\n1 begin\n1 get 1\n";
    let printed =
        "1 begun 1 0\n2 vertex 1\n3 new\n4 new\n5 edges 2 7:- 9:ff\n6 committed 1\n7 no-txn\n8 begun 2 1\n9 value 61\n";
    for workers in [1, 2, 4] {
        let outcome = outcome_of(&rt, rt.alloc(), script, workers)?;
        same_in(&rt, outcome.printed.as_slice(), printed.as_bytes(), workers);
        same(&rt, outcome.committed, 1);
        same(&rt, outcome.recovered, 1);
    }
    Ok(())
}

#[test]
fn one_worker_answers_sessions_line_after_line(rt: HostRuntime) -> Result<(), Fail> {
    let rows = [
        (
            "1 begin\n1 vertex 61\n1 put 1 5 9 ff\n1 commit\n1 begin\n1 put 1 5 7 -\n2 begin\n2 put 1 5 8 -\n2 commit\n1 commit\n",
            "1 begun 1 0\n2 vertex 1\n3 new\n4 committed 1\n5 begun 2 1\n6 new\n7 begun 3 1\n8 held 1 2\n9 no-txn\n10 committed 2\n",
        ),
        (
            "1 begin\n1 vertex 61\n1 put 1 5 9 ff\n1 commit\n2 begin\n1 begin\n1 put 1 5 7 -\n1 commit\n2 put 1 5 8 -\n2 get 1\n",
            "1 begun 1 0\n2 vertex 1\n3 new\n4 committed 1\n5 begun 2 1\n6 begun 3 1\n7 new\n8 committed 2\n9 conflict 1 2\n10 no-txn\n",
        ),
    ];
    for (script, printed) in rows {
        let outcome = outcome_of(&rt, rt.alloc(), script, 1)?;
        same(&rt, outcome.printed.as_slice(), printed.as_bytes());
        same(&rt, outcome.committed, 2);
        same(&rt, outcome.recovered, 2);
    }
    Ok(())
}

// A script whose sessions each change a vertex in so many transactions that overlap, one of three vertices that the first
// session makes before.
fn rivals(alloc: Global, sessions: u64, rounds: u64) -> Result<String, Fail> {
    let mut text = String::from_str(
        alloc,
        "0 begin\n0 vertex 61\n0 vertex 62\n0 vertex 63\n0 commit\n",
    )?;
    for round in 0..rounds {
        for line in [
            "begin", "put 1 5", "scan 1 5", "put 2 5", "labels 3", "commit",
        ] {
            for session in 0..sessions {
                let words = match line {
                    "put 1 5" => format!(in alloc; "{session} put 1 5 {round} 0f\n")?,
                    "put 2 5" => {
                        let v = 1 + (session % 3 + round % 3) % 3;
                        format!(in alloc; "{session} put {v} 5 {session} -\n")?
                    }
                    _ => format!(in alloc; "{session} {line}\n")?,
                };
                text.push_str(words.as_str())?;
            }
        }
    }
    Ok(text)
}

// Whether each reply of a run is right for its records, no two of which should have excluded each other.
fn is_right(
    alloc: Global,
    script: &[Line],
    run: &ScriptRun<MemDisk>,
    sessions: usize,
) -> Option<bool> {
    let base = Graph::empty(alloc);
    let mut judge = Judge::new(alloc, &base, &run.closed.records, sessions)?;
    let replies = run.replies.as_slice();
    if replies.len() != script.len() {
        return Some(false);
    }
    for i in 0..script.len() {
        if !judge.is_right(&script[i], &replies[i])? {
            return Some(false);
        }
    }
    Some(are_apart(&run.closed.records))
}

#[test]
fn the_replies_of_workers_on_one_hot_vertex_are_right_for_what_they_committed(
    rt: HostRuntime,
) -> Result<(), Fail> {
    let alloc = rt.alloc();
    let text = rivals(alloc, 10, 20)?;
    let judged = script_of(alloc, text.as_str())?;
    let part = judged.parts().first().ok_or("no part")?;
    for workers in [1, 2, 3, 4, 8] {
        if workers == 0 {
            return Err(Fail::from("no worker"));
        }
        let disk = MemDisk::new(alloc, Vec::new(alloc), 100, 1_000_000, Vec::new(alloc))
            .ok()
            .ok_or("memory")?;
        let script = script_of(alloc, text.as_str())?;
        let run = run_anew(&rt, alloc, disk, script, workers, 2, &FreeGate).ok_or("no run")?;
        same_in(
            &rt,
            is_right(alloc, part.lines(), &run, 10),
            Some(true),
            workers,
        );
        let ScriptRun { replies, closed } = run;
        drop(replies);
        let committed = closed.records.len();
        same(&rt, recovered(alloc, closed)?, committed);
    }
    Ok(())
}

// A disk without a byte.
fn new_disk(alloc: Global) -> Result<MemDisk, Fail>
    ensures { IfOk result (λ disk. bytes_of disk ≡ []) }
{
    match MemDisk::new(alloc, Vec::new(alloc), 100, 1000, Vec::new(alloc)) {
        Ok(disk) => Ok(disk),
        Err(_) => Err(Fail::from("memory")),
    }
}

#[test]
fn two_workers_run_at_the_same_time(rt: HostRuntime) -> Result<(), Fail> {
    let alloc = rt.alloc();
    let text = "0 begin\n1 begin\n0 commit\n1 commit\n";
    let script = script_of(alloc, text)?;
    let first = Side::away();
    let second = Side::away();
    let gate = FirstTwo {
        first: &first,
        second: &second,
    };
    let disk = new_disk(alloc)?;
    let run = run_anew(&rt, alloc, disk, script, 2, 2, &gate).ok_or("no run")?;
    drop(run);
    holds(&rt, first.saw());
    holds(&rt, second.saw());
    Ok(())
}

#[test]
fn a_worker_passes_the_gate_before_the_line_runs(rt: HostRuntime) -> Result<(), Fail> {
    let alloc = rt.alloc();
    let text = "0 begin\n0 vertex 61\n0 commit\n";
    let script = script_of(alloc, text)?;
    let call = Side::away();
    let commit = Side::away();
    let hook = HeldSync {
        call: &call,
        other: &commit,
    };
    let gate = Shown {
        side: &commit,
        line: 3,
    };
    let disk = HookDisk::new(new_disk(alloc)?, hook);
    let run = run_anew(&rt, alloc, disk, script, 1, 2, &gate).ok_or("no run")?;
    drop(run);
    holds(&rt, call.saw());
    Ok(())
}

#[test]
fn a_read_goes_on_while_a_commit_waits_for_the_disk(rt: HostRuntime) -> Result<(), Fail> {
    let alloc = rt.alloc();
    let text = "0 begin\n0 vertex 61\n0 commit\n1 begin\n1 get 1\n1 commit\n";
    let script = script_of(alloc, text)?;
    let call = Side::away();
    let read = Side::away();
    let hook = HeldSync {
        call: &call,
        other: &read,
    };
    let gate = ReadMeanwhile {
        call: &call,
        read: &read,
        line: 5,
    };
    let disk = HookDisk::new(new_disk(alloc)?, hook);
    let run = run_anew(&rt, alloc, disk, script, 2, 2, &gate).ok_or("no run")?;
    holds(&rt, call.saw());
    holds(&rt, read.saw());
    let replies = run.replies.as_slice();
    holds(
        &rt,
        matches!(replies.get(2), Some(Reply::Committed { epoch: 1 })),
    );
    holds(&rt, matches!(replies.get(4), Some(Reply::Lacking)));
    holds(&rt, matches!(replies.get(5), Some(Reply::Ended)));
    Ok(())
}
