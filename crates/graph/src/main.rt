//! The program `graph`: `graph LOGFILE` and a command, over the log in that file.
#![tactic(auto)]

use disk_model::{Disk, FileDisk};
use graph_cli::{Ended, Status, Words, run_graph};
use io_edges::{FreeGate, Sink, Source, StdSink, StdSource};
use std::alloc::Global;
use std::io::ErrorKind;
use std::process::ExitCode;
use std::sync::Wait;
use std::thread::Threads;
use std::{env, io, mem};

fn main(rt: HostRuntime) -> ExitCode {
    let status = match arguments(&rt) {
        Ok((name, words)) => {
            let mut source = StdSource::new(rt.reader());
            let mut sink = StdSink::new(io::writer(&rt));
            let disk = FileDisk::new(&rt, name);
            carry_out(&rt, rt.alloc(), &words, &mut source, &mut sink, disk)
        }
        Err(status) => status,
    };
    if status != Status::Done {
        // Where standard error takes nothing, the exit status still tells how the command ended.
        let _ = eprintln!(rt; "{status}");
    }
    ExitCode::from(status.number())
}

/// Carries out a command on a disk of which nobody says what a crash at entry would leave.
fn carry_out<S: Source, K: Sink, D: Disk + Send + Sync + Drop, R: Threads + Wait + Sync>(
    rt: &R,
    alloc: Global,
    words: &Words,
    source: &mut S,
    sink: &mut K,
    disk: D,
) -> Status {
    let Ended {
        status,
        report,
        disk: _,
    } = run_graph(rt, alloc, words, source, sink, disk, &FreeGate);
    // The process ends here, and the memory of the report with it.
    mem::forget(report);
    status
}

/// The log file's name, and the words of the command behind it. Without a name there are no words.
///
/// `Usage`: a word is not UTF-8. `NoMemory`: there is no memory for the words.
fn arguments(rt: &HostRuntime) -> Result<(String, Words), Status> {
    let arguments = match env::args(rt) {
        Ok(arguments) => arguments,
        Err(error) if error.kind() == ErrorKind::OutOfMemory => return Err(Status::NoMemory),
        Err(_) => return Err(Status::Usage),
    };
    let mut name = String::new(rt.alloc());
    let mut words = Words::new(rt.alloc());
    for (i, word) in arguments.skip(1).enumerate() {
        if i == 0 {
            name = word;
        } else if words.push(word.as_str()).is_err() {
            return Err(Status::NoMemory);
        }
    }
    Ok((name, words))
}
