//! A run of the sessions on a disk whose calls fail, and what a crash may leave of it.

use crate::meeting::{Meeting, SlowSync};
use disk_model::{Fail as Failing, HookDisk, MemDisk};
use graph_model::{Moments, Record, Records};
use graph_store::Closed;
use request_text::{Line, Replies, Reply, read_script};
use script_parts::ScriptParts;
use script_runs::{ScriptRun, run_anew};
use std::alloc::Global;
use std::sync::Wait;
use std::test::Fail;
use std::thread::Threads;

/// How many sessions run, each by a worker of its own.
const SESSIONS: u64 = 4;

/// The lines before the rounds, by which the first session makes the vertex that all share.
const BEFORE: &str = "0 begin\n0 vertex 61\n0 commit\n";

/// What each session does in the rounds: it makes a vertex, puts an edge to the shared one, and makes another. At the lines
/// with a star the sessions meet.
const STEPS: [&str; 9] = [
    "begin *",
    "vertex 62",
    "commit *",
    "begin",
    "put 1 5 9 -",
    "commit",
    "begin",
    "vertex 63",
    "commit *",
];

/// A script, and where its sessions meet: for each line how many have come to such lines when it goes on, or 0.
#[derive(Drop)]
struct Script {
    text: String,
    goes_at: Vec<u64>,
}

// The script of all sessions.
fn all_sessions(alloc: Global) -> Result<Script, Fail> {
    let mut text = String::from_str(alloc, BEFORE)?;
    let mut goes_at = vec![in alloc; 0u64; BEFORE.lines().count()]?;
    let mut come = 0_u64;
    for step in STEPS {
        let meets = step.ends_with('*');
        let words = step.trim_end_matches(" *");
        if meets {
            come = come.saturating_add(SESSIONS);
        }
        for session in 0..SESSIONS {
            text.push_str(format!(in alloc; "{session} {words}\n")?.as_str())?;
            goes_at.push(if meets { come } else { 0 })?;
        }
    }
    Ok(Script { text, goes_at })
}

/// A run: what was answered, and what it left.
#[derive(Drop)]
pub struct Run {
    /// The number and the epoch of each transaction that was answered as committed.
    committed: Vec<(u64, u64)>,
    /// The number of each transaction that was answered `log-fault`.
    faulted: Vec<u64>,
    records: Records,
    durable_at: Moments,
    pub disk: MemDisk,
}

/// What the replies tell of transactions.
#[derive(Drop)]
struct Told {
    committed: Vec<(u64, u64)>,
    faulted: Vec<u64>,
}

// What the replies to a script tell of its transactions.
fn told_by(alloc: Global, script: &[Line], replies: &Replies) -> Result<Told, Fail> {
    let mut told = Told {
        committed: Vec::new(alloc),
        faulted: Vec::new(alloc),
    };
    let mut open = vec![in alloc; 0u64; SESSIONS as usize]?;
    for (line, reply) in script.iter().zip(replies.as_slice()) {
        let session = (u64::from(line.session) % SESSIONS) as usize;
        match reply {
            Reply::Begun { tid, .. } => {
                if let Some(number) = open.get_mut(session) {
                    *number = *tid;
                }
            }
            Reply::Committed { epoch } => {
                let number = open.get(session).copied().unwrap_or(0);
                told.committed.push((number, *epoch))?;
            }
            Reply::LogFault { .. } => {
                told.faulted.push(open.get(session).copied().unwrap_or(0))?;
            }
            _ => {}
        }
    }
    Ok(told)
}

/// A run of the sessions by as many workers, over a new log on a disk whose listed calls fail.
pub fn run_on<R: Threads + Wait + Sync>(
    rt: &R,
    alloc: Global,
    failing: Vec<Failing>,
) -> Result<Run, Fail> {
    let Script { text, goes_at } = all_sessions(alloc)?;
    let lines = read_script(alloc, text.as_bytes()).ok().ok_or("no script")?;
    let script = ScriptParts::of(alloc, lines)?;
    let told = read_script(alloc, text.as_bytes()).ok().ok_or("no script")?;
    let disk = MemDisk::new(alloc, Vec::new(alloc), 1000, 100_000, failing)
        .ok()
        .ok_or("memory")?;
    let gate = Meeting::of(goes_at.as_slice());
    let disk = HookDisk::new(disk, SlowSync);
    let workers = SESSIONS as u32;
    let run = run_anew(rt, alloc, disk, script, workers, 4, &gate).ok_or("no run")?;
    let ScriptRun { replies, closed } = run;
    let Told { committed, faulted } = told_by(alloc, told.as_slice(), &replies)?;
    let Closed {
        records,
        durable_at,
        disk,
        ..
    } = closed;
    Ok(Run {
        committed,
        faulted,
        records,
        durable_at,
        disk: disk.into_disk(),
    })
}

// Whether the records are the same.
fn is_same(record: &Record, other: &Record) -> bool {
    record.tid == other.tid
        && record.read == other.read
        && record.epoch == other.epoch
        && record.changes.len() == other.changes.len()
}

impl Run {
    /// Whether each transaction that was answered as committed is among the records, with the epoch that it was told.
    pub fn has_all_committed(&self) -> bool {
        let records = self.records.as_slice();
        self.committed.iter().all(|(tid, epoch)| {
            records
                .iter()
                .any(|record| record.tid == *tid && record.epoch == *epoch)
        })
    }

    // The last epoch that is durable at a moment.
    fn durable_by(&self, moment: u64) -> u64 {
        let durable_at = self.durable_at.as_slice();
        durable_at.iter().filter(|at| **at <= moment).count() as u64
    }

    // How many of the records are of no later epoch than this.
    fn count_to(&self, epoch: u64) -> usize {
        let records = self.records.as_slice();
        records
            .iter()
            .filter(|record| record.epoch <= epoch)
            .count()
    }

    // Whether these begin with so many of the records.
    fn begin(&self, left: &[Record], count: usize) -> bool {
        let pairs = left.iter().zip(self.records.as_slice());
        left.len() >= count && pairs.take(count).all(|(record, own)| is_same(record, own))
    }

    // Whether those behind the first so many are of this epoch, and were answered `log-fault`.
    fn end_in_vain(&self, left: &[Record], count: usize, epoch: u64) -> bool {
        left.iter().skip(count).all(|record| record.epoch == epoch
            && self.faulted.contains(&record.tid))
    }

    /// Whether a crash at this moment may leave these records: those that are durable then, and one group more at most.
    pub fn may_leave(&self, moment: u64, left: &[Record]) -> bool {
        let epoch = self.durable_by(moment);
        let next = epoch.saturating_add(1);
        let durable = self.count_to(epoch);
        let many = self.count_to(next);
        let is_next = left.len() == many && self.begin(left, many);
        self.begin(left, durable) && (is_next || self.end_in_vain(left, durable, next))
    }
}
