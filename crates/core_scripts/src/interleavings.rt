//! Generated lists of events of three actors, with faults: the reads are judged by the plain graph, the outcomes by the groups.

ghost use Rattle.std.specs.Prelude.{◌<◌};

use crate::words::{Do, act_of, empty_base, payload, query_of, read_line};
use core_states::{CoreAnswer, Event};
use graph_model::{Answer, Change, Changes, Graph, NoMemory, Outcome, Record, Records};
use std::alloc::Global;
use std::collections::LinkedList;
use std::test::Fail;
use txn_core::{Answers, Events, drive};

/// How many lists are tried, and how many events each has.
const LISTS: u64 = 120;

const EVENTS: usize = 260;

// Numbers that look random, the same in each run.
#[derive(Drop)]
struct Dice {
    state: u64,
    moment: u64,
    faults: u64,
}

impl Dice {
    fn below(&mut self, n: u64) -> u64
        requires { 0 < n }
        ensures { result < n }
    {
        self.state = self
            .state
            .wrapping_mul(6364136223846793005)
            .wrapping_add(1442695040888963407);
        (self.state >> 33) % n
    }

    // An act about one of three vertices.
    fn act(&mut self) -> Do {
        let v = self.below(3).saturating_add(1);
        let d = self.below(3);
        let l = if self.below(4) == 0 { 6 } else { 5 };
        let byte = self.below(200) as u8;
        match self.below(62) {
            0..=3 => Do::Begin,
            4 => Do::Draw,
            5 => Do::New(v, byte),
            6..=11 => Do::Put(v, l, d, byte),
            12..=13 => Do::Del(v, l, d),
            14 => Do::Set(v, byte),
            15..=19 => Do::Enqueue,
            20..=22 => Do::Collect,
            23..=25 => Do::Write(self.moment()),
            26..=27 => Do::Outcome,
            28..=34 => Do::Apply(v),
            35..=37 => Do::Done,
            38 => Do::Undo(v),
            39 => Do::End,
            40 => Do::Look(v),
            41 => Do::Horizon,
            42 => Do::Get(v),
            43 => Do::Edge(v, l, d),
            44..=45 => Do::Scan(v, l),
            46 => Do::Labels(v),
            47 => self.rare(v),
            48 => self.fault(),
            49..=51 => Do::Mend,
            52..=56 => Do::Write(self.moment()),
            _ => Do::Publish,
        }
    }

    // A moment, which seldom is before that of the last append.
    fn moment(&mut self) -> u64 {
        self.moment = self.moment.saturating_add(self.below(2));
        self.moment.saturating_sub(self.below(9) / 8)
    }

    // An append that meets a fault, which seldom comes with counts of an earlier one.
    fn fault(&mut self) -> Do {
        let before = self.faults.saturating_sub(self.below(9) / 8);
        self.faults = before.saturating_add(1 + self.below(3));
        Do::Fail(before, self.faults)
    }

    fn rare(&mut self, v: u64) -> Do {
        match self.below(3) {
            0 => Do::Drop(v),
            1 => Do::Seen,
            _ => Do::Close,
        }
    }
}

// What the answers so far say of one actor.
#[derive(Drop)]
struct Session {
    read: u64,
    tid: u64,
    own: Changes,
    group: LinkedList<Record>,
}

// What the answers so far say of all.
#[derive(Drop)]
struct Judge {
    alloc: Global,
    nothing: Graph,
    sessions: Vec<Session>,
    queue: LinkedList<Record>,
    records: Records,
    outcomes: Vec<(u64, Outcome)>,
    // How many reads found something, and how many records failed.
    found: u64,
    failed: u64,
}

impl Judge {
    fn new(alloc: Global) -> Result<Judge, NoMemory> {
        let mut sessions = Vec::new(alloc);
        for _ in 0..3 {
            sessions.push(Session {
                read: 0,
                tid: 0,
                own: Changes::new(alloc),
                group: LinkedList::new(alloc),
            })?;
        }
        Ok(Judge {
            alloc,
            nothing: Graph::empty(alloc),
            sessions,
            queue: LinkedList::new(alloc),
            records: Records::new(alloc),
            outcomes: Vec::new(alloc),
            found: 0,
            failed: 0,
        })
    }

    // Notes an answer, and judges it where it is that of a read.
    fn note(&mut self, actor: usize, word: Do, answer: &CoreAnswer) -> Result<(), Fail> {
        let alloc = self.alloc;
        let Some(session) = self.sessions.get_mut(actor) else {
            return Err(Fail::from("no such actor"));
        };
        match answer {
            CoreAnswer::Begun { tid, read } => {
                session.tid = *tid;
                session.read = *read;
                session.own = Changes::new(alloc);
            }
            CoreAnswer::Published { epoch } => {
                for _ in 0..session.group.len() {
                    if let Some(mut record) = session.group.pop_front() {
                        let outcome = Outcome::Committed { epoch: *epoch };
                        self.outcomes.push((record.tid, outcome))?;
                        record.epoch = *epoch;
                        self.records.push(record)?;
                    }
                }
            }
            CoreAnswer::Collected { members } => {
                for _ in 0..*members {
                    if let Some(record) = self.queue.pop_front() {
                        session.group.push_back(record)?;
                    }
                }
            }
            CoreAnswer::Learnt { .. } => {
                if matches!(word, Do::Enqueue) {
                    self.queue.push_back(queued(alloc, session))?;
                }
            }
            CoreAnswer::Done | CoreAnswer::Added | CoreAnswer::Replaced | CoreAnswer::Gone => {
                if let Do::Fail(before, after) = word {
                    return self.fail(actor, Outcome::Failed { before, after });
                }
                if let Some(change) = change_of(alloc, word)? {
                    session.own.push(change)?;
                }
            }
            CoreAnswer::Kept { outcome } => return self.hear(actor, *outcome),
            CoreAnswer::Shown { answer } => return self.judge(actor, word, answer),
            _ => {}
        }
        Ok(())
    }

    // Each record of the group has this outcome.
    fn fail(&mut self, actor: usize, outcome: Outcome) -> Result<(), Fail> {
        let Some(session) = self.sessions.get_mut(actor) else {
            return Err(Fail::from("no such actor"));
        };
        for _ in 0..session.group.len() {
            if let Some(record) = session.group.pop_front() {
                self.outcomes.push((record.tid, outcome))?;
                self.failed = self.failed.saturating_add(1);
            }
        }
        Ok(())
    }

    // What is kept for a record is how its group ended; nothing, where it waits.
    fn hear(&mut self, actor: usize, outcome: Option<Outcome>) -> Result<(), Fail> {
        let Some(session) = self.sessions.get(actor) else {
            return Err(Fail::from("no such actor"));
        };
        let mut kept = None;
        for known in &self.outcomes {
            if known.0 == session.tid {
                kept = Some(known.1);
            }
        }
        if kept != outcome {
            return Err(Fail::from("an outcome is not that of its group"));
        }
        Ok(())
    }

    // A read answers what the plain graph at the snapshot shows, with the own changes.
    fn judge(&mut self, actor: usize, word: Do, answer: &Answer) -> Result<(), Fail> {
        let Some(session) = self.sessions.get(actor) else {
            return Err(Fail::from("no such actor"));
        };
        let graph = Graph::at(self.alloc, &self.nothing, &self.records, session.read)?;
        let seen = graph.see(&session.own, &query_of(word))?;
        let line = read_line(self.alloc, answer)?;
        if line.as_str() != read_line(self.alloc, &seen)?.as_str() {
            return Err(Fail::from("a read shows what its snapshot does not"));
        }
        if !matches!(seen, Answer::NoVertex) {
            self.found = self.found.saturating_add(1);
        }
        Ok(())
    }
}

// The record of a session that was queued.
fn queued(alloc: Global, session: &mut Session) -> Record {
    Record {
        tid: session.tid,
        read: session.read,
        epoch: 0,
        changes: std::mem::replace(&mut session.own, Changes::new(alloc)),
    }
}

// The change that an act makes, if it makes one.
fn change_of(alloc: Global, word: Do) -> Result<Option<Change>, NoMemory> {
    match word {
        Do::New(v, byte) => Ok(Some(Change::New {
            v,
            p: payload(alloc, byte)?,
        })),
        Do::Set(v, byte) => Ok(Some(Change::Set {
            v,
            p: payload(alloc, byte)?,
        })),
        Do::Drop(v) => Ok(Some(Change::Drop { v })),
        Do::Put(v, l, d, byte) => Ok(Some(Change::Put {
            v,
            l,
            d,
            p: payload(alloc, byte)?,
        })),
        Do::Del(v, l, d) => Ok(Some(Change::Del { v, l, d })),
        _ => Ok(None),
    }
}

// A first transaction, which makes the three vertices.
const FIRST: [Do; 15] = [
    Do::Begin,
    Do::Draw,
    Do::Draw,
    Do::Draw,
    Do::New(1, 1),
    Do::New(2, 2),
    Do::New(3, 3),
    Do::Enqueue,
    Do::Collect,
    Do::Write(1),
    Do::Publish,
    Do::Apply(1),
    Do::Apply(2),
    Do::Apply(3),
    Do::Done,
];

// The acts of one list, each with its actor: all open their rows first.
fn generated(alloc: Global, seed: u64) -> Result<Vec<(u32, Do)>, NoMemory> {
    let mut dice = Dice {
        state: seed,
        moment: 1,
        faults: 0,
    };
    let mut rows = Vec::new(alloc);
    for actor in 0..3 {
        rows.push((actor, Do::Open))?;
    }
    for act in FIRST {
        rows.push((0, act))?;
    }
    for _ in 0..EVENTS {
        let actor = dice.below(3) as u32;
        rows.push((actor, dice.act()))?;
    }
    Ok(rows)
}

fn answered(alloc: Global, rows: &[(u32, Do)]) -> Result<Answers, NoMemory> {
    let mut events = Events::new(alloc);
    for row in rows {
        let act = act_of(alloc, row.1)?;
        events.push(Event { actor: row.0, act })?;
    }
    drive(alloc, &empty_base(alloc), &events)
}

// How many records, reads that found something, and failed records one list has.
fn judged(alloc: Global, seed: u64) -> Result<(u64, u64, u64), Fail> {
    let rows = generated(alloc, seed)?;
    let answers = answered(alloc, rows.as_slice())?;
    let mut judge = Judge::new(alloc)?;
    for (i, row) in rows.as_slice().iter().enumerate() {
        if let Some(answer) = answers.get(i) {
            judge.note(row.0 as usize, row.1, answer)?;
        }
    }
    Ok((judge.records.len() as u64, judge.found, judge.failed))
}

#[test]
fn every_read_and_outcome_of_generated_interleavings_is_right(rt: HostRuntime) -> Result<(), Fail> {
    let mut records = 0u64;
    let mut found = 0u64;
    let mut failed = 0u64;
    for seed in 0..LISTS {
        let counts = judged(rt.alloc(), seed)?;
        records = records.saturating_add(counts.0);
        found = found.saturating_add(counts.1);
        failed = failed.saturating_add(counts.2);
    }
    assert!(rt; records > 240, "transactions commit after the first one");
    assert!(rt; found > 500, "reads found something");
    assert!(rt; failed > 10, "records failed");
    Ok(())
}
