//! The acts and the answers of a script, in few words.

ghost use Rattle.graph_model.specs.Records.{IsGood};

use core_states::{Act, CoreAnswer};
use graph_model::{Answer, Base, Graph, NoMemory, Outcome, Pairs, Payload, Query};
use std::alloc::Global;
use std::fmt::Write;
use std::test::Fail;

/// What an actor does. A payload is one byte.
#[derive(Clone, Copy)]
pub(crate) enum Do {
    Open,
    Close,
    Begin,
    Draw,
    Enqueue,
    Collect,
    Publish,
    Outcome,
    Done,
    Seen,
    End,
    Horizon,
    Look(u64),
    Put(u64, u16, u64, u8),
    Del(u64, u16, u64),
    Set(u64, u8),
    Drop(u64),
    New(u64, u8),
    Get(u64),
    Edge(u64, u16, u64),
    Scan(u64, u16),
    Labels(u64),
    Apply(u64),
    Undo(u64),
    Write(u64),
    Fail(u64, u64),
    Mend,
}

/// A base without records.
pub(crate) fn empty_base(alloc: Global) -> Base
    ensures { IsGood result }
{
    Base {
        graph: Graph::empty(alloc),
        epoch: 0,
        next_tid: 1,
        next_vertex: 1,
    }
}

/// A payload of one byte.
pub(crate) fn payload(alloc: Global, byte: u8) -> Result<Payload, NoMemory> {
    Payload::from_slice(alloc, &[byte])
}

/// The act that is meant.
pub(crate) fn act_of(alloc: Global, word: Do) -> Result<Act, NoMemory> {
    match word {
        Do::Open => Ok(Act::Open),
        Do::Close => Ok(Act::Close),
        Do::Begin => Ok(Act::Begin),
        Do::Draw => Ok(Act::Draw),
        Do::Enqueue => Ok(Act::Enqueue),
        Do::Collect => Ok(Act::Collect),
        Do::Publish => Ok(Act::Publish),
        Do::Outcome => Ok(Act::Outcome),
        Do::Done => Ok(Act::Done),
        Do::Seen => Ok(Act::Seen),
        Do::End => Ok(Act::End),
        Do::Horizon => Ok(Act::Horizon),
        Do::Look(v) => Ok(Act::Look { v }),
        Do::Put(v, l, d, byte) => Ok(Act::Put {
            v,
            l,
            d,
            p: payload(alloc, byte)?,
        }),
        Do::Del(v, l, d) => Ok(Act::Del { v, l, d }),
        Do::Set(v, byte) => Ok(Act::Set {
            v,
            p: payload(alloc, byte)?,
        }),
        Do::Drop(v) => Ok(Act::Drop { v }),
        Do::New(v, byte) => Ok(Act::New {
            v,
            p: payload(alloc, byte)?,
        }),
        Do::Apply(v) => Ok(Act::Apply { v }),
        Do::Undo(v) => Ok(Act::Undo { v }),
        Do::Write(moment) => Ok(Act::WriteGroup { moment }),
        Do::Fail(before, after) => Ok(Act::Fail { before, after }),
        Do::Mend => Ok(Act::Mend),
        Do::Get(_) | Do::Edge(..) | Do::Scan(..) | Do::Labels(_) => Ok(Act::Read {
            q: query_of(word),
        }),
    }
}

/// The query that is meant.
pub(crate) fn query_of(word: Do) -> Query {
    match word {
        Do::Edge(v, l, d) => Query::Edge { v, l, d },
        Do::Scan(v, l) => Query::Scan { v, l },
        Do::Labels(v) => Query::Labels { v },
        Do::Get(v) => Query::Vertex { v },
        _ => Query::Vertex { v: 0 },
    }
}

fn byte_of(p: &Payload) -> u8 {
    p.get(0).copied().unwrap_or(0)
}

fn write_pairs(text: &mut String, pairs: &Pairs) -> Result<(), Fail> {
    write!(text, "edges")?;
    for i in 0..pairs.len() {
        if let Some(pair) = pairs.get(i) {
            let d = pair.d;
            let byte = byte_of(&pair.p);
            write!(text, " {d}:{byte}")?;
        }
    }
    Ok(())
}

/// What was read, as a line.
pub(crate) fn read_line(alloc: Global, answer: &Answer) -> Result<String, Fail> {
    let mut text = String::new(alloc);
    match answer {
        Answer::NoVertex => write!(text, "no vertex")?,
        Answer::Absent => write!(text, "absent")?,
        Answer::Value(p) => {
            let byte = byte_of(p);
            write!(text, "value {byte}")?;
        }
        Answer::Edges(pairs) => write_pairs(&mut text, pairs)?,
        Answer::Named(labels) => {
            write!(text, "labels")?;
            for label in labels.as_slice() {
                write!(text, " {label}")?;
            }
        }
    }
    Ok(text)
}

/// An answer as a line.
pub(crate) fn line_of(alloc: Global, answer: &CoreAnswer) -> Result<String, Fail> {
    if let CoreAnswer::Shown { answer } = answer {
        return read_line(alloc, answer);
    }
    let mut text = String::new(alloc);
    write_numbers(&mut text, answer)?;
    Ok(text)
}

fn write_numbers(text: &mut String, answer: &CoreAnswer) -> Result<(), Fail> {
    match answer {
        CoreAnswer::Begun { tid, read } => write!(text, "begun {tid} {read}")?,
        CoreAnswer::Number { v } => write!(text, "number {v}")?,
        CoreAnswer::Learnt { horizon, oldest } => write!(text, "learnt {horizon} {oldest}")?,
        CoreAnswer::Collected { members } => write!(text, "collected {members}")?,
        CoreAnswer::Published { epoch } => write!(text, "published {epoch}")?,
        CoreAnswer::Kept { outcome } => write_outcome(text, *outcome)?,
        CoreAnswer::Held { owner } => write!(text, "held {owner}")?,
        CoreAnswer::Conflict { committed } => write!(text, "conflict {committed}")?,
        other => {
            let word = word_of(other);
            write!(text, "{word}")?;
        }
    }
    Ok(())
}

fn write_outcome(text: &mut String, outcome: Option<Outcome>) -> Result<(), Fail> {
    match outcome {
        None => write!(text, "kept nothing")?,
        Some(Outcome::Committed { epoch }) => write!(text, "kept committed {epoch}")?,
        Some(Outcome::Failed { before, after }) => write!(text, "kept failed {before} {after}")?,
    }
    Ok(())
}

fn word_of(answer: &CoreAnswer) -> &'static str {
    match answer {
        CoreAnswer::NotEnabled => "not enabled",
        CoreAnswer::Done => "done",
        CoreAnswer::Spent => "spent",
        CoreAnswer::Visible { yes } => { if *yes { "visible" } else { "not visible" } }
        CoreAnswer::NoVertex => "no vertex",
        CoreAnswer::TxnFull => "transaction full",
        CoreAnswer::LogFull => "log full",
        CoreAnswer::Added => "added",
        CoreAnswer::Replaced => "replaced",
        CoreAnswer::Gone => "gone",
        CoreAnswer::Absent => "absent",
        _ => "numbers",
    }
}
