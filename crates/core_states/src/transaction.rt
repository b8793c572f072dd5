//! A transaction that an actor runs, and what is kept of one that has ended.

ghost use Rattle.std.specs.Prelude.{◌≡◌, ◌+◌, ◌<◌, ◌^◌, ◌++◌, length, false, IfOk};
ghost use Rattle.graph_model.specs.Change.{vertex_of};
ghost use Rattle.core_states.specs.NoteRooms.{IsNoteRoom};
ghost use Rattle.graph_model.specs.Places.{changes_about};
ghost use Rattle.core_states.specs.RowEvents.{has_change, is_long};
ghost use Rattle.core_states.specs.Openings.{run_limits};
ghost use Rattle.core_states.specs.Transactions.{is_working, holds, is_queued, is_loser, won_epoch, touching, changing, end_by_look, end_of};

use crate::lists::{can_join, one};
use crate::numbers::has_number;
use crate::{LastLook, Listed, OwnChanges};
use graph_model::{Change, NoMemory, Outcome, TRANSACTION_MOST};
use std::alloc::Global;
use std::collections::LinkedList;
use vertex_locks::Look;

/// What an actor knows of its transaction's record.
#[derive(Clone, Copy, Debug, PartialEq, Eq)]
pub enum Stage {
    /// It was not queued.
    Open,
    /// It was queued, and its outcome is not known.
    Queued,
    /// It has this outcome, though the transaction still runs.
    Decided { outcome: Outcome },
}

/// NoteRoom for a note in a transaction: a change of a vertex, which it may take with it.
#[derive(Drop)]
pub struct NoteRoom {
    /// The vertex, where the transaction has not taken it yet.
    pub touched: LinkedList<u64>,
    /// The change.
    pub own: OwnChanges,
}

/// A transaction that runs.
#[derive(Drop)]
pub struct Transaction {
    /// Its number.
    pub tid: u64,
    /// The epoch of the snapshot that it reads.
    pub read: u64,
    /// The vertex numbers that it drew and has not used, the last one first.
    pub drawn: Listed<u64>,
    /// The vertices that it took, the last one first.
    pub touched: LinkedList<u64>,
    /// Those of them that it has undone or applied, the last one first.
    pub settled: LinkedList<u64>,
    /// What it changed, in order.
    pub own: OwnChanges,
    /// How far its record is.
    pub stage: Stage,
}

impl Transaction {
    /// Whether it is open, its record was not queued, and it has undone no vertex.
    pub fn is_working(&self) -> bool
        ensures { result ≡ is_working self.now }
    {
        match self.stage {
            Stage::Open => self.settled.is_empty(),
            _ => false,
        }
    }
}

impl Transaction {
    /// Whether its record waits for its outcome.
    pub fn is_queued(&self) -> bool
        ensures { result ≡ is_queued self.now.stage }
    {
        matches!(self.stage, Stage::Queued)
    }

    /// Whether its record was not queued or has failed.
    pub fn is_loser(&self) -> bool
        ensures { result ≡ is_loser self.now.stage }
    {
        match self.stage {
            Stage::Open => true,
            Stage::Queued => false,
            Stage::Decided { outcome } => matches!(outcome, Outcome::Failed { .. }),
        }
    }

    /// The epoch of its record, where it knows one.
    pub fn won_epoch(&self) -> Option<u64>
        ensures { result ≡ won_epoch self.now.stage }
    {
        match self.stage {
            Stage::Decided { outcome } => match outcome {
                Outcome::Committed { epoch } => Some(epoch),
                Outcome::Failed { .. } => None,
            },
            _ => None,
        }
    }

    /// Whether it took the vertex, and has neither undone nor applied it.
    pub fn holds(&self, v: u64) -> bool
        ensures { result ≡ holds self.now v }
    {
        has_number(v, &self.touched) && !has_number(v, &self.settled)
    }

    /// Whether one of its changes is about the vertex.
    pub fn changes(&self, v: u64) -> bool
        ensures { result ≡ has_change (changes_about v self.now.own) }
    {
        self.own.touch(v)
    }

    /// Whether its changes with this one would be too long.
    pub fn is_long(&self, change: &Change) -> bool
        ensures { result ≡ is_long run_limits self.now change.now }
    {
        self.own.encoded_len() > TRANSACTION_MOST - change.encoded_len()
    }

    /// NoteRoom for a note of this change, or that its vertex was taken. Time: one step for each vertex that was
    /// taken, and each byte of the change.
    pub fn room(&self, alloc: Global, change: &Change) -> Result<NoteRoom, NoMemory>
        ensures { IfOk result (IsNoteRoom self.now change.now) }
    {
        let v = change.vertex();
        let taken = one(alloc, v)?;
        if !can_join(&self.touched, &taken) {
            return Err(NoMemory);
        }
        let own = OwnChanges::of(alloc, change)?;
        let touched = if has_number(v, &self.touched) {
            LinkedList::new(alloc)
        } else {
            taken
        };
        Ok(NoteRoom { touched, own })
    }

    /// Notes that it has made this change, in the room that was made for it. It takes no memory.
    pub fn note(&mut self, change: &Change, room: NoteRoom)
        requires room { IsNoteRoom self.old change.now room }
        requires short { is_long run_limits self.old change.now ≡ false }
        ensures { self.new ≡ changing self.old change.now }
    {
        self.drawn.take_number(change.vertex());
        self.touched = joined(room.touched, &mut self.touched);
        self.own.append(room.own);
    }

    /// Notes that it has taken the change's vertex, in the room that was made for it. It takes no memory.
    pub fn note_taken(&mut self, change: &Change, room: NoteRoom)
        requires { IsNoteRoom self.old change.now room }
        ensures { self.new ≡ touching self.old (vertex_of change.now) }
    {
        let _change = change;
        self.touched = joined(room.touched, &mut self.touched);
    }

    /// How it ends without a committed record, by its last look.
    pub fn end(&self, looked: Option<LastLook>) -> End
        ensures { result ≡ end_of self.now.stage looked }
    {
        match self.stage {
            Stage::Open => end_by_look(looked),
            Stage::Queued => End::Without,
            Stage::Decided { outcome } => match outcome {
                Outcome::Committed { .. } => End::Without,
                Outcome::Failed { before, after } => End::Faulted { before, after },
            },
        }
    }
}

// The numbers of one list, and then those of the other.
fn joined(mut first: LinkedList<u64>, second: &mut LinkedList<u64>) -> LinkedList<u64>
    requires { length first + length second.old < 2 ^ 63 }
    ensures { result ≡ first ++ second.old }
{
    let _joined = first.append(second);
    first
}

// How a transaction ends that was given up after this look.
fn end_by_look(looked: Option<LastLook>) -> End
    ensures { result ≡ end_by_look looked }
{
    let Some(last) = looked else {
        return End::Without;
    };
    match last.look {
        Look::Taken => End::Without,
        Look::Held { owner } => End::HeldBy { v: last.v, owner },
        Look::Conflict { committed } => End::ConflictAt {
            v: last.v,
            epoch: committed,
        },
    }
}

/// How a transaction ended.
#[derive(Clone, Copy, Debug, PartialEq, Eq)]
pub enum End {
    /// Its record has this epoch.
    CommittedAt { epoch: u64 },
    /// Its record's group was not written: the disk's count of faults rose from `before` to `after`.
    Faulted { before: u64, after: u64 },
    /// Another transaction, `owner`, held a vertex.
    HeldBy { v: u64, owner: u64 },
    /// A commit of this epoch, after its snapshot, had changed a vertex.
    ConflictAt { v: u64, epoch: u64 },
    /// For no such cause: it was given up, or had changed nothing.
    Without,
}

/// What is kept of a transaction that has ended.
#[derive(Drop)]
pub struct Receipt {
    /// Its number.
    pub tid: u64,
    /// The epoch of its snapshot.
    pub read: u64,
    /// What it had changed.
    pub changes: OwnChanges,
    /// The vertices that it had taken.
    pub touched: LinkedList<u64>,
    /// How it ended.
    pub ends: End,
}
