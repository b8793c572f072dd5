//! The events, and what they answer.

ghost use Rattle.std.specs.Prelude.{◌≡◌};
ghost use Rattle.core_states.specs.States.{reach_of};

use graph_model::{Answer, Outcome, Payload, Query};

/// What an actor does.
#[derive(Drop)]
pub enum Act {
    /// Opens its reader row.
    Open,
    /// Closes its reader row.
    Close,
    /// Draws a transaction number, and reads the visible epoch.
    Begin,
    /// Draws a vertex number.
    Draw,
    /// Queues its record.
    Enqueue,
    /// Takes the log turn and the first queued records, 64 at most.
    Collect,
    /// Gives the records that it collected and wrote the next epoch, and keeps them.
    Publish,
    /// Gives up the records that it collected: their append met a fault of the disk, whose count rose between
    /// these two.
    Fail { before: u64, after: u64 },
    /// Reads its record's outcome.
    Outcome,
    /// Notes that its record is applied everywhere.
    Done,
    /// Reads whether its record's epoch is visible.
    Seen,
    /// Leaves its transaction, which has no record.
    End,
    /// Reads the horizon and the oldest number.
    Horizon,
    /// Looks at a vertex's lock that it can't take.
    Look { v: u64 },
    /// Sets an edge in front of a list.
    Put { v: u64, l: u16, d: u64, p: Payload },
    /// Takes an edge out of a list.
    Del { v: u64, l: u16, d: u64 },
    /// Sets a vertex's payload.
    Set { v: u64, p: Payload },
    /// Removes a vertex.
    Drop { v: u64 },
    /// Makes a vertex of a number that it drew.
    New { v: u64, p: Payload },
    /// Reads.
    Read { q: Query },
    /// Converts a vertex that its record touched, and gives it free.
    Apply { v: u64 },
    /// Undoes a vertex that it touched, and gives it free.
    Undo { v: u64 },
    /// Notes that the group that it collected is durable, from this moment on.
    WriteGroup { moment: u64 },
    /// Notes that the failed attempt is gone from the disk.
    Mend,
}

/// What an event works on, beside its actor.
#[derive(Clone, Copy, Debug, PartialEq, Eq)]
pub enum Reach {
    /// The clock.
    Clock,
    /// The row of this vertex.
    Row { v: u64 },
    /// The log part.
    Log,
    /// The log part and the clock.
    LogAndClock,
}

impl Act {
    /// What it works on.
    pub fn reach(&self) -> Reach
        ensures { result ≡ reach_of self.now }
    {
        match self {
            Act::Look { v } => Reach::Row { v: *v },
            Act::Put { v, .. } => Reach::Row { v: *v },
            Act::Del { v, .. } => Reach::Row { v: *v },
            Act::Set { v, .. } => Reach::Row { v: *v },
            Act::Drop { v } => Reach::Row { v: *v },
            Act::New { v, .. } => Reach::Row { v: *v },
            Act::Read { q } => Reach::Row { v: q.vertex() },
            Act::Apply { v } => Reach::Row { v: *v },
            Act::Undo { v } => Reach::Row { v: *v },
            Act::WriteGroup { .. } => Reach::Log,
            Act::Mend => Reach::Log,
            Act::Collect => Reach::LogAndClock,
            Act::Publish => Reach::LogAndClock,
            Act::Fail { .. } => Reach::LogAndClock,
            _ => Reach::Clock,
        }
    }
}

/// One act of one actor.
#[derive(Drop)]
pub struct Event {
    pub actor: u32,
    pub act: Act,
}

/// What an event answers.
#[derive(Drop)]
pub enum CoreAnswer {
    /// Its condition does not hold. Nothing is changed.
    NotEnabled,
    /// It is done.
    Done,
    /// The number and the read epoch of the new transaction.
    Begun { tid: u64, read: u64 },
    /// The vertex number that was drawn.
    Number { v: u64 },
    /// No number is left.
    Spent,
    /// The horizon and the oldest number.
    Learnt { horizon: u64, oldest: u64 },
    /// How many records were collected.
    Collected { members: u32 },
    /// The epoch of the group.
    Published { epoch: u64 },
    /// The outcome that is kept.
    Kept { outcome: Option<Outcome> },
    /// Whether the epoch is visible.
    Visible { yes: bool },
    /// Another transaction owns the vertex.
    Held { owner: u64 },
    /// A commit of this epoch, after the snapshot, changed the vertex.
    Conflict { committed: u64 },
    /// The vertex is not there.
    NoVertex,
    /// The transaction's changes would be too long.
    TxnFull,
    /// The list has no room.
    LogFull,
    /// A new edge was set.
    Added,
    /// An edge was set in place of another.
    Replaced,
    /// The edge was taken out.
    Gone,
    /// There is no such edge.
    Absent,
    /// What was read.
    Shown { answer: Answer },
}
