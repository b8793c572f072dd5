//! A session, and the transaction that it runs.

ghost use Rattle.group_commit.specs.Encoded.{Spells};

use crate::touched::Touched;
use core_states::Stage;
use graph_model::{Bytes, Changes};

/// A transaction of a session, with what it did.
#[derive(Drop)]
pub struct Work {
    pub tid: u64,
    pub read: u64,
    /// The row of the readers in which it was noted when it began.
    pub row: u32,
    /// How far its record is.
    pub stage: Stage,
    /// The vertex number that it drew last, where it has not used it.
    pub drawn: Option<u64>,
    /// What it changed. None once its record is queued.
    pub changes: Changes,
    /// How the log spells the changes.
    pub spelling: Bytes,
    /// How many bytes more its changes may be encoded in.
    pub left: u64,
    /// The vertices that it took.
    pub touched: Touched,
    /// How many of these it has given free, in their order. None before it ends.
    pub settled: usize,
    ghost spelled: { Spells spelling changes },
}

/// A session: whether its row is open, and the transaction that it runs.
#[derive(Drop)]
pub struct Session {
    pub index: u64,
    pub is_open: bool,
    /// The epoch of its last record that is done, until it begins again.
    pub finished: Option<u64>,
    pub work: Option<Work>,
}
