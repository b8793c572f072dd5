//! What a committed transaction leaves.

use crate::{Changes, ListOf};

/// What one committed transaction did.
#[derive(Drop)]
pub struct Record {
    /// The transaction's number.
    pub tid: u64,
    /// The epoch of the snapshot that it read.
    pub read: u64,
    /// The epoch at which it committed.
    pub epoch: u64,
    /// What it changed, in order.
    pub changes: Changes,
}

/// Committed records, in the order of their epochs.
pub type Records = ListOf<Record>;

/// Moments of a disk, one for each epoch.
pub type Moments = ListOf<u64>;

/// How the record of a transaction ended.
#[derive(Clone, Copy, Debug, PartialEq, Eq)]
pub enum Outcome {
    /// Its group is durable and has this epoch.
    Committed { epoch: u64 },
    /// Its group was not written: the disk's count of faults rose from `before` to `after`.
    Failed { before: u64, after: u64 },
}
