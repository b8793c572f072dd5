//! What a log recovers to.

use graph_model::{Base, Records};

/// A log that was read.
#[derive(Drop)]
pub struct Recovered {
    /// What a run that goes on from the log starts from.
    pub base: Base,
    /// The records of the log, in order.
    pub records: Records,
    /// The place behind the gate after the last group, in bytes. What follows it is the rest, which was not
    /// read as groups.
    pub durable: u64,
    /// The number of bytes on the disk, as the disk told it.
    pub length: u64,
}
