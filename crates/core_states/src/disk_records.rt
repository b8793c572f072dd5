//! What the core knows of the log's disk.

use graph_model::Record;
use std::collections::LinkedList;

/// What is on the log's disk.
#[derive(Drop)]
pub struct DiskRecords {
    /// The records that were durable when the run opened.
    pub opened: LinkedList<Record>,
    /// The records that are durable.
    pub durable: LinkedList<Record>,
    /// When the append of each group behind those that were durable at opening answered.
    pub moments: LinkedList<u64>,
    /// The records of a failed attempt that stands.
    pub attempt: Option<LinkedList<Record>>,
    /// The groups that were tried on the disk in vain, the last one first.
    pub tried: LinkedList<LinkedList<Record>>,
}
