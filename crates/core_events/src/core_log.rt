//! The log part of a run whose actors are all of the first pass, as plain data.

use core_states::DiskRecords;

/// The log part of a run whose actors are all of the first pass.
#[derive(Drop)]
pub struct CoreLog {
    /// The actor that holds the log turn, from its collect to its publish or fail.
    pub holder: Option<u32>,
    /// The last durable epoch.
    pub durable: u64,
    /// When the last append answered, or 0.
    pub moment: u64,
    /// Whether no failed attempt stands.
    pub mended: bool,
    /// The disk's count of faults when the run opened.
    pub opening_count: u64,
    /// The count after the last fail, or the one at opening.
    pub greatest: u64,
    /// What is on the disk.
    pub disk: DiskRecords,
}
