//! The value of the log's turn: the log on a disk, with what the core's log part says of it.
//!
//! The problem: the core's log part tells which records are durable, and a disk may tell of its bytes nothing. The
//! mechanism: beside the log stands what was found and appended, as a value that only clauses read, and an invariant
//! says that the log has exactly that. The words: the notes are that value; a group was tried where its append met a
//! fault of the disk.
#![tactic(auto)]

pub mod laws;
mod log_home;
mod notes;
pub mod story;

pub use log_home::{LogClosed, LogHome};
