//! The edges of one vertex under one label, as a log of stamped entries.
//!
//! Entries are only appended. An entry begins to count by its stamp `created` and ceases to by its stamp
//! `ended`, so that every snapshot finds its own edges in the one log: a put ends the entry before and
//! appends a new one. A commit turns the private stamps of its transaction into an epoch. A scan goes
//! from the newest entry down, in parts. The log may lie in a room of blocks; `PlainLog` needs none.
#![tactic(auto)]

pub mod laws;
mod log;
mod part;
mod place;
mod plain_log;
mod refusal;
mod slot;
mod slots;
mod stored;

pub use log::EdgeLog;
pub use part::Part;
pub use place::Place;
pub use plain_log::PlainLog;
pub use refusal::LogRefusal;
