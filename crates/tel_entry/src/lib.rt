//! Headers, entries and stamps as the bytes and numbers that stand in a block of an edge log.
//!
//! A block begins with a header of 36 bytes. Its entries of 28 bytes stand at its end, the newest first
//! in memory. All numbers are big-endian. A stamp is one number: 0, an epoch, or 2^63 and a transaction.
#![tactic(auto)]

mod entry;
mod header;
pub mod laws;
mod raw_stamp;

pub use entry::{Entry, read_entry, write_entry};
pub use header::{Header, read_header, write_header};
pub use raw_stamp::{NEVER, never_ended, private_stamp, visible};
