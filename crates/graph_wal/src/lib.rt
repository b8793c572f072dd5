//! The log on a disk: groups of records, each durable before it is acknowledged.
//!
//! The problem: a crash while a group is written may leave any bytes where it was to stand. The mechanism: each
//! group stands behind a gate, one byte that is closed until the group and the closed gate behind it are firm,
//! and is then opened by a write of its own. So whatever a crash leaves, the gates say where the log ends.
//! The words: the durable records are those of the groups behind open gates; an attempt is a group whose
//! writing has failed, and which may or may not be found behind them until it is mended.
#![tactic(auto)]

mod disk_fault;
pub mod laws;
mod opening;
mod pieces;
mod steps;
mod wal;

pub use disk_fault::DiskFault;
pub use opening::{cut_rest, settle};
pub use wal::{Attempt, Wal};
