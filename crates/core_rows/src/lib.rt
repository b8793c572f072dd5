//! What the core keeps of one vertex: its lock, the versions of its payload, and a log of edges for each
//! label.
//!
//! A row is plain data. A transaction takes it, and then writes into it what is private to the
//! transaction: entries of logs, and versions. Apply turns these into what every later snapshot sees, and
//! undo takes them away. Readers of any snapshot find their vertex in the row at any time.
#![tactic(auto)]

mod core_row;
mod opening;
mod row_log;

pub use core_row::CoreRow;
pub use opening::{labels_in, pairs_of, payload_in};
