//! The logs of a row: the first one lies in the row itself, and those after it in a vector.
//!
//! Nearly every vertex has one label. A read of one of its edges then goes from the row to the log's block at once,
//! and not by way of a vector's memory.
#![tactic(auto)]

mod row_logs;

pub use row_logs::RowLogs;

#[cfg(test)]
mod tests;
