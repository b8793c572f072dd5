//! The row of a vertex as a run starts with it: each list of the base stands in a log, all of it at the base's epoch,
//! and the logs lie in a room that the rows of many vertices share.
//!
//! The edges of a list are appended from the last one on, privately to the number 0, which no transaction has; then
//! they are committed together. Where memory runs out, all blocks that were taken are given back.
#![tactic(auto)]

mod list_log;
mod list_logs;
mod opening;

pub use opening::opened_row;
