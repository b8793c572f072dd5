//! The run of a drill on a log: its two scripts are run one after the other on one store, and a line sums up what they
//! leave.
#![tactic(auto)]

mod running;
mod summary;

pub use running::{Plan, drill};
