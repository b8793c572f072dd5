//! Transactions that are written to the log together, as one group with one epoch.
#![tactic(auto)]

mod group;
mod member;

pub use group::Group;
pub use member::Member;
