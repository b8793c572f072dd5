//! The commit of a session: its record is queued, led or waited for, applied at each vertex, and done; it is answered once
//! its epoch is visible.
#![tactic(auto)]

mod applying;
mod committing;
mod finishing;
mod seeing;
mod waiting;

pub use committing::{CommitEnd, commit};
