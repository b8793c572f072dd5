//! The events of a session on the clock: it opens and closes its row, begins a transaction and gives it up, and commits
//! its record.
#![tactic(auto)]

mod clock_calls;
mod commit_calls;
mod stages;

pub use clock_calls::{Begin, CloseRow, Draw, End, OpenRow};
pub use commit_calls::{Enqueue, Finish, Hear, See};
