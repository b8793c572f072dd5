//! How a run on a log ends, and what it leaves.
//!
//! The problem: whoever runs a command wants to know of the log, of the replies and of the status in one place, however
//! many scripts the command ran. The mechanism: a report of the run, and one definition of what holds of it, over the
//! phases that were run.
#![tactic(auto)]

mod ended;
mod status;

pub use ended::{Ended, Report};
pub use status::status_after;
