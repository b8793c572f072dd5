//! What `run` and `drill` do before their first request: the log on the disk is made firm and recovered, the script is
//! read whole and judged whole, or two are made of a seed, and what stands behind the log is cut off.
//!
//! The order matters: a script that is refused leaves the log untouched, and after a crash at any moment of all
//! this the log recovers to the same records.
#![tactic(auto)]

mod drill;
mod log;
mod opening;
mod script;

pub use drill::{OpenedDrill, open_drill};
pub use opening::{Opened, open_run};
