//! The lines of a script that one worker runs.
//!
//! The problem: workers share a script, and each runs the lines of its own sessions, in their order. The mechanism: a
//! worker goes over the script and takes the lines whose session has its number modulo the number of workers, and passes a
//! gate before each of them. A script that no other worker needs is given back as its lines run. The words: a session is ready for a line while its row is open and what it has open works.
#![tactic(auto)]

mod lines;
mod shared;
mod whole;

pub use lines::run_lines;
pub use shared::SharedRun;
pub use whole::Whole;
