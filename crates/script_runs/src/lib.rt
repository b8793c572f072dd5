//! A script on a log: a store is opened over the log's records, workers run the script's lines, and the store is closed.
//!
//! The problem: the replies to all lines are to be legal for the one list of records that committed, for every number of
//! workers and however their calls interleave; and want of memory is to leave the log as it was. The mechanism: each
//! worker's pass notes what its lines did, the close of the store tells of one run of all events, and the law on notes says
//! that then the replies are legal. The sessions, and room for all workers and replies, are taken before the store is
//! opened, and what runs after that cannot fail.
#![tactic(auto)]

mod anew;
mod both;
mod run;

pub use anew::run_anew;
pub use both::{BothRun, run_both_on_log};
pub use run::{ScriptRun, run_on_log};
