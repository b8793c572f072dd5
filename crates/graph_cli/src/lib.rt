//! The top call: the command words, what the command does with the log, and what it leaves.
#![tactic(auto)]

mod run;
mod top_call;

pub use command_words::Words;
pub use log_commands::Status;
pub use run_ending::{Ended, Report};
pub use top_call::run_graph;
