//! The words of a command line behind the log file's name, and which command they are.
//!
//! The first word names the command. Options may stand anywhere behind it, each at most once, as `--name value`
//! or `--name=value`; a word `--` ends them. Behind `drill`, and nowhere else, three positional words stand too, before,
//! between or behind options, or behind `--`. No option is shortened, and there are no help or version words.
#![tactic(auto)]

mod command;
mod laws;
mod words;

pub use command::{Command, WordsRefusal, read_command};
pub use laws::words_are_one_command;
pub use words::Words;
