//! The texts of a graph and of a log that was read, as the commands `dump` and `check` print them.
//!
//! The text of a graph has a line for its epoch, for each vertex and for each edge, and a last one with the
//! numbers of vertices and edges. The text of a log is one line: how far it goes, and how many bytes lie
//! behind. Both are printed piece by piece through an `Outlet`, and take no memory.
#![tactic(auto)]

mod check;
mod dump;
mod line;

pub use check::{check_text, check_text_through};
pub use dump::{dump_text, dump_text_through};
