//! A text that is read as a script by several threads, each of which reads a piece of it.
//!
//! A script is cut behind a newline near its middle, and so are its pieces, for as many threads as there are; where there is
//! one, it cuts part after part off the front. The lines of the parts, one after another, are the lines of the whole. A text
//! that is no script is read once more by one thread, which finds the first place that is bad.
#![tactic(auto)]

mod border;
mod reading;

pub use reading::read_side_by_side;

#[cfg(test)]
mod tests;
