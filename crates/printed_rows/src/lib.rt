//! The texts of a graph, of a log and of a drill, and the lines of a small drill. Tests alone.
#![tactic(auto)]

#[cfg(test)]
mod drills;
#[cfg(test)]
mod dumps;
