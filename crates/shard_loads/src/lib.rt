//! A shard that is loaded from a base, over every form of a log: its vertices are there, and no edge is lost. Tests
//! alone.
#![tactic(auto)]

#[cfg(test)]
mod asserts;
#[cfg(test)]
mod tests;
