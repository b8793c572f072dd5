//! The lines of a script, which lie in memory in parts.
//!
//! The problem: several threads read a script, each its own part of it, and every line would be moved once more if the
//! parts were brought together. The mechanism: the parts stay where they are, one behind another, and who goes over the
//! lines goes over the parts, each of which can be given back once it is done with.
#![tactic(auto)]

mod part;
mod parts;

pub use part::Part;
pub use parts::ScriptParts;

#[cfg(test)]
mod tests;
