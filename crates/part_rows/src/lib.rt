//! Generated events through the parts of the store and through the core, whose answers are compared. Tests alone.
#![tactic(auto)]

#[cfg(test)]
mod generated;
