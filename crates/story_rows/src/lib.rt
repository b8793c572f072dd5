//! What two sessions of a store come to, one call after another, many threads on one vertex, and when a disk counts as slow.
//! Tests alone.
#![tactic(auto)]

#[cfg(test)]
mod asserts;
#[cfg(test)]
mod paces;
#[cfg(test)]
mod stories;
#[cfg(test)]
mod storms;
