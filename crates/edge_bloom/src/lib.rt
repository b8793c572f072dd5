//! A filter over destinations, which tells most that are not there from those that may be.
//!
//! A filter is a set of bits. Each destination has three places in it, by the top bits of a product;
//! where one of its bits is not set, the destination was never added. Some that were never added have
//! all three bits set by others, so that a yes says nothing.
#![tactic(auto)]

mod filter;
mod places;

pub use filter::{add, clear, may_hold};

#[cfg(test)]
mod tests;
