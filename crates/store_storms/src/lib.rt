//! Storms: many threads that put edges on one vertex of a store, each as often as it is to, and begin again where another
//! one was before them.
//!
//! The problem: no clause says that threads get on. The mechanism: a test runs a storm and looks whether the store and its
//! log have every edge. The words: a putter is a thread's worker, with a pass and a session of its own.
#![tactic(auto)]

mod crew;
mod putter;
mod storm;

pub use putter::{LABEL, Putter};
pub use storm::{Stormed, storm_over};
