//! What waits to be committed, and what became of it: the queue of members, and the outcomes that are kept.
//!
//! A transaction that commits puts its member into the queue and waits for its outcome. Whoever leads collects a
//! group from the front of the queue, writes it, and keeps one outcome for all its members. Room for a member
//! and for its outcome is made beforehand, so that no step of a commit takes memory.
#![tactic(auto)]

mod outcomes;
mod queue;

pub use outcomes::Outcomes;
pub use queue::Queue;
