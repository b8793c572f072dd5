//! What a drill is made of.

use std::alloc::Global;

/// What the sessions of a drill have in common.
#[derive(Drop)]
pub struct Drill {
    /// Where payloads and lines are kept.
    pub alloc: Global,
    /// What the generators start from.
    pub seed: u64,
    /// The number of sessions.
    pub sessions: u32,
    /// The vertex of session 0. That of session `s` is so many above it.
    pub next_vertex: u64,
}
