//! What a board was made for, as clauses see it.

use graph_model::Base;
use std::snapshot::Snapshot;

/// What a board was made for: the base, how many bytes a log may have at most, and the values that it opened with.
/// Of the base and the values it has only what clauses see.
#[derive(Drop)]
pub struct Opened<H> {
    pub base: Snapshot<Base>,
    pub log_most: u64,
    pub values: Snapshot<Vec<Option<H>>>,
}
