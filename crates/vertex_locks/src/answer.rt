//! What a look at a lock row answers.

/// What a look at a lock row answers.
#[derive(Clone, Copy, Debug, PartialEq, Eq)]
pub enum Look {
    /// The transaction owns the row now.
    Taken,
    /// Another transaction owns the row.
    Held { owner: u64 },
    /// Nobody owns the row, and a commit after the transaction's snapshot changed the vertex.
    Conflict { committed: u64 },
}
