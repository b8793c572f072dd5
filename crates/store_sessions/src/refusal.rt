//! Why a call of a session is refused.

/// Why a call of a session is refused.
#[derive(Clone, Copy, Debug, PartialEq, Eq)]
pub enum Refusal {
    /// Memory ran out, and nothing was changed; a vertex may be taken from now on, and a number of a vertex used up.
    NoMemory,
    /// Another transaction held the vertex, as often as it was looked at. The session's transaction has ended.
    Held {
        vertex: u64,
        holder: u64,
        looks: u32,
    },
    /// A commit of this epoch, after the snapshot of this epoch, changed the vertex. The session's transaction has ended.
    Conflict {
        vertex: u64,
        committed: u64,
        read: u64,
    },
    /// The transaction sees no such vertex.
    NoVertex,
    /// The transaction's changes would be encoded in more than 16,777,216 bytes. A vertex that is there it owns from now on.
    TxnFull,
    /// The list would take more bytes than a list of the store may. The transaction owns the vertex from now on.
    LogFull,
    /// The append of the transaction's record met a fault of the disk, whose count rose between these two. The session's
    /// transaction has ended.
    LogFault {
        before: u64,
        after: u64,
    },
    /// No number is left.
    Spent,
    /// Another thread has the turn.
    Busy {
        turn: u32,
    },
}
