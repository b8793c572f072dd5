//! Who calls a shard, and how a shard answers.

/// The calling transaction.
#[derive(Clone, Copy, Debug, PartialEq, Eq)]
pub struct Who {
    /// Its number.
    pub tid: u64,
    /// The epoch of its snapshot.
    pub read: u64,
    /// How many bytes more its changes may be encoded in.
    pub left: u64,
}

/// What a put did.
#[derive(Clone, Copy, Debug, PartialEq, Eq)]
pub enum Placed {
    /// There was no edge to the destination.
    Added,
    /// The edge to the destination was ended.
    Replaced,
}

/// What a del did.
#[derive(Clone, Copy, Debug, PartialEq, Eq)]
pub enum Taken {
    /// The edge was ended.
    Gone,
    /// There was no edge.
    Absent,
}

/// Why a shard did not make a change.
#[derive(Clone, Copy, Debug, PartialEq, Eq)]
pub enum ShardRefusal {
    /// Memory ran out. The vertex is as before.
    NoMemory,
    /// The transaction sees no such vertex. The vertex is as before.
    NoVertex,
    /// The transaction's changes would be too long. It owns the vertex.
    TxnFull,
    /// The log would take too much. The transaction owns the vertex.
    LogFull,
}
