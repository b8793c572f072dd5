//! The replies to requests.

use graph_model::{Labels, ListOf, Pairs, Payload};

/// What a request is answered. The words of each reply stand in docs/scripts.md.
#[derive(Drop)]
pub enum Reply {
    /// A transaction with this number began on the snapshot of this epoch.
    Begun { tid: u64, read: u64 },
    /// The session has a transaction already.
    TxnOpen,
    /// The session has no transaction.
    NoTxn,
    /// The numbers are used up.
    Spent,
    /// Memory ran out.
    NoMemory,
    /// The number of the vertex that was made.
    Vertex { v: u64 },
    /// The payload was set.
    SetDone,
    /// The payload of the vertex.
    Value { p: Payload },
    /// The vertex is not there.
    Lacking,
    /// The vertex was removed.
    Dropped,
    /// The edge was set, and its destination is new in the list.
    Added,
    /// The edge was set in place of the one to the same destination.
    Replaced,
    /// The edge was taken out.
    Gone,
    /// The edge is not there.
    Absent,
    /// The payload of the edge.
    Edge { p: Payload },
    /// The edges, newest first.
    Edges { pairs: Pairs },
    /// The labels, rising.
    Labels { labels: Labels },
    /// The vertex that the request names is not there.
    NoVertex,
    /// Another transaction, of this number, holds the vertex; this one is undone and ended.
    Held { v: u64, tid: u64 },
    /// The vertex was changed at this epoch, which the transaction does not see; it is undone and ended.
    Conflict { v: u64, epoch: u64 },
    /// The changes of the transaction would be too long.
    TxnFull,
    /// The log of the vertex and the label would be too long.
    LogFull,
    /// The transaction committed at this epoch.
    Committed { epoch: u64 },
    /// The transaction had no change and ended.
    Ended,
    /// The record could not be made durable: the disk's count of faults rose from `before` to `after`. The
    /// transaction is undone and ended.
    LogFault { before: u64, after: u64 },
    /// The transaction was undone and ended.
    Aborted,
    /// The log was compacted.
    Compacted,
}

/// The replies to the lines of a script, in order.
pub type Replies = ListOf<Reply>;
