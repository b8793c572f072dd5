//! The requests of a script.

use graph_model::{ListOf, Payload};

/// What a line asks of its session.
#[derive(Drop)]
pub enum Request {
    /// Begins a transaction.
    Begin,
    /// Makes a vertex with this payload.
    Vertex { p: Payload },
    /// Sets the payload of a vertex.
    Set { v: u64, p: Payload },
    /// Reads the payload of a vertex.
    Get { v: u64 },
    /// Removes a vertex with its lists.
    Drop { v: u64 },
    /// Sets an edge in front of its list.
    Put { v: u64, l: u16, d: u64, p: Payload },
    /// Takes an edge out of its list.
    Del { v: u64, l: u16, d: u64 },
    /// Reads the payload of an edge.
    Edge { v: u64, l: u16, d: u64 },
    /// Reads a list of edges, newest first.
    Scan { v: u64, l: u16 },
    /// Reads the labels under which a vertex has edges.
    Labels { v: u64 },
    /// Commits the transaction.
    Commit,
    /// Undoes the transaction.
    Abort,
    /// Compacts the log of a vertex and a label.
    Compact { v: u64, l: u16 },
}

/// A line of a script.
#[derive(Drop)]
pub struct Line {
    /// The session that does the request, 0 to 65,535.
    pub session: u32,
    /// What it asks.
    pub request: Request,
}

/// The lines of a script, in order.
pub type Script = ListOf<Line>;
