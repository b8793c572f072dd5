//! What can be asked of a graph, and the answers.

ghost use Rattle.std.specs.Prelude.{◌≡◌};
ghost use Rattle.graph_model.specs.Graph.{asked_vertex};

use crate::{ListOf, Pairs, Payload};

/// A question about one vertex, `v`.
#[derive(Clone, Copy)]
pub enum Query {
    /// Its payload.
    Vertex { v: u64 },
    /// The payload of its edge to `d` under label `l`.
    Edge { v: u64, l: u16, d: u64 },
    /// Its edges under label `l`, newest first.
    Scan { v: u64, l: u16 },
    /// The labels under which it has edges, rising.
    Labels { v: u64 },
}

/// What a query is answered.
#[derive(Drop)]
pub enum Answer {
    /// The vertex is not there.
    NoVertex,
    /// The edge is not there.
    Absent,
    /// The payload of the vertex or the edge.
    Value(Payload),
    /// The edges, newest first.
    Edges(Pairs),
    /// The labels, rising.
    Named(Labels),
}

/// Labels of edges.
pub type Labels = ListOf<u16>;

impl Query {
    /// The vertex that is asked for.
    pub fn vertex(&self) -> u64
        ensures { result ≡ asked_vertex self.now }
    {
        match self {
            Query::Vertex { v } => *v,
            Query::Edge { v, .. } => *v,
            Query::Scan { v, .. } => *v,
            Query::Labels { v } => *v,
        }
    }
}
