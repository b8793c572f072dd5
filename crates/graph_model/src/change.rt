//! One change of the graph, and the changes of a transaction.

ghost use Rattle.std.specs.Prelude.{◌≡◌, ◌==◌, ◌≤◌};
ghost use Rattle.std.specs.List.{list_any};
ghost use Rattle.graph_model.specs.Change.{vertex_of, encoded_len};
ghost use Rattle.graph_model.specs.Applying.{fits_where, leaves_vertex};

use crate::{ListOf, Payload};

/// One change. It touches one vertex, `v`.
#[derive(Drop)]
pub enum Change {
    /// Makes the vertex, with this payload and no edges.
    New { v: u64, p: Payload },
    /// Sets the vertex's payload.
    Set { v: u64, p: Payload },
    /// Removes the vertex with all its lists.
    Drop { v: u64 },
    /// Sets the edge to `d` in front of the list of label `l`, in place of the edge to `d` that stood there.
    Put { v: u64, l: u16, d: u64, p: Payload },
    /// Takes the edge to `d` out of the list of label `l`; changes nothing where none stands.
    Del { v: u64, l: u16, d: u64 },
}

/// The changes of a transaction, in order.
pub type Changes = ListOf<Change>;

impl Change {
    /// The one vertex that the change touches.
    pub fn vertex(&self) -> u64
        ensures { result ≡ vertex_of self.now }
    {
        match self {
            Change::New { v, .. } => *v,
            Change::Set { v, .. } => *v,
            Change::Drop { v } => *v,
            Change::Put { v, .. } => *v,
            Change::Del { v, .. } => *v,
        }
    }

    /// Whether the change fits where its vertex is there or not.
    pub(crate) fn fits_where(&self, here: bool) -> bool
        ensures { result ≡ fits_where self.now here }
    {
        match self {
            Change::New { .. } => !here,
            _ => here,
        }
    }

    /// Whether the vertex is there after the change, where it fits.
    pub(crate) fn leaves_vertex(&self) -> bool
        ensures { result ≡ leaves_vertex self.now }
    {
        !matches!(self, Change::Drop { .. })
    }

    /// How many bytes the change is encoded in: at most 65,556.
    pub fn encoded_len(&self) -> u64
        ensures len { result ≡ encoded_len self.now }
        ensures within { result ≤ 65556 }
    {
        match self {
            Change::New { p, .. } | Change::Set { p, .. } => 11 + p.len() as u64,
            Change::Drop { .. } => 9,
            Change::Put { p, .. } => 21 + p.len() as u64,
            Change::Del { .. } => 19,
        }
    }
}

impl Changes {
    /// Whether one of the changes is about the vertex. Time: one step for each change.
    pub fn touch(&self, v: u64) -> bool
        ensures { result ≡ list_any (λ c. vertex_of c == v) self.now }
    {
        self.as_slice().iter().any(|change| change.vertex() == v)
    }
}
