//! What a store over a new log starts with.

ghost use Rattle.std.specs.Prelude.{◌≡◌};
ghost use Rattle.graph_model.specs.Records.{empty_base};

use graph_model::{Base, Graph};
use std::alloc::Global;

/// The base of a log without a record. It takes no memory.
pub fn empty_base(alloc: Global) -> Base
    ensures { result ≡ empty_base }
{
    Base {
        graph: Graph::empty(alloc),
        epoch: 0,
        next_tid: 1,
        next_vertex: 1,
    }
}
