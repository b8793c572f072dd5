//! Laws of the plain graph, which hold of its definitions. The crates above cite them.

ghost use Rattle.std.specs.Prelude.{◌≡◌, ℕ, ◌==◌, List, IsTrue, if◌then◌else◌};
ghost use Rattle.graph_model.specs.declared.change.Change.{Change};
ghost use Rattle.graph_model.specs.declared.record.Record.{Record};
ghost use Rattle.graph_model.specs.Vertex.{Vertex};
ghost use Rattle.graph_model.specs.Change.{vertex_of};
ghost use Rattle.graph_model.specs.Graph.{vertex_at, vertex_after, apply, after, at};
ghost use Rattle.graph_model.specs.Whole.{is_graph};
ghost use Rattle.graph_model.specs.Places.{changes_about, place_after, records_until};
ghost use Rattle.graph_model.specs.Records.{number_end, transaction_most, list_most, group_most};

use crate::{GROUP_MOST, LIST_MOST, NUMBER_END, TRANSACTION_MOST};

/// A change makes of its own vertex what `vertex_after` says, and leaves every other vertex as it was.
pub fn a_change_touches_its_vertex_alone()
    ensures { (v : ℕ) (c : Change) (g : List Vertex) →
        vertex_at v (apply c g) ≡ (if vertex_of c == v then vertex_after c (vertex_at v g) else vertex_at v g) }
{}

/// What stands at a vertex after changes is decided by what stood there and by the changes about it.
pub fn the_changes_of_a_vertex_decide_it()
    ensures { (v : ℕ) (changes : List Change) (g : List Vertex) →
        vertex_at v (after changes g) ≡ place_after (changes_about v changes) (vertex_at v g) }
{}

/// A snapshot is that of the records up to its epoch: later ones have no part in it.
pub fn a_snapshot_is_of_the_records_up_to_it()
    ensures { (g : List Vertex) (records : List Record) (e : ℕ) → at g records e ≡ at g (records_until e records) e }
{}

/// Changes of what a Graph shows leave what a Graph shows.
pub fn changes_leave_a_whole_graph()
    ensures { (changes : List Change) (g : List Vertex) → IsTrue (is_graph g) → IsTrue (is_graph (after changes g)) }
{}

/// The limits of the code are those that the rules of records name.
pub fn the_limits_are_those_of_the_rules()
    ensures numbers { NUMBER_END ≡ number_end }
    ensures transaction { TRANSACTION_MOST ≡ transaction_most }
    ensures list { LIST_MOST ≡ list_most }
    ensures group { GROUP_MOST ≡ group_most }
{}
