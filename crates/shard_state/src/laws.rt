//! Laws of shards, which hold of their definitions. The crates above cite them.

ghost use Rattle.std.specs.Prelude.{◌≡◌, ℕ, ◌<◌, List};
ghost use Rattle.graph_model.specs.declared.graph.Base.{Base};
ghost use Rattle.graph_model.specs.Vertex.{Vertex};
ghost use Rattle.graph_model.specs.Graph.{vertex_at};
ghost use Rattle.core_rows.specs.Openings.{opened_row};
ghost use Rattle.core_states.specs.Parts.{row_of};
ghost use Rattle.shard_state.specs.declared.shard.Shard.{Shard};
ghost use Rattle.shard_state.specs.Shards.{row_at, IsOf, SameShard, HasLoaded};
ghost use Rattle.shard_state.specs.RowLists.{rows_listed};

use edge_log::EdgeLog;

/// A shard that has loaded a graph has still loaded it after each call.
pub fn what_was_loaded_stays_loaded<L: EdgeLog>()
    ensures { (graph : List Vertex) (old new : Shard L L.Room)
        → SameShard old new → HasLoaded graph old → HasLoaded graph new }
{}

/// As a part of the core, the list of its rows says of each vertex of a shard that has loaded the base what the shard
/// shows; of every other vertex it says what the base does.
pub fn the_rows_are_those_of_the_vertices<L: EdgeLog>()
    ensures own { (base : Base) (shard : Shard L L.Room) (v : ℕ)
        → shard.number < shard.shards → HasLoaded base.graph shard → IsOf v shard
        → row_of base (rows_listed L.content shard) v ≡ row_at L.content shard v }
    ensures others { (base : Base) (shard : Shard L L.Room) (v : ℕ)
        → shard.number < shard.shards → (IsOf v shard → ⊥)
        → row_of base (rows_listed L.content shard) v ≡ opened_row base.epoch (vertex_at v base.graph) }
{}
