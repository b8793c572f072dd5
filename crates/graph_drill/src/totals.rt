//! How many edges a graph has, and the sum of their destinations: a walk over its vertices and labels.

ghost use Rattle.std.specs.Prelude.{◌≡◌, ◌<◌, ◌≤◌, ◌+◌, ◌*◌, ◌-◌, ◌^◌, [], length, sum_by, unwrap_or, IsTrue};
ghost use Rattle.graph_model.specs.Graph.{vertex_at};
ghost use Rattle.graph_model.specs.Whole.{is_graph};
ghost use Rattle.graph_model.specs.Walking.{pairs_of};
ghost use Rattle.graph_dump.specs.DumpText.{edge_count};
ghost use Rattle.graph_dump.specs.PlaceText.{lists_at, edges_in};
ghost use Rattle.graph_drill.specs.Summary.{pairs_sum, lists_sum, destination_sum};
ghost use Rattle.graph_drill.specs.Totals.{HasRoom, Adds};

use graph_model::Graph;

/// What edges come to.
#[derive(Clone, Copy)]
pub struct Totals {
    /// How many there are.
    pub edges: u64,
    /// The sum of their destinations.
    pub sum: u128,
}

/// The totals of all edges of a graph. Time: one step for each edge, and a logarithmic one for each vertex and label.
/// It takes no memory.
pub fn totals_of(g: &Graph) -> Totals
    requires few { edge_count g.now < 2 ^ 64 }
    ensures edges { result.edges ≡ edge_count g.now }
    ensures sum { result.sum ≡ destination_sum g.now }
{
    let mut totals = Totals { edges: 0, sum: 0 };
    let mut next = g.next_vertex(0);
    while let Some(v) = next {
        totals.add_vertex(g, v);
        next = g.vertex_after(v);
    }
    totals
}

impl Totals {
    /// Adds the edges of a vertex.
    fn add_vertex(&mut self, g: &Graph, v: u64)
        requires whole { IsTrue (is_graph g.now) }
        requires fit { HasRoom self.old (edges_in (lists_at (vertex_at v g.now))) }
        ensures added { Adds self.old self.new (edges_in (lists_at (vertex_at v g.now)))
            (lists_sum (lists_at (vertex_at v g.now))) }
    {
        let mut next = g.next_label(v, 0);
        while let Some(l) = next {
            self.add_list(g, v, l);
            next = g.label_after(v, l);
        }
    }

    /// Adds the edges of a vertex under a label.
    fn add_list(&mut self, g: &Graph, v: u64, l: u16)
        requires fit { HasRoom self.old (length (unwrap_or (pairs_of (vertex_at v g.now) l) [])) }
        ensures added { Adds self.old self.new (length (unwrap_or (pairs_of (vertex_at v g.now) l) []))
            (pairs_sum (unwrap_or (pairs_of (vertex_at v g.now) l) [])) }
    {
        let Some(list) = g.pairs(v, l) else {
            return;
        };
        for edge in list.edges() {
            self.edges += 1;
            self.sum += u128::from(edge.d);
        }
    }
}
