// What is done to any graph that grows.
ghost use Rattle.std.specs.Prelude.{◌≡◌};
ghost use Rattle.graph.specs.Growth.{VerticesAdded};

use crate::{GrowableDigraph, Refusal};

// Adds `count` vertices, or none where that would pass the vertex limit.
pub fn add_vertices<G: GrowableDigraph>(graph: &mut G, count: u16) -> Result<(), Refusal>
    ensures grows { VerticesAdded G.Digraph.most count (G.Digraph.model graph.old) (G.Digraph.model graph.new) result }
    ensures limit { G.GrowableDigraph.arc_limit graph.new ≡ G.GrowableDigraph.arc_limit graph.old }
{
    let free = G::vertex_limit() - graph.vertex_count();
    if count > free {
        return Err(Refusal::LimitReached);
    }
    for _ in 0..count {
        graph.add_vertex()?;
    }
    Ok(())
}
