// The successors of a vertex in turn.
ghost use Rattle.std.specs.Prelude.{◌≡◌, ◌-◌};
ghost use Rattle.std.specs.Iterator.{at_most};
ghost use Rattle.graph.specs.Turns.{NextInTurn};

use crate::Digraph;

// The successors of a vertex that are not below `from`, ascending.
#[derive(Drop)]
pub struct Successors<'a, G: Digraph> {
    graph: &'a G,
    vertex: u16,
    from: u16,
}

impl<'a, G: Digraph> Successors<'a, G> {
    // All successors of u; none where u is no vertex.
    pub fn of(graph: &'a G, u: u16) -> Successors<'a, G>
        ensures graph { result.graph.now ≡ graph.now }
        ensures vertex { result.vertex ≡ u }
        ensures from { result.from ≡ 0 }
    {
        Successors {
            graph,
            vertex: u,
            from: 0,
        }
    }
}

impl<'a, G: Digraph> Iterator for Successors<'a, G> {
    type Item = u16;

    ghost next_gives = { λ s r t. (t.graph ≡ s.graph) × (t.vertex ≡ s.vertex) × NextInTurn (G.Digraph.model s.graph.now) s.vertex s.from r t.from };

    ghost remaining = { λ s. at_most (512 - s.from) };

    fn next(&mut self) -> Option<u16> {
        let v = self.graph.next_successor(self.vertex, self.from)?;
        self.from = v + 1;
        Some(v)
    }
}
