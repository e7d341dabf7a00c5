// A graph read against its arcs.
ghost use Rattle.std.specs.Prelude.{◌≡◌};
ghost use Rattle.graph.specs.Model.{NextSuccessor, reversed as mirrored};
ghost use Rattle.graph.specs.Facts.{reversed_proper};

use crate::Digraph;

// The graph below, with each arc read the other way.
#[derive(Drop)]
pub struct Reversed<'a, G: Digraph> {
    graph: &'a G,
}

impl<'a, G: Digraph> Reversed<'a, G> {
    pub fn new(graph: &'a G) -> Reversed<'a, G>
        ensures { result.graph.now ≡ graph.now }
    {
        Reversed { graph }
    }
}

impl<'a, G: Digraph> Digraph for Reversed<'a, G> {
    const LIMIT: u16 = G::LIMIT;

    ghost most = { G.Digraph.most };

    ghost model = { λ x. mirrored (G.Digraph.model x.graph.now) };

    ghost modest = { G.Digraph.modest };

    ghost bounded = { λ x. G.Digraph.bounded x.graph.now };

    ghost proper = { λ x. reversed_proper (G.Digraph.model x.graph.now) (G.Digraph.proper x.graph.now) };

    fn vertex_limit() -> u16
        ensures { result ≡ G.Digraph.most }
    {
        G::vertex_limit()
    }

    fn vertex_count(&self) -> u16 {
        self.graph.vertex_count()
    }

    fn next_successor(&self, u: u16, from: u16) -> Option<u16> {
        self.graph.next_predecessor(u, from)
    }

    fn next_predecessor(&self, v: u16, from: u16) -> Option<u16> {
        self.graph.next_successor(v, from)
    }
}

// The next successor in the reversal of the reversal: that of the graph itself.
pub fn next_successor_reversed_twice<G: Digraph>(graph: &G, u: u16, from: u16) -> Option<u16>
    ensures same { mirrored (mirrored (G.Digraph.model graph.now)) ≡ G.Digraph.model graph.now }
    ensures next { NextSuccessor (G.Digraph.model graph.now) u from result }
{
    let once = Reversed::new(graph);
    let twice = Reversed::new(&once);
    twice.next_successor(u, from)
}
