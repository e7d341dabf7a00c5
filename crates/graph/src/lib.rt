// Directed graphs: what one is, how any of them is read and grown, and the graph types that the library has.
#![tactic(auto)]

ghost use Rattle.std.specs.Prelude.{◌≡◌, ℕ, ◌≤◌};
ghost use Rattle.graph.specs.Model.{Model, Proper, NextSuccessor, reversed as mirrored};
ghost use Rattle.graph.specs.Growth.{VertexAdded, ArcAdded};
ghost use Rattle.graph.specs.declared.TheConstants.{MOST_VERTICES};

mod growing;
mod list;
mod matrix;
mod refusal;
mod reversed;
mod successors;

pub use growing::add_vertices;
pub use list::{Arc, ArcList};
pub use matrix::BitMatrix;
pub use matrix::calls::limit_only_when_complete;
pub use refusal::Refusal;
pub use reversed::{Reversed, next_successor_reversed_twice};
pub use successors::Successors;

// The most vertices that a graph of any type can have.
pub const MOST_VERTICES: usize = 512;

// A directed graph that can be read.
pub trait Digraph {
    // The most vertices that a graph of this type can have. Clauses say it as `most`, and code by `vertex_limit`: no clause yet says
    // the value of a constant in an impl with a lifetime.
    const LIMIT: u16;

    ghost most: { ℕ };

    // The graph that a value stands for.
    ghost model: { Self → Model };

    // LIMIT.
    fn vertex_limit() -> u16
        ensures { result ≡ most };

    // The number of vertices.
    fn vertex_count(&self) -> u16
        ensures { result ≡ (model self.now).order };

    // The lowest v, not below `from`, with an arc u→v; none too where u is no vertex.
    fn next_successor(&self, u: u16, from: u16) -> Option<u16>
        ensures { NextSuccessor (model self.now) u from result };

    // The lowest u, not below `from`, with an arc u→v; none too where v is no vertex.
    fn next_predecessor(&self, v: u16, from: u16) -> Option<u16>
        ensures { NextSuccessor (mirrored (model self.now)) v from result };

    // The laws of every graph type.
    ghost modest: { most ≤ MOST_VERTICES };

    ghost bounded: { (x : Self) → (model x).order ≤ most };

    ghost proper: { (x : Self) → Proper (model x) };
}

// A directed graph that can be read and grown. That the arc limit stays is a clause of each call: it is a fact of two values, before and after.
pub trait GrowableDigraph: Digraph {
    // The most arcs that the graph can have: fixed when it is made.
    ghost arc_limit: { Self → ℕ };

    // Adds a vertex, which has no arcs, and answers it. Refuses at the vertex limit.
    fn add_vertex(&mut self) -> Result<u16, Refusal>
        ensures grows { VertexAdded Self.Digraph.most (Self.Digraph.model self.old) (Self.Digraph.model self.new) result }
        ensures limit { arc_limit self.new ≡ arc_limit self.old };

    // Adds the arc u→v. Refuses where u or v is no vertex, where both are one vertex, where the arc is there already and at the arc limit.
    fn add_arc(&mut self, u: u16, v: u16) -> Result<(), Refusal>
        ensures grows { ArcAdded (arc_limit self.old) (Self.Digraph.model self.old) (Self.Digraph.model self.new) u v result }
        ensures limit { arc_limit self.new ≡ arc_limit self.old };
}
