// The path from one vertex to another that goes, from each vertex, to the lowest successor that reaches the end.
ghost use Rattle.graph.specs.Model.{reversed};
ghost use Rattle.graph.specs.Paths.{Cycle};
ghost use Rattle.search.specs.Under.{Marked};
ghost use Rattle.search.specs.Trace.{LowestMarked, TraceAnswer, ZeroUnlessReaches, OneTrace, OneTraceAnswer, ShortTrace, TraceWherePath, NoCycleWhereRising};

use crate::{Refusal, check_question, reached, write_out};
use arrayvec::ArrayVec;
use graph::{Digraph, MOST_VERTICES, Reversed, Successors};

// Marks the vertices that reach t.
fn reaching<G: Digraph>(graph: &G, t: u16) -> [bool; MOST_VERTICES]
    ensures { Marked (reversed (G.Digraph.model graph.now)) t result }
{
    reached(&Reversed::new(graph), t)
}

// The lowest successor of u that is marked.
fn lowest_marked<G: Digraph>(graph: &G, u: u16, marks: &[bool; MOST_VERTICES]) -> Option<u16>
    ensures { LowestMarked (G.Digraph.model graph.now) marks.now u result }
{
    for w in Successors::of(graph, u) {
        if marks[w as usize] {
            return Some(w);
        }
    }
    None
}

// Writes the path from s to t on which each next vertex is the lowest successor that reaches t, and answers how many vertices it has. Where
// there is none the answer is 0, the number of vertices written: where s does not reach t, and where such steps from s go round a cycle and
// never come to t. The rest of the slice, which is the caller's, stays as it was.
pub fn trace<G: Digraph>(graph: &G, s: u16, t: u16, out: &mut [u16]) -> Result<u16, Refusal>
    ensures answer { TraceAnswer (G.Digraph.model graph.now) s t out.old out.new result }
    ensures unreached { (Cycle (G.Digraph.model graph.now) → ⊥) → ZeroUnlessReaches (G.Digraph.model graph.now) s t result }
{
    let n = graph.vertex_count();
    check_question(n, s, t, out.len())?;
    let marks = reaching(graph, t);
    let mut path = ArrayVec::<u16, MOST_VERTICES>::new();
    let mut u = s;
    'walk: while u != t {
        // no path without a repeated vertex is this long, so the steps go round a cycle
        if path.len() + 1 >= n as usize {
            return Ok(0);
        }
        let Some(v) = lowest_marked(graph, u, &marks) else {
            return Ok(0);
        };
        path.push(u);
        u = v;
    }
    path.push(t);
    Ok(write_out(path.as_slice(), out))
}

// From s to t there is one trace at most.
pub fn one_trace()
    ensures { OneTrace }
{}

// What `trace` promises leaves one answer and one content of the slice.
pub fn one_trace_answer()
    ensures { OneTraceAnswer }
{}

// A trace has at most as many vertices as the graph.
pub fn short_trace()
    ensures { ShortTrace }
{}

// Without a cycle there is a trace exactly where there is a path.
pub fn trace_where_path()
    ensures { TraceWherePath }
{}

// Where positions rise along every arc there is no cycle.
pub fn no_cycle_where_rising()
    ensures { NoCycleWhereRising }
{}
