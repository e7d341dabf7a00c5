// The line machine: what each line does in its place, and what answers it.
ghost use Rattle.std.specs.Prelude.{◌≡◌, ◌+◌, ◌<◌, ◌≤◌, MatchResult};
ghost use Rattle.collection.specs.Moves.{Moves, Answers, Unanswered, AskText, TraceText, UnderText, NotVertices, start};

use crate::faults::Fault;
use answers::buffer::LineBuffer;
use answers::printed;
use asking::Oracle;
use graph::{Digraph, GrowableDigraph, MOST_VERTICES, add_vertices};
use labels::Same;
use lines::Line;
use search::{trace, under};

// Where the reader stands.
#[derive(Clone, Copy, Debug, PartialEq, Eq)]
pub enum Place {
    BeforeLibrary,
    BeforePapers,
    AmongArcs,
    AmongQuestions,
}

#[derive(Clone, Copy)]
pub struct Machine {
    pub place: Place,
    // The library's number.
    pub library: u16,
    // The number of arc lines so far.
    pub arcs: u16,
}

impl Machine {
    pub fn new() -> Machine
        ensures { result ≡ start }
    {
        Machine {
            place: Place::BeforeLibrary,
            library: 0,
            arcs: 0,
        }
    }

    // Does what the line says, if it stands in its place: one match on the place and the kind of line, in which what is out of place stands last.
    pub fn step<G: GrowableDigraph>(&mut self, graph: &mut G, line: Line) -> Result<(), Fault>
        requires { self.old.arcs < 65535 }
        ensures moves { Moves G.Digraph.most (G.GrowableDigraph.arc_limit graph.old) self.old (G.Digraph.model graph.old) line result self.new (G.Digraph.model graph.new) }
        ensures limit { G.GrowableDigraph.arc_limit graph.new ≡ G.GrowableDigraph.arc_limit graph.old }
        ensures few { self.new.arcs ≤ self.old.arcs + 1 }
    {
        match (self.place, line) {
            (Place::BeforeLibrary, Line::Library(number)) => {
                self.library = number;
                self.place = Place::BeforePapers;
            }
            (Place::BeforePapers, Line::Papers(count)) => {
                add_vertices(graph, count)?;
                self.place = Place::AmongArcs;
            }
            (Place::AmongArcs, Line::Arc(u, v)) => {
                graph.add_arc(u, v)?;
                self.arcs += 1;
            }
            (Place::AmongArcs, Line::End(count)) => {
                if count != self.arcs {
                    return Err(Fault::Order);
                }
                self.place = Place::AmongQuestions;
            }
            (Place::AmongQuestions, Line::Ask(_, _) | Line::Trace(_, _) | Line::Under(_)) => {}
            _ => return Err(Fault::Order),
        }
        Ok(())
    }

    // The line that answers the line just taken; empty where none does, which is appended as nothing and needs no case of its own.
    pub fn answer<G: Digraph>(&self, graph: &G, line: Line) -> Result<LineBuffer, Fault>
        ensures { MatchResult result (λ b. Answers self.now (G.Digraph.model graph.now) line b) (λ f. Unanswered (G.Digraph.model graph.now) line f) }
    {
        match line {
            Line::End(_) => Ok(printed::header(self.library, graph.vertex_count(), self.arcs)),
            Line::Ask(s, t) => ask_line(graph, s, t),
            Line::Trace(s, t) => trace_line(graph, s, t),
            Line::Under(s) => under_line(graph, s),
            _ => Ok(LineBuffer::new()),
        }
    }
}

// The three questions write into a slice that is lent to them, here of as many numbers as a graph can have vertices.

// The line that says whether s reaches t, by a search with no test but the equality.
fn ask_line<G: Digraph>(graph: &G, s: u16, t: u16) -> Result<LineBuffer, Fault>
    ensures { MatchResult result (λ b. AskText (G.Digraph.model graph.now) s t b) (λ f. NotVertices (G.Digraph.model graph.now) s t f) }
{
    let mut opened = [0u16; MOST_VERTICES];
    let oracle = Oracle {
        graph,
        labels: &[],
        test: &Same,
    };
    let answer = oracle.ask(s, t, &mut opened)?;
    Ok(printed::ask(s, t, answer.verdict, answer.ground, answer.opened))
}

// The line with the path from s to t.
fn trace_line<G: Digraph>(graph: &G, s: u16, t: u16) -> Result<LineBuffer, Fault>
    ensures { MatchResult result (λ b. TraceText (G.Digraph.model graph.now) s t b) (λ f. NotVertices (G.Digraph.model graph.now) s t f) }
{
    let mut path = [0u16; MOST_VERTICES];
    let count = trace(graph, s, t, &mut path)? as usize;
    Ok(printed::trace(s, t, &path[0..count]))
}

// The line with the vertices that s reaches.
fn under_line<G: Digraph>(graph: &G, s: u16) -> Result<LineBuffer, Fault>
    ensures { MatchResult result (λ b. UnderText (G.Digraph.model graph.now) s b) (λ f. NotVertices (G.Digraph.model graph.now) s s f) }
{
    let mut list = [0u16; MOST_VERTICES];
    let count = under(graph, s, &mut list)? as usize;
    Ok(printed::under(s, &list[0..count]))
}
