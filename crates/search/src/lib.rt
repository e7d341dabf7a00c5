// Questions that are answered by walking a graph.
#![tactic(auto)]

ghost use Rattle.std.specs.Prelude.{◌≡◌, ◌<◌, ◌≤◌, ◌++◌, length, drop, Some, None, OnOk, IfErr};
ghost use Rattle.search.specs.Refusals.{refusal_number, refusal_text, refusal_of_two};
ghost use Rattle.search.specs.Under.{Marked, UnderAnswer, OneUnderAnswer};

use arrayvec::ArrayVec;
use graph::{Digraph, MOST_VERTICES, Successors};
use std::error::Error;
use std::fmt;

#[cfg(test)]
mod tests;
mod tracing;

pub use tracing::{
    no_cycle_where_rising, one_trace, one_trace_answer, short_trace, trace, trace_where_path,
};

// Why a question is refused. An enum beside that of `graph`: a question has no arc, and a graph has no slice.
#[derive(Clone, Copy, PartialEq, Eq, Debug)]
pub enum Refusal {
    // A vertex that is named is not below the number of vertices.
    NoVertex,
    // The caller's slice is shorter than the number of vertices.
    ShortSlice,
}

// The number that stands for the refusal in printed lines.
impl From<Refusal> for u16 {
    ghost from_gives = { λ e n. n ≡ refusal_number e };

    fn from(refusal: Refusal) -> u16 {
        match refusal {
            Refusal::NoVertex => 2,
            Refusal::ShortSlice => 8,
        }
    }
}

impl fmt::Display for Refusal {
    ghost output = { λ e. Some (refusal_text e) };

    fn fmt<W: fmt::Write>(&self, f: &mut fmt::Formatter<W>) -> fmt::Result {
        f.write_str(match self {
            Refusal::NoVertex => "there is no such vertex",
            Refusal::ShortSlice => "the slice is shorter than the number of vertices",
        })
    }
}

impl Error for Refusal {}

// Refuses a question about the vertices s and t of a graph of n vertices, with a slice of so many places. (s and t are two numbers of one kind,
// which a struct would only name again.)
pub fn check_question(n: u16, s: u16, t: u16, places: usize) -> Result<(), Refusal>
    ensures answered { OnOk result (refusal_of_two n s t places ≡ None) }
    ensures refused { IfErr result (λ e. refusal_of_two n s t places ≡ Some e) }
    ensures vertices { OnOk result ((s < n) × (t < n)) }
    ensures room { OnOk result (n ≤ places) }
{
    if s >= n || t >= n {
        return Err(Refusal::NoVertex);
    }
    if places < n as usize {
        return Err(Refusal::ShortSlice);
    }
    Ok(())
}

// Copies the list to the start of the slice, and answers how long it is.
fn write_out(list: &[u16], out: &mut [u16]) -> u16
    requires room { length list.now ≤ length out.old }
    requires few { length list.now ≤ 512 }
    ensures count { result ≡ length list.now }
    ensures written { out.new ≡ list.now ++ drop (length list.now) out.old }
{
    out[..list.len()].copy_from_slice(list);
    list.len() as u16
}

// Marks the vertices that s reaches.
fn reached<G: Digraph>(graph: &G, s: u16) -> [bool; MOST_VERTICES]
    ensures { Marked (G.Digraph.model graph.now) s result }
{
    let mut marks = [false; MOST_VERTICES];
    if s < graph.vertex_count() {
        let mut waiting = ArrayVec::<u16, MOST_VERTICES>::new();
        marks[s as usize] = true;
        waiting.push(s);
        'search: while let Some(u) = waiting.pop() {
            for w in Successors::of(graph, u) {
                if !marks[w as usize] {
                    marks[w as usize] = true;
                    waiting.push(w);
                }
            }
        }
    }
    marks
}

// Writes the vertices that s reaches, itself too, ascending, and answers how many they are. The rest of the slice, which is the caller's,
// stays as it was.
pub fn under<G: Digraph>(graph: &G, s: u16, out: &mut [u16]) -> Result<u16, Refusal>
    ensures { UnderAnswer (G.Digraph.model graph.now) s out.old out.new result }
{
    let n = graph.vertex_count();
    check_question(n, s, s, out.len())?;
    let marks = reached(graph, s);
    // Each is written where it belongs. (To gather them in a vector was tried: a short answer took twice the time.)
    let mut count: u16 = 0;
    for v in 0..n {
        if marks[v as usize] {
            out[count as usize] = v;
            count += 1;
        }
    }
    Ok(count)
}

// What `under` promises leaves one answer and one content of the slice.
pub fn one_under_answer()
    ensures { OneUnderAnswer }
{}
