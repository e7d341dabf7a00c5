// Questions to a graph with labels.
ghost use Rattle.std.specs.Prelude.{◌≡◌, ◌<◌, ◌≤◌, length, None};
ghost use Rattle.labels.specs.Labels.{Supports, label_at};
ghost use Rattle.labels.specs.Rules.{Rules};
ghost use Rattle.asking.specs.Search.{oracle_says};
ghost use Rattle.asking.specs.Questions.{Asked, Answered, AnsweredRight, OneAnswer};

use crate::answer::Answer;
use arrayvec::ArrayVec;
use graph::{Digraph, MOST_VERTICES, Successors};
use labels::{Decision, Label, Labelled, Same, Test, Verdict};
use search::{Refusal, check_question};

// A graph, the labels of its vertices and the test that reads them: it is asked whether one vertex reaches another.
#[derive(Drop)]
pub struct Oracle<'a, G: Digraph, T: Test> {
    pub graph: &'a G,
    // The label of each vertex; labels of zeros where the slice has none.
    pub labels: &'a [Label],
    pub test: &'a T,
}

impl<'a, G: Digraph, T: Test> Oracle<'a, G, T> {
    // Answers whether s reaches t, and writes the vertices that were opened for it. The rest of the slice, which is the
    // caller's, stays as it was. (s and t are two numbers of one kind, which a struct would only name again.)
    pub fn ask(&self, s: u16, t: u16, opened: &mut [u16]) -> Result<Answer, Refusal>
        ensures asked { Asked (G.Digraph.model self.now.graph.now) (oracle_says T.Test.judges self.now t) s t opened.old opened.new result }
        ensures right { (supports : Supports) → Rules (G.Digraph.model self.now.graph.now) (label_at self.now.labels.now) supports → AnsweredRight (G.Digraph.model self.now.graph.now) s t result }
    {
        let n = self.graph.vertex_count();
        check_question(n, s, t, opened.len())?;
        if let Some(decision) = self.tell(s, t) {
            return Ok(Answer::from(decision));
        }
        Ok(self.search(s, t, opened))
    }

    // Opens vertices from s on until the tests say yes of a successor and t, or none waits.
    fn search(&self, s: u16, t: u16, opened: &mut [u16]) -> Answer
        requires vertex { s < (G.Digraph.model self.now.graph.now).order }
        requires room { (G.Digraph.model self.now.graph.now).order ≤ length opened.old }
        requires untold { oracle_says T.Test.judges self.now t s ≡ None }
        ensures { Answered (G.Digraph.model self.now.graph.now) (oracle_says T.Test.judges self.now t) s opened.old opened.new result }
    {
        let mut waiting = ArrayVec::<u16, MOST_VERTICES>::new();
        let mut marks = [false; MOST_VERTICES];
        let mut count = 0;
        waiting.push(s);
        marks[s as usize] = true;
        'search: loop {
            let Some(u) = waiting.pop() else {
                break 'search Answer::searched(Verdict::No, count);
            };
            // counted beside the loop, since the slice is the caller's and the count is part of the answer
            opened[count as usize] = u;
            count += 1;
            for w in Successors::of(self.graph, u) {
                if let Some(decision) = self.tell(w, t) {
                    if decision.verdict == Verdict::Yes {
                        break 'search Answer::searched(Verdict::Yes, count);
                    }
                } else if !marks[w as usize] {
                    marks[w as usize] = true;
                    waiting.push(w);
                }
            }
        }
    }

    // What is said of v and t: by `Same`, and where that passes by the test. (No `OrElse`: that holds its second test, and an oracle only borrows its own.)
    fn tell(&self, v: u16, t: u16) -> Option<Decision>
        ensures { result ≡ oracle_says T.Test.judges self.now t v }
    {
        let from = self.labelled(v);
        let to = self.labelled(t);
        if let Some(decision) = Same.judge(from, to) {
            return Some(decision);
        }
        self.test.judge(from, to)
    }

    fn labelled(&self, v: u16) -> Labelled
        ensures { result ≡ record { vertex = v; label = label_at self.now.labels.now v } }
    {
        let label = self.labels.get(v as usize).copied();
        Labelled {
            vertex: v,
            label: label.unwrap_or(Label::ZERO),
        }
    }
}

// What `ask` promises leaves one answer and one content of the slice.
pub fn one_answer()
    ensures { OneAnswer }
{}
