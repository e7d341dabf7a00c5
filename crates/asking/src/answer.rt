// What is answered to a question.
ghost use Rattle.std.specs.Prelude.{◌≡◌};
ghost use Rattle.asking.specs.Questions.{answer_of};

use labels::{Decision, Verdict};

#[derive(Clone, Copy, PartialEq, Eq, Debug)]
pub struct Answer {
    // Whether s reaches t.
    pub verdict: Verdict,
    // The number of the test that decided, or 0 where the search did. Tests' numbers are above 0, and 0 is what is printed of a search: an
    // `Option` would be turned into it wherever it is read.
    pub ground: u16,
    // How many vertices were opened.
    pub opened: u16,
}

// What a test decided, with nothing opened.
impl From<Decision> for Answer {
    ghost from_gives = { λ d a. a ≡ answer_of d.verdict d.ground 0 };

    fn from(decision: Decision) -> Answer {
        Answer {
            verdict: decision.verdict,
            ground: decision.ground,
            opened: 0,
        }
    }
}

impl Answer {
    // What a search found, with so many vertices opened.
    pub(crate) fn searched(verdict: Verdict, opened: u16) -> Answer
        ensures { result ≡ answer_of verdict 0 opened }
    {
        Answer {
            verdict,
            ground: 0,
            opened,
        }
    }
}
