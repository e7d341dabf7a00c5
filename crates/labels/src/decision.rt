// What a test answers when it does not pass.
ghost use Rattle.std.specs.Prelude.{◌≡◌};

// Whether one vertex reaches another.
#[derive(Clone, Copy, PartialEq, Eq, Debug)]
pub enum Verdict {
    // The first vertex reaches the second.
    Yes,
    // It does not.
    No,
}

// A verdict, and the number of the single test that gave it: a number and no enum, since each caller's test brings its own.
#[derive(Clone, Copy, PartialEq, Eq, Debug)]
pub struct Decision {
    pub verdict: Verdict,
    pub ground: u16,
}

impl Verdict {
    // This verdict, given by the test of that number.
    pub fn on(self, ground: u16) -> Decision
        ensures { result ≡ record { verdict = self; ground = ground } }
    {
        Decision {
            verdict: self,
            ground,
        }
    }
}
