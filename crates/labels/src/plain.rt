// The tests that compare two vertices, or one number of each label.
ghost use Rattle.labels.specs.Judges.{same, ends, components, levels};
ghost use Rattle.std.proofs.Common.{rules};
ghost use Rattle.labels.specs.Lawful.{ends_lawful, components_lawful, levels_lawful};

use crate::decision::{Decision, Verdict};
use crate::label::Labelled;
use crate::test::Test;

// Test 1: a vertex reaches itself.
#[derive(Clone, Copy)]
pub struct Same;

impl Test for Same {
    ghost judges = { λ _. same };

    ghost lawful = { Prim.search rules };

    ghost numbered = { Prim.search rules };

    fn judge(&self, s: Labelled, t: Labelled) -> Option<Decision> {
        if s.vertex == t.vertex {
            Some(Verdict::Yes.on(1))
        } else {
            None
        }
    }
}

// Test 2: no arc leads out of s, or none into t.
#[derive(Clone, Copy)]
pub struct Ends;

impl Test for Ends {
    ghost judges = { λ _. ends };

    ghost lawful = { λ x. ends_lawful };

    ghost numbered = { Prim.search rules };

    fn judge(&self, s: Labelled, t: Labelled) -> Option<Decision> {
        if s.label.down == 0 || t.label.up == 0 {
            Some(Verdict::No.on(2))
        } else {
            None
        }
    }
}

// Test 3: s and t are in different components.
#[derive(Clone, Copy)]
pub struct Components;

impl Test for Components {
    ghost judges = { λ _. components };

    ghost lawful = { λ x. components_lawful };

    ghost numbered = { Prim.search rules };

    fn judge(&self, s: Labelled, t: Labelled) -> Option<Decision> {
        if s.label.component != t.label.component {
            Some(Verdict::No.on(3))
        } else {
            None
        }
    }
}

// Test 4: on a path the up level rises and the down level falls.
#[derive(Clone, Copy)]
pub struct Levels;

impl Test for Levels {
    ghost judges = { λ _. levels };

    ghost lawful = { λ x. levels_lawful };

    ghost numbered = { Prim.search rules };

    fn judge(&self, s: Labelled, t: Labelled) -> Option<Decision> {
        if s.label.up >= t.label.up || s.label.down <= t.label.down {
            Some(Verdict::No.on(4))
        } else {
            None
        }
    }
}
