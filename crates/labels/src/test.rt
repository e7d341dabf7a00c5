// Tests that say yes, no or nothing of whether one vertex reaches another, from the two vertices and their labels alone.
ghost use Rattle.std.specs.Prelude.{◌≡◌};
ghost use Rattle.labels.specs.Judges.{Judge, or_else};
ghost use Rattle.labels.specs.Laws.{Lawful, Numbered, NumberedIfAny, RightOnRules};
ghost use Rattle.labels.specs.Lawful.{or_else_lawful};
ghost use Rattle.std.proofs.Common.{rules};

use crate::decision::Decision;
use crate::label::Labelled;

pub trait Test {
    // What the test says of two vertices with their labels.
    ghost judges: { Self → Judge };

    // Whether s reaches t, as far as their labels tell; None is a pass.
    fn judge(&self, s: Labelled, t: Labelled) -> Option<Decision>
        ensures { result ≡ judges self.now s.vertex t.vertex s.label t.label };

    // On labels that meet the rules, a yes or no on two different vertices is right.
    ghost lawful: { (x : Self) → Lawful (judges x) };

    // On any labels, a yes or no carries a number above 0.
    ghost numbered: { (x : Self) → Numbered (judges x) };
}

// Two tests, of which the second is asked when the first passes; the decision keeps the number of the one that gave it.
#[derive(Clone, Copy)]
pub struct OrElse<A, B> {
    pub first: A,
    pub second: B,
}

impl<A: Test, B: Test> Test for OrElse<A, B> {
    ghost judges = { λ x. or_else (A.Test.judges x.first) (B.Test.judges x.second) };

    ghost lawful = { λ x. or_else_lawful (A.Test.judges x.first) (B.Test.judges x.second) (A.Test.lawful x.first) (B.Test.lawful x.second) };

    ghost numbered = { Prim.search rules };

    // An if-let on the first verdict, so that the second test is not asked where the first decides.
    fn judge(&self, s: Labelled, t: Labelled) -> Option<Decision> {
        if let Some(decision) = self.first.judge(s, t) {
            return Some(decision);
        }
        self.second.judge(s, t)
    }
}

// What any test says, with what its laws promise of that.
pub fn decide<T: Test>(test: &T, s: Labelled, t: Labelled) -> Option<Decision>
    ensures said { result ≡ T.judges test.now s.vertex t.vertex s.label t.label }
    ensures right { RightOnRules s.vertex t.vertex s.label t.label result }
    ensures number { NumberedIfAny result }
{
    test.judge(s, t)
}
