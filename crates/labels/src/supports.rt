// The test that reads the bits of the supports.
ghost use Rattle.std.specs.Prelude.{◌≡◌};
ghost use Rattle.labels.specs.Judges.{supports, meets, exceeds};
ghost use Rattle.labels.specs.Lawful.{supports_lawful};
ghost use Rattle.std.proofs.Common.{rules};

use crate::decision::{Decision, Verdict};
use crate::label::Labelled;
use crate::test::Test;

// Some bit is set in both.
fn bits_meet(m: u16, n: u16) -> bool
    ensures { result ≡ meets m n }
{
    m & n != 0
}

// Some bit is set in m and not in n.
fn bits_exceed(m: u16, n: u16) -> bool
    ensures { result ≡ exceeds m n }
{
    m & n != m
}

// Test 6: a support between s and t; or one that reaches s and not t, or that t reaches and s does not.
#[derive(Clone, Copy)]
pub struct Supports;

impl Test for Supports {
    ghost judges = { λ _. supports };

    ghost lawful = { λ x. supports_lawful };

    ghost numbered = { Prim.search rules };

    fn judge(&self, s: Labelled, t: Labelled) -> Option<Decision> {
        if bits_meet(s.label.to, t.label.from) {
            Some(Verdict::Yes.on(6))
        } else if bits_exceed(s.label.from, t.label.from) || bits_exceed(t.label.to, s.label.to) {
            Some(Verdict::No.on(6))
        } else {
            None
        }
    }
}
