// The six tests as one.
ghost use Rattle.std.specs.Prelude.{◌≡◌};
ghost use Rattle.labels.specs.Judges.{six};
ghost use Rattle.labels.specs.Laws.{NumberedIfAny, RightOnRules};

use crate::decision::Decision;
use crate::label::Labelled;
use crate::orders::Orders;
use crate::plain::{Components, Ends, Levels, Same};
use crate::supports::Supports;
use crate::test::{OrElse, decide};

// The six tests in their order: the first that decides ends the question.
// Pairs within pairs, so that the laws of `OrElse` are the laws of the whole.
pub type SixTests = OrElse<
    Same,
    OrElse<Ends, OrElse<Components, OrElse<Levels, OrElse<Orders, Supports>>>>,
>;

pub const SIX_TESTS: SixTests = OrElse {
    first: Same,
    second: OrElse {
        first: Ends,
        second: OrElse {
            first: Components,
            second: OrElse {
                first: Levels,
                second: OrElse {
                    first: Orders,
                    second: Supports,
                },
            },
        },
    },
};

// What the six tests say of s and t, with what the laws promise of that.
pub fn judge_by_six(s: Labelled, t: Labelled) -> Option<Decision>
    ensures said { result ≡ six s.vertex t.vertex s.label t.label }
    ensures right { RightOnRules s.vertex t.vertex s.label t.label result }
    ensures number { NumberedIfAny result }
{
    decide(&SIX_TESTS, s, t)
}
