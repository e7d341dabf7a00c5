// The test that reads the rows.
ghost use Rattle.std.specs.Prelude.{◌≡◌};
ghost use Rattle.labels.specs.Judges.{along_row, forward, backward, in_turn, orders};
ghost use Rattle.labels.specs.Lawful.{orders_lawful};
ghost use Rattle.std.proofs.Common.{rules};

use crate::decision::{Decision, Verdict};
use crate::label::{Label, Labelled, Row};
use crate::test::Test;
use std::cmp::Reverse;

// What a row tells of the way between two positions, in an order in which each arc goes up: `sure` and `far` are those of its first end.
fn told<P: Ord + Copy>(from: P, to: P, sure: P, far: P) -> Option<Verdict>
    ensures { result ≡ along_row P.cmp from to sure far }
{
    if to < from {
        Some(Verdict::No)
    } else if to <= sure || to == far {
        Some(Verdict::Yes)
    } else if to > far {
        Some(Verdict::No)
    } else {
        None
    }
}

// What a forward row tells, where x is the row of the first vertex and y that of the second.
fn in_forward(x: Row, y: Row) -> Option<Verdict>
    ensures { result ≡ forward x y }
{
    told(x.position, y.position, x.sure, x.far)
}

// What a backward row tells: the same of the way back from y to x, with the positions turned.
fn in_backward(x: Row, y: Row) -> Option<Verdict>
    ensures { result ≡ backward x y }
{
    told(
        Reverse(y.position),
        Reverse(x.position),
        Reverse(y.sure),
        Reverse(y.far),
    )
}

// What the rows of two labels tell: a row is asked only where those before it tell nothing.
fn in_rows(x: Label, y: Label) -> Option<Verdict>
    ensures { result ≡ in_turn x y }
{
    if let Some(verdict) = in_forward(x.rows[0], y.rows[0]) {
        return Some(verdict);
    }
    if let Some(verdict) = in_forward(x.rows[1], y.rows[1]) {
        return Some(verdict);
    }
    if let Some(verdict) = in_backward(x.rows[2], y.rows[2]) {
        return Some(verdict);
    }
    in_backward(x.rows[3], y.rows[3])
}

// Test 5: the rows, from the first to the last.
#[derive(Clone, Copy)]
pub struct Orders;

impl Test for Orders {
    ghost judges = { λ _. orders };

    ghost lawful = { λ x. orders_lawful };

    ghost numbered = { Prim.search rules };

    fn judge(&self, s: Labelled, t: Labelled) -> Option<Decision> {
        in_rows(s.label, t.label).map(|verdict| verdict.on(5))
    }
}
