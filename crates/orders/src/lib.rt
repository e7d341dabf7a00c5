// Orders of the vertices of a graph, for building labels: so far what an order is, in specs, and the refusal of a graph with a cycle.
#![tactic(auto)]

ghost use Rattle.std.specs.Prelude.{◌≡◌, Some};
ghost use Rattle.orders.specs.Refusals.{refusal_number, refusal_text};

use std::error::Error;
use std::fmt;

// The arcs hold a cycle.
#[derive(Clone, Copy, PartialEq, Eq, Debug)]
pub struct Cyclic;

// The number that stands for the refusal in printed lines.
impl From<Cyclic> for u16 {
    ghost from_gives = { λ c n. n ≡ refusal_number c };

    fn from(_c: Cyclic) -> u16 {
        6
    }
}

impl fmt::Display for Cyclic {
    ghost output = { λ c. Some (refusal_text c) };

    fn fmt<W: fmt::Write>(&self, f: &mut fmt::Formatter<W>) -> fmt::Result {
        f.write_str("the arcs hold a cycle")
    }
}

impl Error for Cyclic {}
