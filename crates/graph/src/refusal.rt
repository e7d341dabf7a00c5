// Why a graph refuses to grow.
ghost use Rattle.std.specs.Prelude.{◌≡◌, Some};
ghost use Rattle.graph.specs.Refusals.{refusal_number, refusal_text};

use std::error::Error;
use std::fmt;

#[derive(Clone, Copy, PartialEq, Eq, Debug)]
pub enum Refusal {
    // A vertex that is named is not below the number of vertices.
    NoVertex,
    // Both ends of the arc are the same vertex.
    SameVertex,
    // The arc is there already.
    ArcPresent,
    // The graph has as many vertices, or arcs, as it can have.
    LimitReached,
}

// The number that stands for the refusal in printed lines.
impl From<Refusal> for u16 {
    ghost from_gives = { λ e n. n ≡ refusal_number e };

    fn from(refusal: Refusal) -> u16 {
        match refusal {
            Refusal::NoVertex => 2,
            Refusal::SameVertex => 3,
            Refusal::ArcPresent => 4,
            Refusal::LimitReached => 5,
        }
    }
}

impl fmt::Display for Refusal {
    ghost output = { λ e. Some (refusal_text e) };

    fn fmt<W: fmt::Write>(&self, f: &mut fmt::Formatter<W>) -> fmt::Result {
        f.write_str(match self {
            Refusal::NoVertex => "there is no such vertex",
            Refusal::SameVertex => "both ends of the arc are one vertex",
            Refusal::ArcPresent => "the arc is there already",
            Refusal::LimitReached => "the graph is full",
        })
    }
}

impl Error for Refusal {}
