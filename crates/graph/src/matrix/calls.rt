// The calls of a square of bits.
ghost use Rattle.std.specs.Prelude.{◌≡◌, ℕ, Bool, ◌+◌, ◌<◌, ◌≤◌, Err, ◌≢◌};
ghost use Rattle.std.proofs.Common.{lit≤};
ghost use Rattle.graph.specs.Model.{Empty};
ghost use Rattle.graph.specs.Square.{flagged, LowestPassing};
ghost use Rattle.graph.specs.Growth.{ArcAdded};
ghost use Rattle.graph.specs.MatrixModel.{matrix_model, matrix_arc_limit, LimitOnlyWhenComplete};
ghost use Rattle.graph.specs.Facts.{matrix_proper, matrix_bounded};
ghost use Rattle.graph.specs.declared.refusal.Refusal.TheVariants.{LimitReached};

use super::BitMatrix;
use crate::{Digraph, GrowableDigraph, Refusal};

// Bit v of the row.
fn has_bit(row: u64, v: u16) -> bool
    requires { v < 64 }
    ensures { result ≡ flagged row v }
{
    (row >> v) & 1 == 1
}

// The lowest v, from `from` up to just below `end`, that passes the test. (`find` was tried in its callers: for a row it did not close.)
fn lowest<F: Fn(u16) -> bool>(from: u16, end: u16, test: F) -> Option<u16>
    ghost passes: { ℕ → Bool }
    requires may { (v : ℕ) → v < end → F.pre test v }
    requires tells { (v : ℕ) (b : Bool) → v < end → F.post test v b → b ≡ passes v }
    ensures { LowestPassing passes from end result }
{
    for v in from..end {
        if test(v) {
            return Some(v);
        }
    }
    None
}

impl BitMatrix {
    // A graph with no vertex.
    pub fn new() -> BitMatrix
        ensures { Empty (matrix_model result) }
    {
        BitMatrix {
            count: 0,
            rows: [0; 64],
        }
    }
}

impl Digraph for BitMatrix {
    const LIMIT: u16 = 64;

    ghost most = { 64 };

    ghost model = { matrix_model };

    ghost modest = { lit≤ tt };

    ghost bounded = { matrix_bounded };

    ghost proper = { matrix_proper };

    fn vertex_limit() -> u16 {
        Self::LIMIT
    }

    fn vertex_count(&self) -> u16 {
        self.count
    }

    fn next_successor(&self, u: u16, from: u16) -> Option<u16> {
        if u >= self.count {
            return None;
        }
        lowest(from, self.count, |v| has_bit(self.rows[u as usize], v))
    }

    fn next_predecessor(&self, v: u16, from: u16) -> Option<u16> {
        if v >= self.count {
            return None;
        }
        lowest(from, self.count, |u| has_bit(self.rows[u as usize], v))
    }
}

impl GrowableDigraph for BitMatrix {
    ghost arc_limit = { matrix_arc_limit };

    fn add_vertex(&mut self) -> Result<u16, Refusal> {
        let n = self.count;
        if n >= Self::LIMIT {
            return Err(Refusal::LimitReached);
        }
        self.count = n + 1;
        Ok(n)
    }

    // 64 vertices have 4032 pairs, so an arc that is absent always has room: the arc limit is never a reason to refuse.
    fn add_arc(&mut self, u: u16, v: u16) -> Result<(), Refusal>
        ensures grows { ArcAdded (matrix_arc_limit self.old) (matrix_model self.old) (matrix_model self.new) u v result }
        ensures limit { matrix_arc_limit self.new ≡ matrix_arc_limit self.old }
        ensures roomy { result ≢ Err LimitReached }
    {
        if u >= self.count || v >= self.count {
            return Err(Refusal::NoVertex);
        }
        if u == v {
            return Err(Refusal::SameVertex);
        }
        let row = self.rows[u as usize];
        if has_bit(row, v) {
            return Err(Refusal::ArcPresent);
        }
        self.rows[u as usize] = row | (1 << v);
        Ok(())
    }
}

// A matrix meets its arc limit only where every pair of different vertices is an arc.
pub fn limit_only_when_complete()
    ensures { LimitOnlyWhenComplete }
{}
