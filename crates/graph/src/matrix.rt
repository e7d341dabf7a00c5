// A graph of at most 64 vertices as a square of bits.
ghost use Rattle.std.specs.Prelude.{◌≤◌};
ghost use Rattle.graph.specs.Square.{Tails, Heads, Apart};

// Bit v of row u says whether u→v is an arc.
#[derive(Drop)]
pub struct BitMatrix {
    // The number of vertices.
    count: u16,
    rows: [u64; 64],
    ghost small: { count ≤ 64 },
    ghost tails: { Tails count rows },
    ghost heads: { Heads count rows },
    ghost apart: { Apart rows },
}

pub mod calls;
