// A line that is being made. It has room for every line that is printed of 512 vertices; of a longer text the end would be left out.
ghost use Rattle.std.specs.Prelude.{◌≡◌, ◌≤◌, List, ℕ, [], ◌∷◌, length};
ghost use Rattle.arrayvec.specs.ArrayVec.{array_vec_len};
ghost use Rattle.answers.specs.Texts.{commas, Gains};

use arrayvec::ArrayVec;
use itoa::{Buffer, Integer};
use std::io::Write;
use std::marker::Model;

#[derive(Drop)]
pub struct LineBuffer {
    bytes: ArrayVec<u8, { LineBuffer::ROOM }>,
}

// A clause sees the bytes that the line has so far.
impl Model for LineBuffer {
    ghost Value = { List ℕ };

    ghost view = { λ b. b.bytes.items };

    ghost invariant = { λ b. array_vec_len b.bytes ≤ 2560 };
}

impl LineBuffer {
    // How many bytes a line has room for.
    pub const ROOM: usize = 2560;

    // An empty line.
    pub fn new() -> LineBuffer
        ensures { result ≡ [] }
    {
        LineBuffer {
            bytes: ArrayVec::new(),
        }
    }

    // The bytes so far.
    pub fn as_slice(&self) -> &[u8]
        ensures bytes { result.now ≡ self.now }
        ensures room { length result.now ≤ 2560 }
    {
        self.bytes.as_slice()
    }

    // A byte more, where there is room.
    pub fn byte(&mut self, b: u8)
        ensures { Gains self.old (b ∷ []) self.new }
    {
        self.text(&[b]);
    }

    // A text more, as far as there is room.
    pub fn text(&mut self, s: &[u8])
        ensures { Gains self.old s.now self.new }
    {
        // Writes as many bytes as fit, and never fails.
        let _ = self.bytes.write(s);
    }

    // A number more, in decimal.
    pub fn number<I: Integer>(&mut self, n: I)
        ensures { Gains self.old (I.text n) self.new }
    {
        let mut digits = Buffer::new();
        self.text(digits.format(n).as_bytes());
    }

    // Numbers more, in decimal, with commas between them.
    pub fn list(&mut self, xs: &[u16])
        ensures { Gains self.old (commas xs.now) self.new }
    {
        // Shows that the line is within its room, which is all that an empty list asks.
        let _ = &self.bytes;
        let Some((first, rest)) = xs.split_first() else {
            return;
        };
        self.number(*first);
        for x in rest {
            self.byte(b',');
            self.number(*x);
        }
    }
}
