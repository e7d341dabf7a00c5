// The output that the caller lends, and how much of it is written.
ghost use Rattle.std.specs.Prelude.{◌≡◌, ◌≤◌, length, codes, Some};

use std::error::Error;
use std::fmt;

// The output has no room for the text. A type of this crate's own, which does not stand on `heap`, though that has one like it.
#[derive(Clone, Copy, Debug, PartialEq, Eq)]
pub struct NoRoom;

impl fmt::Display for NoRoom {
    ghost output = { λ _. Some (codes "the output has no room for the text") };

    fn fmt<W: fmt::Write>(&self, f: &mut fmt::Formatter<W>) -> fmt::Result {
        f.write_str("the output has no room for the text")
    }
}

impl Error for NoRoom {}

// A `Cursor` would write a part of a text; an append is whole or refused, and leaves room behind it.
#[derive(Drop)]
pub struct Output<'a> {
    // The first `used` bytes are written.
    bytes: &'a mut [u8],
    used: usize,
    ghost within: { used ≤ length bytes.now },
}

// The clauses `lent` relate a borrow before a call and after it, which no invariant of one value can.
impl<'a> Output<'a> {
    ghost use Rattle.answers.specs.Appending.{Appended, whole};

    // An output of which nothing is written.
    pub fn new(bytes: &'a mut [u8]) -> Output<'a>
        ensures used { result.used ≡ 0 }
        ensures same { whole result ≡ bytes.old }
        ensures lent { result.bytes.ghost_name ≡ bytes.entry.ghost_name }
    {
        Output { bytes, used: 0 }
    }

    // How many bytes are written.
    pub fn used(&self) -> usize
        ensures { result ≡ self.now.used }
    {
        self.used
    }

    // Writes the text behind what is written, if `spare` bytes are free after it.
    pub fn append(&mut self, text: &[u8], spare: usize) -> Result<(), NoRoom>
        ensures appends { Appended self.old text.now spare result self.new }
        ensures lent { self.new.bytes.ghost_name ≡ self.old.bytes.ghost_name }
    {
        let free = self.bytes.len() - self.used;
        if text.len() > free || spare > free - text.len() {
            return Err(NoRoom);
        }
        let end = self.used + text.len();
        self.bytes[self.used..end].copy_from_slice(text);
        self.used = end;
        Ok(())
    }
}
