// The lines of a collection file: their permitted forms, and a reader that takes an input apart into lines.
#![tactic(auto)]

ghost use Rattle.std.specs.Prelude.{◌≡◌, ℕ, ◌<◌, IsTrue, ◌↔◌, length, MatchOption, slice_index, Some, codes};
ghost use Rattle.lines.specs.Forms.{ParsesTo, Writes, WritesNone};
ghost use Rattle.lines.specs.Parts.{form, Lacks, SplitsAt, WritesNumber, WritesPair};
ghost use Rattle.lines.specs.Reading.{line_feed, unread, Steps};

use std::error::Error;
use std::fmt;

// A line, whose permitted form is a keyword, `=`, and one number or two with a comma between them: `library=L`,
// `papers=N`, `arc=U,V`, `end=M`, `ask=S,T`, `trace=S,T` and `under=S`. The numbers are decimal, from 0 to 65,535, with
// no leading zero, sign or blank.
#[derive(Clone, Copy, Debug, PartialEq, Eq)]
pub enum Line {
    Library(u16),
    Papers(u16),
    Arc(u16, u16),
    End(u16),
    Ask(u16, u16),
    Trace(u16, u16),
    Under(u16),
}

// The bytes of the longest form, such as `trace=65535,65535`.
const LONGEST: usize = 17;

// The line whose permitted form `bytes` are, without the line feed; `None` where no line has that form.
// (A function alone: `TryFrom` would say the same under a second name.)
pub fn parse_line(bytes: &[u8]) -> Option<Line>
    ensures { ParsesTo bytes.now result }
{
    // No line is longer, and a longer text is refused before it is read.
    if bytes.len() > LONGEST {
        return None;
    }
    let (word, value) = split_at_first(bytes, b'=')?;
    parse_value(word, value)
}

// The line that has `word` before the sign `=` and `value` after it. (Bytes throughout: text would first be checked to be
// text, and searched for a character, which takes longer than all that is done here.)
fn parse_value(word: &[u8], value: &[u8]) -> Option<Line>
    ensures { MatchOption result (WritesNone (form word.now value.now)) (Writes (form word.now value.now)) }
{
    if word == b"library".as_slice() {
        parse_number(value).map(Line::Library)
    } else if word == b"papers".as_slice() {
        parse_number(value).map(Line::Papers)
    } else if word == b"arc".as_slice() {
        parse_pair(value).map(|(u, v)| Line::Arc(u, v))
    } else if word == b"end".as_slice() {
        parse_number(value).map(Line::End)
    } else if word == b"ask".as_slice() {
        parse_pair(value).map(|(s, t)| Line::Ask(s, t))
    } else if word == b"trace".as_slice() {
        parse_pair(value).map(|(s, t)| Line::Trace(s, t))
    } else if word == b"under".as_slice() {
        parse_number(value).map(Line::Under)
    } else {
        None
    }
}

// The two numbers of `m,n`.
fn parse_pair(bytes: &[u8]) -> Option<(u16, u16)>
    ensures { MatchOption result ((m n : ℕ) → WritesPair bytes.now m n → ⊥) (λ p. WritesPair bytes.now p.0 p.1) }
{
    let (m, n) = split_at_first(bytes, b',')?;
    Some((parse_number(m)?, parse_number(n)?))
}

// The number that `bytes` are in decimal, without leading zeros.
fn parse_number(bytes: &[u8]) -> Option<u16>
    ensures { MatchOption result ((n : ℕ) → WritesNumber bytes.now n → ⊥) (WritesNumber bytes.now) }
{
    if bytes.is_empty() || bytes.len() > 5 {
        return None;
    }
    if has_leading_zero(bytes) {
        return None;
    }
    let mut n: u32 = 0;
    for digit in bytes {
        if !digit.is_ascii_digit() {
            return None;
        }
        n = n * 10 + u32::from(*digit - b'0');
    }
    u16::try_from(n).ok()
}

// Whether `bytes` begin with a zero and go on after it.
fn has_leading_zero(bytes: &[u8]) -> bool
    ensures { IsTrue result ↔ ((1 < length bytes.now) × (slice_index bytes.now 0 ≡ 48)) }
{
    bytes.len() > 1 && bytes[0] == b'0'
}

// What stands before and after the first `separator` in `bytes`. (`split_once` is for text, which an input may not be.)
fn split_at_first(bytes: &[u8], separator: u8) -> Option<(&[u8], &[u8])>
    ensures { MatchOption result (Lacks bytes.now separator) (λ p. SplitsAt bytes.now separator p.0.now p.1.now) }
{
    let i = bytes.iter().position(|b| *b == separator)?;
    Some((&bytes[..i], &bytes[i + 1..]))
}

// The next line has no permitted form, or no line feed ends it.
#[derive(Clone, Copy, Debug, PartialEq, Eq)]
pub struct NoForm;

impl fmt::Display for NoForm {
    ghost output = { λ _. Some (codes "the next line has no permitted form or no line feed") };

    fn fmt<W: fmt::Write>(&self, f: &mut fmt::Formatter<W>) -> fmt::Result {
        write!(f, "the next line has no permitted form or no line feed")
    }
}

impl Error for NoForm {}

// Reads an input line by line. (No `Iterator`: an error leaves its line unread, and would come again without end.)
#[derive(Drop)]
pub struct Reader<'a> {
    rest: &'a [u8],
}

impl<'a> Reader<'a> {
    // A reader that has yet to read all of `input`.
    pub fn new(input: &'a [u8]) -> Reader<'a>
        ensures { unread result ≡ input.now }
    {
        Reader { rest: input }
    }

    // Reads the next line and its line feed. `Ok(None)`: nothing is left to read. On an error nothing is read.
    pub fn next_line(&mut self) -> Result<Option<Line>, NoForm>
        ensures { Steps (unread self.old) result (unread self.new) }
    {
        if self.rest.is_empty() {
            return Ok(None);
        }
        let (bytes, rest) = split_at_first(self.rest, b'\n').ok_or(NoForm)?;
        let line = parse_line(bytes).ok_or(NoForm)?;
        self.rest = rest;
        Ok(Some(line))
    }
}

#[cfg(test)]
mod tests {
    use super::*;
    use std::test::Fail;

    #[test]
    fn permitted_forms(rt: HostRuntime) {
        let table = [
            ("library=0", Line::Library(0)),
            ("library=65535", Line::Library(65535)),
            ("papers=7", Line::Papers(7)),
            ("papers=512", Line::Papers(512)),
            ("arc=0,0", Line::Arc(0, 0)),
            ("arc=3,12", Line::Arc(3, 12)),
            ("arc=65535,10", Line::Arc(65535, 10)),
            ("end=100", Line::End(100)),
            ("ask=9,65535", Line::Ask(9, 65535)),
            ("trace=20,1", Line::Trace(20, 1)),
            ("under=60000", Line::Under(60000)),
        ];
        for (text, line) in table {
            assert_eq!(rt; parse_line(text.as_bytes()), Some(line), "{}", text);
        }
    }

    #[test]
    fn other_forms(rt: HostRuntime) {
        let table = [
            "",
            "library",
            "library=",
            "library=07",
            "library=00",
            "library=65536",
            "library=99999999999",
            "library=-1",
            "library=+1",
            "library= 7",
            "Library=7",
            "papers=1 ",
            "arc=1",
            "arc=1,",
            "arc=,1",
            "arc=1,2,3",
            "arc=1, 2",
            "arc=01,2",
            "arc=1,2\r",
            "end=",
            "ask=1",
            "under=1,2",
            "foo=1",
            "=1",
        ];
        for text in table {
            assert_eq!(rt; parse_line(text.as_bytes()), None, "{}", text);
        }
    }

    #[test]
    fn lines_in_turn(rt: HostRuntime) -> Result<(), Fail> {
        let mut reader = Reader::new(b"library=3\narc=1,2\n");
        assert_eq!(rt; reader.next_line()?, Some(Line::Library(3)));
        assert_eq!(rt; reader.next_line()?, Some(Line::Arc(1, 2)));
        assert_eq!(rt; reader.next_line()?, None);
        assert_eq!(rt; reader.next_line()?, None);
        Ok(())
    }

    #[test]
    fn nothing_read_on_an_error(rt: HostRuntime) -> Result<(), Fail> {
        let mut unended = Reader::new(b"end=2\nend=2");
        assert_eq!(rt; unended.next_line()?, Some(Line::End(2)));
        assert_eq!(rt; unended.next_line(), Err(NoForm));
        assert_eq!(rt; unended.rest, b"end=2".as_slice());
        let mut empty = Reader::new(b"\nend=2\n");
        assert_eq!(rt; empty.next_line(), Err(NoForm));
        assert_eq!(rt; empty.next_line(), Err(NoForm));
        assert_eq!(rt; empty.rest, b"\nend=2\n".as_slice());
        Ok(())
    }
}
