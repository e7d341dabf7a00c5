// The printed lines, each with its line feed. (No `write!`: it promises its text only where it succeeds, and these calls cannot fail.)
ghost use Rattle.std.specs.Prelude.{◌≡◌, ◌<◌, ◌≤◌, ◌++◌, length, All};
ghost use Rattle.answers.specs.Texts.{kept, Gains};
ghost use Rattle.answers.specs.Printed.{header_line, verdict_word, ask_line, trace_line, under_line, fault_line};

use crate::buffer::LineBuffer;
use itoa::Integer;
use labels::Verdict;

// A field of a line: its name, and its number in decimal.
fn field<I: Integer>(line: &mut LineBuffer, name: &[u8], n: I)
    ensures { Gains line.old (name.now ++ I.text n) line.new }
{
    line.text(name);
    line.number(n);
}

// What was read: the library's number, its vertices and its arcs.
pub fn header(library: u16, vertices: u16, arcs: u16) -> LineBuffer
    ensures { result ≡ header_line library vertices arcs }
{
    let mut line = LineBuffer::new();
    field(&mut line, b"library=", library);
    field(&mut line, b" papers=", vertices);
    field(&mut line, b" arcs=", arcs);
    line.text(b"\n");
    line
}

// The word for a verdict, in bytes as all of a line is.
fn word(verdict: Verdict) -> &'static [u8]
    ensures { result.now ≡ verdict_word verdict }
{
    match verdict {
        Verdict::Yes => b"yes",
        Verdict::No => b"no",
    }
}

// Whether s reaches t, on which ground, and how many vertices were opened to tell.
pub fn ask(s: u16, t: u16, verdict: Verdict, ground: u16, opened: u16) -> LineBuffer
    ensures { result ≡ ask_line s t verdict ground opened }
{
    let mut line = LineBuffer::new();
    line.text(b"ask=");
    line.list(&[s, t]);
    line.text(b" answer=");
    line.text(word(verdict));
    field(&mut line, b" ground=", ground);
    field(&mut line, b" opened=", opened);
    line.text(b"\n");
    line
}

// A path from s to t, or none where it is empty. The line is whole for every path of at most 512 numbers below 1000, so for every path of vertices.
pub fn trace(s: u16, t: u16, path: &[u16]) -> LineBuffer
    ensures front { result ≡ kept (trace_line s t path.now) }
    ensures whole { length path.now ≤ 512 → All (λ x. x < 1000) path.now → result ≡ trace_line s t path.now }
{
    let mut line = LineBuffer::new();
    line.text(b"trace=");
    line.list(&[s, t]);
    field(&mut line, b" length=", path.len());
    line.text(b" path=");
    if path.is_empty() {
        line.text(b"none");
    } else {
        line.list(path);
    }
    line.text(b"\n");
    line
}

// The vertices that s reaches. The line is whole for every list of at most 512 numbers below 1000, so for every list of vertices.
pub fn under(s: u16, list: &[u16]) -> LineBuffer
    ensures front { result ≡ kept (under_line s list.now) }
    ensures whole { length list.now ≤ 512 → All (λ x. x < 1000) list.now → result ≡ under_line s list.now }
{
    let mut line = LineBuffer::new();
    field(&mut line, b"under=", s);
    field(&mut line, b" count=", list.len());
    line.text(b" list=");
    line.list(list);
    line.text(b"\n");
    line
}

// The fault of that number, at the line of that number.
pub fn fault(number: u16, at: u32) -> LineBuffer
    ensures { result ≡ fault_line number at }
{
    let mut line = LineBuffer::new();
    field(&mut line, b"fault=", number);
    field(&mut line, b" line=", at);
    line.text(b"\n");
    line
}
