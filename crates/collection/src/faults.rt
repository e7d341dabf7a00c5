// What ends the reading of a file early, and the line where it was found.
ghost use Rattle.std.specs.Prelude.{◌≡◌, ℕ, Some, Result};
ghost use Rattle.collection.specs.Faults.{Placed, fault_number, fault_text, file_fault_text};
ghost use Rattle.collection.specs.declared.faults.At.{At};
ghost use Rattle.collection.specs.declared.faults.Fault.TheVariants.{Growth, Question, Form, Size};

use answers::output::NoRoom;
use lines::NoForm;
use std::error::Error;
use std::fmt;

#[derive(Clone, Copy, Debug, PartialEq, Eq)]
pub enum Fault {
    // The graph refuses to grow.
    Growth(graph::Refusal),
    // A question is refused.
    Question(search::Refusal),
    // The input, the output or an answer has not the room that it needs.
    Size,
    // A line has no permitted form.
    Form,
    // A line is out of place, the count at the end of the arcs is wrong, or the file stops before that end.
    Order,
}

// The number that stands for the fault in printed lines.
impl From<Fault> for u16 {
    ghost from_gives = { λ f n. n ≡ fault_number f };

    fn from(fault: Fault) -> u16 {
        match fault {
            Fault::Growth(refusal) => u16::from(refusal),
            Fault::Question(refusal) => u16::from(refusal),
            Fault::Size => 8,
            Fault::Form => 9,
            Fault::Order => 10,
        }
    }
}

impl fmt::Display for Fault {
    ghost output = { λ f. Some (fault_text f) };

    fn fmt<W: fmt::Write>(&self, f: &mut fmt::Formatter<W>) -> fmt::Result {
        match self {
            Fault::Growth(refusal) => refusal.fmt(f),
            Fault::Question(refusal) => refusal.fmt(f),
            Fault::Size => f.write_str(
                "the input or the output is not of a permitted size, or the output is full",
            ),
            Fault::Form => f.write_str("the line has no permitted form"),
            Fault::Order => f.write_str(
                "the line is out of place, the count at end is wrong, or the file stops early",
            ),
        }
    }
}

impl Error for Fault {}

// A fault and the number of its line; 0 where it is found before the first, as it is printed.
#[derive(Clone, Copy, Debug, PartialEq, Eq)]
pub struct FileFault {
    pub fault: Fault,
    pub line: u32,
}

impl fmt::Display for FileFault {
    ghost output = { λ f. Some (file_fault_text f) };

    fn fmt<W: fmt::Write>(&self, f: &mut fmt::Formatter<W>) -> fmt::Result {
        let line = self.line;
        let fault = self.fault;
        write!(f, "line {line}: {fault}")
    }
}

impl Error for FileFault {}

// An error and the number of the line that it came from.
#[derive(Clone, Copy)]
pub struct At<E> {
    pub error: E,
    pub line: u32,
}

impl From<graph::Refusal> for Fault {
    ghost from_gives = { λ e r. r ≡ Growth e };

    fn from(e: graph::Refusal) -> Fault {
        Fault::Growth(e)
    }
}

impl From<search::Refusal> for Fault {
    ghost from_gives = { λ e r. r ≡ Question e };

    fn from(e: search::Refusal) -> Fault {
        Fault::Question(e)
    }
}

impl From<NoForm> for Fault {
    ghost from_gives = { λ _ r. r ≡ Form };

    fn from(_e: NoForm) -> Fault {
        Fault::Form
    }
}

impl From<NoRoom> for Fault {
    ghost from_gives = { λ _ r. r ≡ Size };

    fn from(_e: NoRoom) -> Fault {
        Fault::Size
    }
}

impl<E> From<At<E>> for FileFault
where
    Fault: From<E>,
{
    ghost from_gives = { λ e r. ⟦<Fault as From<E>>⟧.from_gives e.error r.fault × (r.line ≡ e.line) };

    fn from(e: At<E>) -> FileFault {
        FileFault {
            fault: Fault::from(e.error),
            line: e.line,
        }
    }
}

// Says which line an error came from.
pub trait OnLine<T, E>: Sized {
    ghost placed: { Self → ℕ → Result T (At E) → Type 0 };

    fn on(self, line: u32) -> Result<T, At<E>>
        ensures { placed self line result };
}

impl<T, E> OnLine<T, E> for Result<T, E> {
    ghost placed = { λ s n r. Placed s n r };

    fn on(self, line: u32) -> Result<T, At<E>> {
        self.map_err(|error| At { error, line })
    }
}
