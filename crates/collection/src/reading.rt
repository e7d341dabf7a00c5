// A collection file from its first line to its last.
ghost use Rattle.std.specs.Prelude.{◌≡◌, ◌+◌, ◌<◌, ◌≤◌, length};
ghost use Rattle.answers.specs.Appending.{whole};
ghost use Rattle.collection.specs.Runs.{Done};
ghost use Rattle.collection.specs.Parts.{LineDone, AllDone, InputDone};

use crate::faults::{Fault, FileFault, OnLine};
use crate::machine::{Machine, Place};
use answers::output::Output;
use answers::printed;
use graph::{Arc, ArcList, GrowableDigraph};
use lines::{Line, Reader};

// The bytes that an answer leaves free, so that a fault can always be printed.
const SPARE: usize = 64;

// The most bytes of an input that is read.
const INPUT: usize = 16384;

// The bytes of an output that is written.
pub const OUTPUT: usize = 65536;

// Does what the line says, and prints its answer. The output's length stands in each clause from here on: of an output that is held in a
// struct of its own, it does not close that what is written comes back to the lent bytes. (`lent`: see `Output`.)
fn take_line<G: GrowableDigraph>(
    machine: &mut Machine,
    graph: &mut G,
    line: Line,
    out: &mut Output,
) -> Result<(), Fault>
    requires few { machine.old.arcs < 65535 }
    requires size { length (whole out.old) ≡ 65536 }
    ensures done { LineDone G.Digraph.most (G.GrowableDigraph.arc_limit graph.old) machine.old (G.Digraph.model graph.old) out.old line result machine.new (G.Digraph.model graph.new) out.new }
    ensures limit { G.GrowableDigraph.arc_limit graph.new ≡ G.GrowableDigraph.arc_limit graph.old }
    ensures few { machine.new.arcs ≤ machine.old.arcs + 1 }
    ensures lent { out.new.bytes.ghost_name ≡ out.old.bytes.ghost_name }
{
    machine.step(graph, line)?;
    let answer = machine.answer(graph, line)?;
    out.append(answer.as_slice(), SPARE)?;
    Ok(())
}

// Takes the lines of the input, one after the other.
fn take_all<G: GrowableDigraph>(
    input: &[u8],
    graph: &mut G,
    out: &mut Output,
) -> Result<(), FileFault>
    requires short { length input.now ≤ 16384 }
    requires unused { out.old.used ≡ 0 }
    requires size { length (whole out.old) ≡ 65536 }
    ensures done { AllDone G.Digraph.most (G.GrowableDigraph.arc_limit graph.old) (G.Digraph.model graph.old) input.now out.old result out.new }
    ensures lent { out.new.bytes.ghost_name ≡ out.old.bytes.ghost_name }
{
    let mut machine = Machine::new();
    let mut reader = Reader::new(input);
    // counted beside the loop, since it is also the line at which a file stops early
    let mut number: u32 = 1;
    while let Some(line) = reader.next_line().on(number)? {
        take_line(&mut machine, graph, line, out).on(number)?;
        number += 1;
    }
    if machine.place == Place::AmongQuestions {
        Ok(())
    } else {
        Err(FileFault {
            fault: Fault::Order,
            line: number,
        })
    }
}

// Reads the input onto an empty graph, and prints its answers.
fn read_input(input: &[u8], out: &mut Output) -> Result<(), FileFault>
    requires unused { out.old.used ≡ 0 }
    requires size { length (whole out.old) ≡ 65536 }
    ensures done { InputDone input.now out.old result out.new }
    ensures lent { out.new.bytes.ghost_name ≡ out.old.bytes.ghost_name }
{
    if input.len() > INPUT {
        return Err(FileFault {
            fault: Fault::Size,
            line: 0,
        });
    }
    let mut table = [Arc { tail: 0, head: 0 }; 1024];
    let mut graph = ArcList::new(&mut table);
    take_all(input, &mut graph, out)
}

// How a run ended: how many bytes of the output are written, and the fault if there was one.
#[derive(Clone, Copy)]
pub struct Finished {
    pub written: usize,
    pub fault: Option<FileFault>,
}

// Reads a collection file, and prints its answers and its fault, if it has one, to the output.
pub fn run(input: &[u8], output: &mut [u8]) -> Finished
    ensures done { Done input.now output.old result output.new }
    ensures within { result.written ≤ length output.old }
{
    if output.len() != OUTPUT {
        let fault = FileFault {
            fault: Fault::Size,
            line: 0,
        };
        return Finished {
            written: 0,
            fault: Some(fault),
        };
    }
    let mut out = Output::new(output);
    let Err(fault) = read_input(input, &mut out) else {
        return Finished {
            written: out.used(),
            fault: None,
        };
    };
    let line = printed::fault(u16::from(fault.fault), fault.line);
    let _ = out.append(line.as_slice(), 0);
    Finished {
        written: out.used(),
        fault: Some(fault),
    }
}
