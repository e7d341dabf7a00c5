// Reads a collection file from the standard input, and writes its answers to the standard output.
#![tactic(auto)]

use anyhow::anyhow;
use arrayvec::ArrayVec;
use std::io;
use std::io::{Read, Write};

// One byte more than the longest input, so that a longer one is told from it.
const INPUT: usize = 16385;

// A fault ends the process with status 1.
fn main(rt: HostRuntime) -> anyhow::Result<()> {
    let mut input = ArrayVec::<u8, INPUT>::new();
    io::copy(&mut rt.stdin().take(INPUT as u64), &mut input)?;
    let mut output = [0u8; collection::OUTPUT];
    let finished = collection::run(input.as_slice(), &mut output);
    rt.stdout().write_all(&output[..finished.written])?;
    if finished.fault.is_some() {
        return Err(anyhow!("the collection has a fault"));
    }
    Ok(())
}
