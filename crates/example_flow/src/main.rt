//! Reads the description of a network, up to a line `inputs NAME..` and a line `outputs NAME..`, and then
//! lines without end, in constant memory. It feeds a number into the first input, and writes each token of
//! the outputs as a line `NAME TOKEN`. Other lines are commands (`crate::lines`). After the last line it ends
//! all inputs and writes how the flow ended; after a line `stop` it doesn't.
#![tactic(auto)]

mod ending;
mod lines;
mod opening;
mod piped;

use crate::opening::{open, read_description};
use crate::piped::Piped;
use anyhow::Result;
use std::alloc::Global;
use std::io::{self, BufRead, BufReader, BufWriter, Write};
use std::process::ExitCode;

fn main(rt: HostRuntime) -> ExitCode {
    match play(&rt, rt.alloc()) {
        Ok(()) => ExitCode::from(0),
        Err(error) => {
            let _ = eprintln!(rt; "example_flow: {error}");
            ExitCode::from(1)
        }
    }
}

fn play<R: Input + Print>(rt: &R, alloc: Global) -> Result<()> {
    let mut sink = BufWriter::new(alloc, io::writer(rt))?;
    let mut source = BufReader::new(alloc, rt.reader())?;
    play_lines(alloc, &mut source, &mut sink)
}

fn play_lines<S: BufRead, W: Write>(alloc: Global, source: &mut S, sink: &mut W) -> Result<()> {
    let description = read_description(alloc, source)?;
    let mut piped = open(alloc, &description)?;
    execute_lines(alloc, &mut piped, source, sink)
}

/// Executes each line, and flushes the output.
fn execute_lines<S: BufRead, W: Write>(
    alloc: Global,
    piped: &mut Piped,
    source: &mut S,
    sink: &mut W,
) -> Result<()> {
    let mut line = String::new(alloc);
    for _ in 0..u64::MAX {
        if !execute_next_line(alloc, piped, &mut line, source, sink)? {
            break;
        }
    }
    Ok(sink.flush()?)
}

/// Executes the next line. Returns whether to read another one.
fn execute_next_line<S: BufRead, W: Write>(
    alloc: Global,
    piped: &mut Piped,
    line: &mut String,
    source: &mut S,
    sink: &mut W,
) -> Result<bool> {
    line.clear();
    if source.read_line(line)? == 0 {
        piped.finish(alloc, sink)?;
        return Ok(false);
    }
    let said = line.trim_end();
    if said == "stop" {
        return Ok(false);
    }
    piped.execute_line(alloc, said, sink)?;
    Ok(true)
}
