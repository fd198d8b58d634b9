//! Runs described networks on tokens of files, or on tokens that come without end, tells how they ended, writes
//! what went through their channels, and draws them.
#![tactic(auto)]

mod host;
mod progress;
mod same;
mod screen;
mod stream_line;
mod streaming;
mod taps;
mod told;
mod unused;
mod whole;

use crate::host::Host;
use crate::progress::ProgressLine;
use crate::screen::Screen;
use crate::stream_line::StreamProgress;
use crate::streaming::stream_asked;
use crate::told::say_files;
use crate::unused::say_unused_by_run;
use hox_execute::{ServedCommand, Stop, serve};
use hox_messages::{list_kinds, say_no_memory, say_stop};
use hox_network::AllKinds;
use std::alloc::AllocError;
use std::io::IsTerminal;
use std::process::ExitCode;
use std::rt::{Clock, Env, Files};
use std::sync::Wait;
use std::thread::Threads;
use std::{env, io};

fn main(rt: HostRuntime) -> ExitCode {
    let is_terminal = rt.stderr().is_terminal();
    ExitCode::from(status_of(&rt, is_terminal))
}

/// Reads the arguments, does what they ask for, and returns the exit status. It is passed whether standard error
/// is a terminal.
fn status_of<R: Env + Files + Input + Print + Eprint + AllocGlobal + Wait + Clock + Threads + Sync>(
    rt: &R,
    is_terminal: bool,
) -> u8 {
    let screen = Screen::new(rt, is_terminal);
    match arguments_of(rt) {
        Ok(arguments) => status_by(rt, &screen, &arguments, is_terminal),
        Err(_) => say_no_memory(&screen),
    }
}

/// Does what the arguments ask for, and returns the exit status.
fn status_by<R: Files + Input + Print + Eprint + AllocGlobal + Wait + Clock + Threads + Sync>(
    rt: &R,
    screen: &Screen<'_, R>,
    arguments: &Vec<String>,
    is_terminal: bool,
) -> u8 {
    match texts_of(rt, arguments) {
        Ok(texts) => status_by_texts(rt, screen, texts.as_slice(), is_terminal),
        Err(_) => say_no_memory(screen),
    }
}

fn status_by_texts<R: Files + Input + Print + Eprint + AllocGlobal + Wait + Clock + Threads + Sync>(
    rt: &R,
    screen: &Screen<'_, R>,
    texts: &[&str],
    is_terminal: bool,
) -> u8 {
    let line = ProgressLine::new(rt, is_terminal);
    let mut host = Host::new(rt, screen, &line);
    let outcome = serve::<AllKinds, _, _, _>(rt, rt.alloc(), &mut host, texts, &line);
    line.clear();
    status_after(rt, screen, &host, &outcome)
}

/// Runs the stream that is still to be run, lists the kinds that are still to be listed, or says why nothing was
/// done, and returns the exit status.
fn status_after<R: Files + Input + Print + Eprint + AllocGlobal + Clock>(
    rt: &R,
    screen: &Screen<'_, R>,
    host: &Host<'_, R>,
    outcome: &Result<ServedCommand<'_>, Stop<'_>>,
) -> u8 {
    match outcome {
        Ok(ServedCommand::Exits(status)) => status.code(),
        Ok(ServedCommand::Ran(ran)) => {
            say_files(screen, ran.outputs.as_slice(), ran.files.as_slice());
            say_unused_by_run(screen, &ran);
            ran.status.code()
        }
        Ok(ServedCommand::Streams(stream)) => {
            let line = StreamProgress::new(rt, stream, screen.is_terminal());
            stream_asked(screen, host, stream, &line)
        }
        Ok(ServedCommand::Lists(kinds)) => list_kinds(screen, kinds),
        Err(stop) => say_stop(screen, stop),
    }
}

/// The arguments, the first of which is the program's name.
fn arguments_of<R: Env + AllocGlobal>(rt: &R) -> io::Result<Vec<String>> {
    let arguments: Vec<String> = env::args(rt)?.collect(rt.alloc())?;
    Ok(arguments)
}

/// The arguments as slices.
fn texts_of<'a>(
    rt: &impl AllocGlobal,
    arguments: &'a Vec<String>,
) -> Result<Vec<&'a str>, AllocError> {
    arguments.iter().map(String::as_str).collect(rt.alloc())
}
