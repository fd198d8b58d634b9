//! Builds a network in code, checks it, writes it as a description, runs it with four workers and a line of
//! progress on standard error, and prints two of its streams as CSV. Then stops a network, and runs one with
//! threads of its own.
#![tactic(auto)]

mod failure;
mod own_threads;
mod stopped;

use crate::failure::Failure;
use kpn_builder::{Builder, NewChannel};
use kpn_compute::bodies_of;
use kpn_net::{Net, Token};
use kpn_observe::{Observer, Progress, WatchedRun, Wish, run_watched};
use kpn_run::{Open, stream_of};
use kpn_standard::Standard;
use std::alloc::{AllocError, Global};
use std::process::ExitCode;
use std::rt::Clock;
use std::sync::Wait;
use std::thread::Threads;
use std::time::Duration;

/// The kinds that a message lists if a kind is unknown.
const KINDS: &str = "count, sink, scale, copy, prefix and add";

/// Sums of each word and the one before it, of the multiples of three.
fn make(made: &mut Builder) -> Result<(), AllocError> {
    made.process("src", "count", &[1, 8])?;
    made.process("x3", "scale", &[3])?;
    made.process("cp", "copy", &[])?;
    made.process("late", "prefix", &[0])?;
    made.process("sum", "add", &[])?;
    made.process("snk", "sink", &[8])?;
    made.channel(NewChannel::new("x", "src", "x3").capacity(4))?;
    made.channel(NewChannel::new("x3", "x3", "cp").capacity(4))?;
    made.channel(NewChannel::new("now", "cp", "sum").capacity(4))?;
    made.channel(NewChannel::new("later", "cp", "late").out(1).capacity(4))?;
    made.channel(
        NewChannel::new("before", "late", "sum")
            .input(1)
            .capacity(4),
    )?;
    made.channel(NewChannel::new("y", "sum", "snk").capacity(4))
}

/// Prints the progress of a run.
#[derive(Drop)]
struct Ticker<'a, R> {
    rt: &'a R,
}

impl<'a, R: Eprint + Sync> Observer for Ticker<'a, R> {
    fn see(&self, progress: Progress) -> Wish {
        let _ = eprintln!(self.rt;
            "{} entries, {} growths",
            progress.entries, progress.growths
        );
        Wish::GoOn
    }
}

/// Returns the words that went through a channel.
fn words(alloc: Global, run: &WatchedRun<Standard>, channel: &str) -> Result<Vec<u64>, AllocError> {
    let mut words = Vec::new(alloc);
    let Some(channel) = run.net().find_channel(channel) else {
        return Ok(words);
    };
    for token in stream_of(alloc, run.net(), run.history(), channel)? {
        if let Token::Word(word) = token {
            words.push(word)?;
        }
    }
    Ok(words)
}

fn print_streams<R: Print>(
    rt: &R,
    alloc: Global,
    run: &WatchedRun<Standard>,
) -> Result<(), Failure> {
    let (xs, ys) = (words(alloc, run, "x3")?, words(alloc, run, "y")?);
    let _ = println!(rt; "x3,y");
    for (x, y) in xs.iter().zip(ys.iter()) {
        let _ = println!(rt; "{x},{y}");
    }
    Ok(())
}

/// Runs a network by four workers, beside a line of progress twice a second.
fn play<R: Threads + Wait + Clock + Print + Eprint + Sync>(
    rt: &R,
    alloc: Global,
    net: Net<Standard>,
) -> Result<(), Failure> {
    let bodies = bodies_of(alloc, &net)?;
    let period = Duration::from_millis(500);
    match run_watched(rt, alloc, net, bodies, 4, &Open, period, &Ticker { rt }) {
        Ok(run) => print_streams(rt, alloc, &run),
        Err(_) => Err(Failure::Run),
    }
}

/// Writes the network as a description, and runs it if it is valid.
fn show<R: Threads + Wait + Clock + Print + Eprint + Sync>(
    rt: &R,
    alloc: Global,
    made: &Builder,
) -> Result<(), Failure> {
    let text = made.to_toml()?;
    let _ = print!(rt; "{text}");
    match made.check() {
        Ok(net) => play(rt, alloc, net),
        Err(fault) => {
            if let Some(message) = made.message::<Standard>(fault, KINDS) {
                let _ = eprintln!(rt; "{message}");
            }
            Ok(())
        }
    }
}

fn show_all<R: Threads + Wait + Clock + Print + Eprint + Sync>(
    rt: &R,
    alloc: Global,
) -> Result<(), Failure> {
    let mut made = Builder::new(alloc);
    make(&mut made)?;
    show(rt, alloc, &made)?;
    stopped::show(rt, alloc)?;
    own_threads::show(rt, alloc)
}

fn main(rt: HostRuntime) -> ExitCode {
    match show_all(&rt, rt.alloc()) {
        Ok(()) => ExitCode::SUCCESS,
        Err(failure) => {
            let _ = eprintln!(rt; "example_library: {failure}");
            ExitCode::from(4)
        }
    }
}
