//! Runs the network described on standard input with several workers. The arguments are:
//!
//! - `time WORKERS NUMBERS GATE`: times the run. Bodies compute that many random numbers before each answer;
//!   the gate is `open` or `prompt`; 0 workers are the calling thread without a lock.
//! - `stress WORKERS MOST SEED HELD OTHER`: bodies compute up to `MOST` (2^n - 1) random numbers, one process
//!   is held up for another, and the report is written.
//!
//! The exit status is 1 for other arguments, and 4 if the network can't be read or the run fails.
#![tactic(auto)]

mod burning;
mod numbers;
mod straying;

use burning::{GateChoice, Timing, run_timed};
use kpn_front::{Fallible, load};
use kpn_net::Net;
use kpn_standard::Standard;
use std::alloc::{AllocError, Global};
use std::env;
use std::process::ExitCode;
use std::rt::{Clock, Env};
use std::sync::Wait;
use std::thread::Threads;
use straying::{Stress, run_stressed};

#[derive(Clone, Copy)]
enum Job {
    Time(Timing),
    Stress(Stress),
}

fn main(rt: HostRuntime) -> ExitCode {
    let Some(asked) = asked_of(&rt) else {
        return ExitCode::from(1);
    };
    match play(&rt, rt.alloc(), asked) {
        Ok(()) => ExitCode::from(0),
        Err(_) => ExitCode::from(4),
    }
}

fn asked_of<R: Env + AllocGlobal>(rt: &R) -> Option<Job> {
    let Ok(arguments) = env::args(rt) else {
        return None;
    };
    let Ok(words): Result<Vec<String>, AllocError> = arguments.collect(rt.alloc()) else {
        return None;
    };
    match words.get(1)?.as_str() {
        "time" => Some(Job::Time(Timing {
            workers: size_of(&words, 2)?,
            numbers: number_of(&words, 3)?,
            gate: gate_of(words.get(4)?.as_str())?,
        })),
        "stress" => Some(Job::Stress(Stress {
            workers: size_of(&words, 2)?,
            most: number_of(&words, 3)?,
            seed: number_of(&words, 4)?,
            held: size_of(&words, 5)?,
            other: size_of(&words, 6)?,
        })),
        _ => None,
    }
}

fn gate_of(word: &str) -> Option<GateChoice> {
    match word {
        "open" => Some(GateChoice::Open),
        "prompt" => Some(GateChoice::Prompt),
        _ => None,
    }
}

fn size_of(words: &Vec<String>, place: usize) -> Option<usize> {
    words.get(place)?.parse::<usize>().ok()
}

fn number_of(words: &Vec<String>, place: usize) -> Option<u64> {
    words.get(place)?.parse::<u64>().ok()
}

fn play<R: Threads + Wait + Clock + Sync + Input + Print>(
    rt: &R,
    alloc: Global,
    asked: Job,
) -> Result<(), AllocError> {
    let mut source = Fallible::new(rt.reader());
    let net: Net<Standard> = match load(alloc, &mut source) {
        Ok(net) => net,
        Err(_) => return Err(AllocError),
    };
    match asked {
        Job::Time(timing) => run_timed(rt, alloc, net, timing),
        Job::Stress(stress) => run_stressed(rt, alloc, net, stress),
    }
}
