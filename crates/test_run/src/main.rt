//! Tests of runs by several workers, of monitors that threads share, of boards, and of what users' programs call.
//!
//! The files of data/ have rows with what is due. `rt ci` compares what the program prints with the file stdout.
#![tactic(auto)]

mod boards;
mod built;
mod crews;
mod drive;
mod gates;
mod keepers;
mod loose;
mod meeting;
mod networks;
mod play;
mod runs;
mod stages;
mod stopped;
mod telling;
mod told;
mod watched;

use crate::drive::compare_rows;
use crate::play::compare_scenes;
use std::env;
use std::process::ExitCode;
use std::rt::{Clock, Env, Files};
use std::sync::Wait;
use std::thread::Threads;
use test_kit::Report;

/// Tries all; or, with the name of a file as argument, its rows alone.
fn main(rt: HostRuntime) -> ExitCode {
    let mut report = Report::new(rt.alloc());
    match named_file(&rt) {
        Some(name) => compare(&rt, &mut report, name.as_str()),
        None => compare_all(&rt, &mut report),
    }
    report.print(&rt)
}

fn named_file<R: Env + AllocGlobal>(rt: &R) -> Option<String> {
    let mut words = env::args(rt).ok()?;
    words.next();
    words.next()
}

fn compare<R: Threads + Wait + Clock + Files + Sync + AllocGlobal>(
    rt: &R,
    report: &mut Report,
    name: &str,
) {
    if name.ends_with("scenes.txt") {
        compare_scenes(rt, report, name);
    } else {
        compare_rows(rt, report, name);
    }
}

fn compare_all<R: Threads + Wait + Clock + Files + Sync + AllocGlobal>(
    rt: &R,
    report: &mut Report,
) {
    for name in [
        "runs.txt",
        "kept.txt",
        "watched.txt",
        "stopped.txt",
        "scenes.txt",
        "wrong.txt",
        "wrong_scenes.txt",
    ] {
        compare(rt, report, name);
    }
    boards::show(rt, report);
    built::show(rt, report);
    told::show(rt, report);
}
