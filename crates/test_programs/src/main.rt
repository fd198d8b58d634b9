//! Tests of what no command of `kpn` shows: arguments, input and output that fail in mid-stream, how often bodies are called,
//! memory and threads refused while a network runs, and examples of kinds of one's own and of least room.
//!
//! With the name of a run of `refusals` as its argument it makes that run alone, and prints what was refused of it.
#![tactic(auto)]

mod arguments;
mod called;
mod counting;
mod examples;
mod front;
mod refusals;
mod texts;

use std::env;
use std::process::ExitCode;
use std::rt::{Clock, Files};
use std::sync::Wait;
use std::thread::Threads;
use test_kit::{Report, compare_file};

fn main(rt: HostRuntime) -> ExitCode {
    let words: Option<Vec<String>> = match env::args(&rt) {
        Ok(arguments) => arguments.collect(rt.alloc()).ok(),
        Err(_) => None,
    };
    let Some(words) = words else {
        let is_told = println!(rt; "refused: elsewhere").is_ok();
        return ExitCode::from(if is_told { 0 } else { 1 });
    };
    match words.get(1) {
        Some(run) => refusals::tell(&rt, run.as_str()),
        None => show_all(&rt),
    }
}

fn show_all<R: Files + Print + AllocGlobal + Wait + Clock + Threads + Sync>(rt: &R) -> ExitCode {
    let mut report = Report::new(rt.alloc());
    compare_file(rt, &mut report, "arguments.txt", &arguments::Rows);
    arguments::show_steps(rt.alloc(), &mut report);
    front::show_failures(rt.alloc(), &mut report);
    front::show_lines(rt.alloc(), &mut report);
    front::show_refused(rt.alloc(), &mut report);
    counting::show(rt, &mut report);
    refusals::show(rt, &mut report);
    examples::own_kinds::show(rt, &mut report);
    examples::least_room::show(rt.alloc(), &mut report);
    report.print(rt)
}
