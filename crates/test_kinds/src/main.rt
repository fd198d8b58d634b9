//! Tests of what needs no machine: kinds, tokens in files, networks and their faults, verdicts and pictures.
//! Values due are worked out by hand, or with Python's struct, wave and csv modules.
#![tactic(auto)]

mod files;
mod kinds;
mod layouts;
mod messages;
mod nets;
mod pictures;
mod running;
mod sketches;
mod tokens;

use std::process::ExitCode;
use test_kit::{Report, compare_file};

fn main(rt: HostRuntime) -> ExitCode {
    let mut report = Report::new(rt.alloc());
    compare_file(&rt, &mut report, "standard.txt", &kinds::Rows);
    compare_file(&rt, &mut report, "signals.txt", &kinds::Rows);
    compare_file(&rt, &mut report, "own_kinds.txt", &kinds::Rows);
    compare_file(&rt, &mut report, "lines.txt", &tokens::Rows);
    compare_file(&rt, &mut report, "samples.txt", &tokens::Rows);
    compare_file(&rt, &mut report, "tables.txt", &tokens::Rows);
    compare_file(&rt, &mut report, "heads.txt", &files::Rows);
    compare_file(&rt, &mut report, "wrong.txt", &files::Rows);
    compare_file(&rt, &mut report, "messages.txt", &messages::Rows);
    compare_file(&rt, &mut report, "names.txt", &sketches::Rows);
    sketches::show(&rt, &mut report);
    nets::show(&rt, &mut report);
    pictures::show(&rt, &mut report);
    report.print(&rt)
}
