//! Tests of machines, flows and streams, and of what these are made of. Values due are worked out by hand.
//!
//! Given `refuse` and one of `machine` and `flow`, it runs one of these whichever request for memory fails, and prints
//! which one that was: tests/refuse_each_allocation_of_the_library makes each fail in turn.
#![tactic(auto)]

mod columns;
mod flows;
mod lookers;
mod machines;
mod networks;
mod refusals;
mod rosters;
mod scenes;
mod streams;

use crate::networks::Networks;
use std::process::ExitCode;
use test_kit::{Report, compare_file};

fn main(rt: HostRuntime) -> ExitCode {
    let mut report = Report::new(rt.alloc());
    let networks = Networks::read(&rt, &mut report);
    if let Some(what) = refusals::asked_for(&rt) {
        return refusals::tell(&rt, &networks, what);
    }
    let machines = machines::Machines::new(&networks);
    for name in ["machines.txt", "strangers.txt"] {
        compare_file(&rt, &mut report, name, &machines);
    }
    compare_file(&rt, &mut report, "flows.txt", &flows::Flows::new(&networks));
    compare_file(
        &rt,
        &mut report,
        "streams.txt",
        &streams::Streams::new(&networks),
    );
    compare_file(
        &rt,
        &mut report,
        "tables.txt",
        &columns::Tables::new(&networks),
    );
    lookers::show(rt.alloc(), &mut report, &networks);
    compare_file(&rt, &mut report, "dry.txt", &scenes::Dry::new(&networks));
    scenes::show(rt.alloc(), &mut report);
    rosters::show(rt.alloc(), &mut report);
    report.print(&rt)
}
