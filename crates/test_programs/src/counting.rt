//! How often bodies are called, and bodies that wait for each other, run as the program runs its own.
use crate::called::{Calls, called_bodies, called_body};
use crate::texts::COUNTER;
use kpn_body::Task;
use kpn_execute::{execute, load};
use kpn_net::{Card, Net, NetFault};
use kpn_standard::Standard;
use std::alloc::{AllocError, Global};
use std::rt::Clock;
use std::sync::atomic::Ordering;
use std::sync::{Arc, Wait};
use std::thread::Threads;
use test_kit::Report;

pub(crate) fn network_of(alloc: Global, text: &str) -> Result<Net<Standard>, NetFault> {
    let mut source = text.as_bytes();
    load(alloc, &mut source)
}

/// The bodies are called once for each deed, and not at all if no channel has the name to show. With no worker one runs the
/// network, and with 17 sixteen do. Bodies that wait at their first call, until the other's began, meet.
pub(crate) fn show<R: Threads + Wait + Clock + AllocGlobal + Sync>(rt: &R, report: &mut Report) {
    for workers in [0, 1, 2, 16, 17] {
        show_calls(rt, rt.alloc(), report, "c0", false, workers);
        show_calls(rt, rt.alloc(), report, "c9", false, workers);
    }
    for workers in [2, 4, 16] {
        show_calls(rt, rt.alloc(), report, "c0", true, workers);
    }
    match a_task_calls_its_body_once(rt.alloc(), report) {
        Ok(()) => {}
        Err(_) => report.fail("no memory"),
    }
}

/// Runs the counter: the exit status, how often its body and the sink's were called, how many saw the other's first call, and
/// what is written.
fn show_calls<R: Threads + Wait + Clock + Sync>(
    rt: &R,
    alloc: Global,
    report: &mut Report,
    name: &str,
    waits: bool,
    workers: usize,
) {
    let (Ok(calls), Ok(net)) = (
        Arc::new(alloc, Calls::none(waits)),
        network_of(alloc, COUNTER),
    ) else {
        report.fail(name);
        return;
    };
    let Ok(bodies) = called_bodies(alloc, &net, &calls) else {
        report.fail(name);
        return;
    };
    let mut out = Vec::new(alloc);
    let status = execute(rt, alloc, net, bodies, workers, Some(name), &mut out);
    report.show("workers", workers);
    report.show(name, status);
    report.show(
        "calls",
        (
            calls.counter.load(Ordering::SeqCst),
            calls.others.load(Ordering::SeqCst),
        ),
    );
    report.show("seen", calls.seen.load(Ordering::SeqCst));
    report.show("written", std::str::from_utf8(out.as_slice()));
}

fn a_task_calls_its_body_once(alloc: Global, report: &mut Report) -> Result<(), AllocError> {
    let calls = Arc::new(alloc, Calls::none(false))?;
    let copy = Card {
        kind: 3,
        args: [0; 3],
    };
    let task = Task::new(0, called_body(copy, 0, &calls)?, [0; 4], None);
    report.show("calls before", calls.counter.load(Ordering::SeqCst));
    report.show("act", task.call().answer().act);
    report.show("calls after", calls.counter.load(Ordering::SeqCst));
    Ok(())
}
