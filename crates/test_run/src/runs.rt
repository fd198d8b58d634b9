//! Runs by one worker and by several.
use crate::gates::CountingGate;
use crate::meeting::{Calls, Meeter, Meeting, meeters};
use crate::networks::{NetAndBodies, network};
use crate::telling::{tell, tell_spent};
use kpn_body::Body;
use kpn_net::End;
use kpn_report::Report;
use kpn_run::{Finish, Gate, RunFault, report, run};
use kpn_standard::Standard;
use std::alloc::{AllocError, Global};
use std::fmt::Write as _;
use std::rt::{Clock, Files};
use std::sync::{Arc, Wait};
use std::thread::Threads;
use test_kit::Cells;

/// Answers `run NETWORK BODIES GATE WORKERS CHANNEL`: what the run leaves, what the gate saw, and how often a body saw
/// another. WORKERS are numbers with a comma between two, which are tried in turn, with what the last failure handed back,
/// until a run comes to its end; a number with a `-` is tried without the last body.
pub(crate) fn tell_run<R: Threads + Wait + Clock + Files + Sync + AllocGlobal>(
    rt: &R,
    alloc: Global,
    question: &mut Cells<'_>,
    answer: &mut String,
) -> Result<(), AllocError> {
    let name = question.word();
    let meeting = Meeting::read(question);
    let gate = CountingGate::read(question);
    let workers = question.word();
    let channel = question.word();
    let calls = Arc::new(alloc, Calls::new())?;
    let parts = meeting_parts(rt, name, meeting, &calls, answer)?;
    let finish = run_in_turn(rt, alloc, parts, workers, &gate, answer)?;
    let report = report_again(alloc, &finish, answer)?;
    if report.end == End::Budget {
        return tell_spent(alloc, &finish, &report, channel, answer);
    }
    tell(alloc, &finish, &report, channel, answer)?;
    gate.tell(finish.net().processes(), finish.receipts(), answer)?;
    write!(answer, " | seen {}", calls.seen())
}

/// Errors: there is no such network, or memory is refused.
pub(crate) fn meeting_parts<R: Files + AllocGlobal>(
    rt: &R,
    name: &str,
    meeting: Meeting,
    calls: &Arc<Calls>,
    answer: &mut String,
) -> Result<NetAndBodies<Meeter>, AllocError> {
    let Ok(net) = network(rt, name, answer) else {
        return Err(AllocError);
    };
    let bodies = meeters(rt.alloc(), &net, meeting, calls)?;
    Ok(NetAndBodies { net, bodies })
}

/// Errors: none of the runs came to its end, or memory is refused.
fn run_in_turn<B: Body, R: Threads + Wait + Clock + Sync, G: Gate>(
    rt: &R,
    alloc: Global,
    parts: NetAndBodies<B>,
    workers: &str,
    gate: &G,
    answer: &mut String,
) -> Result<Finish<B::Kinds>, AllocError> {
    let mut parts = parts;
    for workers in workers.split(",") {
        let (digits, last) = match workers.strip_suffix("-") {
            Some(digits) => (digits, parts.bodies.pop()),
            None => (workers, None),
        };
        let NetAndBodies { net, bodies } = parts;
        let number = digits.parse::<usize>().unwrap_or(usize::MAX);
        match run(rt, alloc, net, bodies, number, gate) {
            Ok(finish) => return Ok(finish),
            Err(fault) => parts = handed_back(fault, answer)?,
        }
        answer.push_str(", ")?;
        if let Some(body) = last {
            parts.bodies.push(body)?;
        }
    }
    Err(AllocError)
}

/// Appends the fault's number, what is wrong with the bodies, if that is it, and the numbers of processes and bodies.
/// Returns what it hands back.
///
/// Errors: an answer was lost, or memory is refused.
pub(crate) fn handed_back<B: Body>(
    fault: RunFault<B>,
    answer: &mut String,
) -> Result<NetAndBodies<B>, AllocError> {
    let number = fault.number();
    let (parts, wrong) = match fault {
        RunFault::Workers { net, bodies } => (NetAndBodies { net, bodies }, None),
        RunFault::Open { net, bodies, fault } => (NetAndBodies { net, bodies }, Some(fault)),
        RunFault::Memory { net, bodies } => (NetAndBodies { net, bodies }, None),
        RunFault::Lost {
            answered: _answered,
            body: _body,
        } => {
            answer.push_str("lost")?;
            return Err(AllocError);
        }
    };
    let (processes, bodies) = (parts.net.processes(), parts.bodies.len());
    write!(answer, "{number} {wrong:?} {processes} {bodies}")?;
    Ok(parts)
}

/// If memory is refused, the answer says so, and the report is asked for once more.
fn report_again(
    alloc: Global,
    finish: &Finish<Standard>,
    answer: &mut String,
) -> Result<Report, AllocError> {
    if let Ok(told) = report(alloc, finish) {
        return Ok(told);
    }
    answer.push_str("report refused, ")?;
    report(alloc, finish)
}
