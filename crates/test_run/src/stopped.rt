//! Runs that an observer stops.
use crate::gates::CountingGate;
use crate::networks::{NetAndBodies, parts_of};
use crate::watched::{Witness, often};
use kpn_machine::Standing;
use kpn_net::Token;
use kpn_observe::{WatchedRun, chronicle_report, run_watched};
use kpn_run::stream_of;
use kpn_standard::Standard;
use std::alloc::{AllocError, Global};
use std::fmt::Write as _;
use std::rt::{Clock, Files};
use std::sync::Wait;
use std::sync::atomic::Ordering;
use std::thread::Threads;
use test_kit::Cells;

/// Answers `stop NETWORK GATE WORKERS TRIES` with what the runs are that an observer stops after a hundred entries, until
/// one is stopped before its end. An observer may come too late, but not often.
pub(crate) fn tell_stopped<R: Threads + Wait + Clock + Files + Sync + AllocGlobal>(
    rt: &R,
    alloc: Global,
    question: &mut Cells<'_>,
    answer: &mut String,
) -> Result<(), AllocError> {
    let name = question.word();
    let gate = CountingGate::read(question);
    let workers = question.below(17);
    for _try in 0..question.below(100) {
        if is_stopped(rt, alloc, name, &gate, workers, answer)? {
            break;
        }
    }
    Ok(())
}

/// Appends what is wrong with the run; or, if it has no end, that it is sound.
fn is_stopped<R: Threads + Wait + Clock + Files + Sync + AllocGlobal>(
    rt: &R,
    alloc: Global,
    name: &str,
    gate: &CountingGate,
    workers: usize,
    answer: &mut String,
) -> Result<bool, AllocError> {
    let NetAndBodies { net, bodies } = parts_of(rt, name, answer)?;
    let witness = Witness::new(100);
    let Ok(run) = run_watched(rt, alloc, net, bodies, workers, gate, often(), &witness) else {
        return Err(AllocError);
    };
    let entries = run.history().len() as u64;
    let is_counted = run.receipts() == entries && witness.entries.load(Ordering::SeqCst) == entries;
    let put = put_by(alloc, &run)?;
    let is_out = run
        .standings()
        .iter()
        .any(|standing| matches!(standing, Standing::Out));
    if !is_counted || put.is_none() || is_out {
        write!(answer, "unsound {:?} {entries} {put:?}", run.end())?;
        return Ok(true);
    }
    if run.end().is_some() {
        return Ok(false);
    }
    let is_told = chronicle_report(alloc, run.chronicle())?.is_some();
    let is_part = 100 <= entries && entries < 1_000_000 && put.unwrap_or(0) >= 49;
    write!(answer, "stopped, a part {is_part}, reported {is_told}")?;
    Ok(true)
}

/// Returns how many words were put on the first channel; or `None`, if they don't count from 1 on.
fn put_by(alloc: Global, run: &WatchedRun<Standard>) -> Result<Option<u64>, AllocError> {
    let stream = stream_of(alloc, run.net(), run.history(), 0)?;
    let mut put = 0u64;
    for token in stream.as_slice() {
        put = put.saturating_add(1);
        if *token != Token::Word(put) {
            return Ok(None);
        }
    }
    Ok(Some(put))
}
