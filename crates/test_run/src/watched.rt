//! Watched runs.
use crate::meeting::{Calls, Meeting};
use crate::networks::NetAndBodies;
use crate::runs::{handed_back, meeting_parts};
use crate::telling::say_told;
use kpn_observe::{
    Observer, Phase, Progress, WatchedFault, WatchedRun, Wish, chronicle_report, run_watched,
};
use kpn_run::Open;
use kpn_standard::Standard;
use std::alloc::{AllocError, Global};
use std::fmt::Write as _;
use std::rt::{Clock, Files};
use std::sync::atomic::{AtomicBool, AtomicU64, Ordering};
use std::sync::{Arc, Wait};
use std::thread::Threads;
use std::time::Duration;
use test_kit::Cells;

pub(crate) fn often() -> Duration {
    Duration::from_millis(1)
}

/// Counts how often it is asked, keeps the last number of entries and whether the run had ended, and stops a
/// run that has `stops_at` entries.
#[derive(Drop)]
pub(crate) struct Witness {
    stops_at: u64,
    asked: AtomicU64,
    /// The number of entries seen last.
    pub(crate) entries: AtomicU64,
    ended: AtomicBool,
}

impl Witness {
    pub(crate) fn new(stops_at: u64) -> Witness {
        Witness {
            stops_at,
            asked: AtomicU64::new(0),
            entries: AtomicU64::new(0),
            ended: AtomicBool::new(false),
        }
    }

    /// Appends the number of entries seen last, whether the run had ended then, and how often it was asked; 2 stands for
    /// more.
    fn tell(&self, answer: &mut String) -> Result<(), AllocError> {
        let ended = self.ended.load(Ordering::SeqCst);
        let asked = self.asked.load(Ordering::SeqCst).min(2);
        let entries = self.entries.load(Ordering::SeqCst);
        write!(answer, " | saw {entries} {ended} {asked}")
    }
}

impl Observer for Witness {
    fn see(&self, progress: Progress) -> Wish {
        self.asked.fetch_add(1, Ordering::SeqCst);
        let entries = u64::from(progress.entries);
        self.entries.store(entries, Ordering::SeqCst);
        let ended = progress.phase != Phase::Running;
        self.ended.store(ended, Ordering::SeqCst);
        if entries >= self.stops_at {
            Wish::Stop
        } else {
            Wish::GoOn
        }
    }
}

/// Answers `watch NETWORK WORKERS CHANNEL BODIES ENTRIES`: what the run leaves, and what an observer saw that stops it once
/// it has so many entries.
pub(crate) fn tell_watched<R: Threads + Wait + Clock + Files + Sync + AllocGlobal>(
    rt: &R,
    alloc: Global,
    question: &mut Cells<'_>,
    answer: &mut String,
) -> Result<(), AllocError> {
    let name = question.word();
    let workers = question.below(18);
    let channel = question.word();
    let meeting = Meeting::read(question);
    let witness = Witness::new(question.number());
    let calls = Arc::new(alloc, Calls::new())?;
    let NetAndBodies { net, bodies } = meeting_parts(rt, name, meeting, &calls, answer)?;
    let period = often();
    match run_watched(rt, alloc, net, bodies, workers, &Open, period, &witness) {
        Ok(run) => tell_left(alloc, &run, channel, answer)?,
        Err(WatchedFault::Stopped { net, bodies }) => {
            write!(answer, "stopped {} {}", net.processes(), bodies.len())?;
        }
        Err(WatchedFault::Failed(fault)) => drop(handed_back(fault, answer)?),
    }
    witness.tell(answer)?;
    write!(answer, " | seen {}", calls.seen())
}

/// Appends the numbers of receipts and entries; where the report says that the processes are; and what it says.
pub(crate) fn tell_left(
    alloc: Global,
    run: &WatchedRun<Standard>,
    channel: &str,
    answer: &mut String,
) -> Result<(), AllocError> {
    write!(answer, "{} {} ", run.receipts(), run.history().len())?;
    let report = chronicle_report(alloc, run.chronicle())?;
    if let Some(report) = report {
        write!(answer, "{:?} ", report.end)?;
        if let Some(detail) = report.detail {
            write!(answer, "{:?} ", detail.places.as_slice())?;
        }
    }
    say_told(alloc, run.chronicle(), channel, answer)
}
