//! Runs whose entries are kept in 16 bytes each, counted or not.
use crate::networks::{NetAndBodies, StandardParts, parts_of};
use crate::telling::say_told;
use crate::watched::{Witness, often};
use kpn_body::Body;
use kpn_compute::CardBody;
use kpn_machine::{Entry, Machine};
use kpn_net::Net;
use kpn_observe::run_watched_with_keeper;
use kpn_report::Tallied;
use kpn_run::{Open, run, run_with_keeper};
use kpn_standard::Standard;
use kpn_state::{Keeper, Packed, Recall};
use std::alloc::{AllocError, Global};
use std::fmt::Write as _;
use std::rt::{Clock, Files};
use std::sync::Wait;
use std::thread::Threads;
use test_kit::Cells;

/// Answers `keep NETWORK HOW WORKERS CHANNEL`. HOW is `alone` and `tallied`, with counted entries; `wide`, `packed`; `deeds`
/// and `watched`, which tell the receipts, the entries, and the deeds of the first two processes; or `entries`.
pub(crate) fn tell_kept<R: Threads + Wait + Clock + Files + Sync + AllocGlobal>(
    rt: &R,
    alloc: Global,
    question: &mut Cells<'_>,
    answer: &mut String,
) -> Result<(), AllocError> {
    let parts = parts_of(rt, question.word(), answer)?;
    let how = question.word();
    let workers = question.below(17);
    let channel = question.word();
    match how {
        "alone" => tell_alone(alloc, parts, channel, answer),
        "tallied" => tell_tallied(rt, alloc, parts, workers, channel, answer),
        "wide" => tell_wide(rt, alloc, parts, workers, channel, answer),
        "watched" => tell_watched(rt, alloc, parts, workers, answer),
        "entries" => tell_entries(alloc, parts.net, parts.bodies, answer),
        _ => tell_packed(rt, alloc, parts, workers, channel, answer),
    }
}

fn tell_alone(
    alloc: Global,
    parts: StandardParts,
    channel: &str,
    answer: &mut String,
) -> Result<(), AllocError> {
    let NetAndBodies { net, bodies } = parts;
    let opened = Machine::<CardBody<Standard>, Tallied>::open_with_keeper(alloc, net, bodies);
    let Ok(mut machine) = opened else {
        return Err(AllocError);
    };
    machine.finish_alone();
    say_told(alloc, &machine.into_chronicle(), channel, answer)
}

fn tell_tallied<R: Wait + Clock + Threads + Sync>(
    rt: &R,
    alloc: Global,
    parts: StandardParts,
    workers: usize,
    channel: &str,
    answer: &mut String,
) -> Result<(), AllocError> {
    let NetAndBodies { net, bodies } = parts;
    let ran = run_with_keeper::<CardBody<Standard>, Tallied, R, Open>(
        rt, alloc, net, bodies, workers, &Open,
    );
    match ran {
        Ok(finish) => say_told(alloc, finish.chronicle(), channel, answer),
        Err(_) => Err(AllocError),
    }
}

fn tell_wide<R: Wait + Clock + Threads + Sync>(
    rt: &R,
    alloc: Global,
    parts: StandardParts,
    workers: usize,
    channel: &str,
    sink: &mut String,
) -> Result<(), AllocError> {
    let NetAndBodies { net, bodies } = parts;
    match run(rt, alloc, net, bodies, workers, &Open) {
        Ok(finish) => say_told(alloc, finish.chronicle(), channel, sink),
        Err(_) => Err(AllocError),
    }
}

/// Tells the deeds too, if no channel is to be shown.
fn tell_packed<R: Wait + Clock + Threads + Sync>(
    rt: &R,
    alloc: Global,
    parts: StandardParts,
    workers: usize,
    channel: &str,
    answer: &mut String,
) -> Result<(), AllocError> {
    let NetAndBodies { net, bodies } = parts;
    let ran = run_with_keeper::<CardBody<Standard>, Packed, R, Open>(
        rt, alloc, net, bodies, workers, &Open,
    );
    let Ok(finish) = ran else {
        return Err(AllocError);
    };
    if channel == "-" {
        tell_deeds(finish.chronicle().keeper(), finish.receipts(), answer)?;
        answer.push_str(" ")?;
    }
    say_told(alloc, finish.chronicle(), channel, answer)
}

/// Appends the deeds of the first two processes, each in order; their interleaving is free.
fn tell_deeds(kept: &Packed, receipts: u64, answer: &mut String) -> Result<(), AllocError> {
    write!(answer, "{receipts} {}", kept.count())?;
    for process in 0..2usize {
        write!(answer, " {process}:")?;
        for place in 0..kept.count() {
            if let Entry::Did { process: by, deed } = kept.entry(place) {
                if by == process {
                    write!(answer, " {deed:?}")?;
                }
            }
        }
    }
    Ok(())
}

fn tell_watched<R: Wait + Clock + Threads + Sync>(
    rt: &R,
    alloc: Global,
    parts: StandardParts,
    workers: usize,
    answer: &mut String,
) -> Result<(), AllocError> {
    let NetAndBodies { net, bodies } = parts;
    let witness = &Witness::new(u64::MAX);
    let ran = run_watched_with_keeper::<CardBody<Standard>, Packed, R, Open, Witness>(
        rt,
        alloc,
        net,
        bodies,
        workers,
        &Open,
        often(),
        witness,
    );
    match ran {
        Ok(run) => tell_deeds(run.chronicle().keeper(), run.receipts(), answer),
        Err(_) => Err(AllocError),
    }
}

fn tell_entries<B: Body>(
    alloc: Global,
    net: Net<B::Kinds>,
    bodies: Vec<B>,
    answer: &mut String,
) -> Result<(), AllocError> {
    let Ok(mut machine) = Machine::<B, Packed>::open_with_keeper(alloc, net, bodies) else {
        return Err(AllocError);
    };
    machine.finish_alone();
    write!(answer, "{}", machine.entries())
}
