//! Reports part by part: of a history worked out by hand, and of a run.
use crate::boards::{put, stopped, took};
use crate::networks::{NetAndBodies, parts_of};
use kpn_net::{End, Entry, Net, Place};
use kpn_report::{report_of, text_of};
use kpn_run::{
    Detail, Finish, Gate, Growths, Open, Places, Report, Sizes, Steps, Stream, Streams, report,
    run, stream_of,
};
use kpn_standard::Standard;
use std::alloc::{AllocError, Global};
use std::rt::{Clock, Files};
use std::sync::Wait;
use std::thread::Threads;
use test_kit::Report as Shown;

/// Plays the scenes, if there is a counter of three into a sink of three in the file.
pub(crate) fn show<R: Threads + Wait + Clock + Files + Sync + AllocGlobal>(
    rt: &R,
    report: &mut Shown,
) {
    let mut answer = String::new(rt.alloc());
    let Ok(NetAndBodies { net, bodies }) = parts_of(rt, "counter.toml", &mut answer) else {
        return report.fail("no network to report on");
    };
    for end in [End::Terminated, End::Budget] {
        if show_history(rt.alloc(), report, &net, end).is_err() {
            report.fail("no memory for a report");
        }
    }
    Open.before_commit(0);
    let Ok(finish) = run(rt, rt.alloc(), net, bodies, 2, &Open) else {
        return report.fail("no run to report");
    };
    if show_run(rt.alloc(), report, &finish).is_err() {
        report.fail("no memory for a run's report");
    }
}

/// The report of a counter of three tokens into a sink of one: after the sink stops, the channel grows.
fn show_history(
    alloc: Global,
    shown: &mut Shown,
    net: &Net<Standard>,
    end: End,
) -> Result<(), AllocError> {
    let history = [
        put(1),
        took(1),
        put(2),
        stopped(1),
        Entry::Grew { channel: 0, to: 2 },
        put(3),
        stopped(0),
    ];
    let places = [Place::Stopped, Place::Stopped];
    let text = text_of(alloc, net, &history, &places, end, Some(0))?;
    shown.line(text.as_str());
    let places = Vec::from_slice(alloc, &places)?;
    let Report { end, detail } = report_of(alloc, net, &history, places, end)?;
    shown.show("end", end);
    show_detail(shown, detail);
    Ok(())
}

/// The network doesn't have channel 1.
fn show_run(alloc: Global, shown: &mut Shown, finish: &Finish<Standard>) -> Result<(), AllocError> {
    let none = stream_of(alloc, finish.net(), finish.history(), 1)?;
    shown.show("no stream", none.len());
    let Report { end, detail } = report(alloc, finish)?;
    shown.show("end", end);
    shown.show("alike", Place::Reads(0) == Place::Writes(0));
    show_detail(shown, detail);
    Ok(())
}

fn show_detail(shown: &mut Shown, detail: Option<Detail>) {
    let Some(detail) = detail else {
        return shown.line("no detail");
    };
    let (places, steps): (&Places, &Steps) = (&detail.places, &detail.steps);
    let (capacities, growths): (&Sizes, &Growths) = (&detail.capacities, &detail.growths);
    shown.show("places", places.as_slice());
    shown.show("steps", steps.as_slice());
    shown.show("capacities", capacities.as_slice());
    shown.show("growths", growths.as_slice());
    shown.show("entries", detail.entries);
    show_streams(shown, "stream", &detail.streams);
    show_streams(shown, "rest", &detail.rests);
}

fn show_streams(shown: &mut Shown, name: &str, streams: &Streams) {
    for stream in streams.as_slice() {
        let stream: &Stream = stream;
        shown.show(name, stream.as_slice());
    }
}
