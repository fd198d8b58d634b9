//! Runs by too few and too many workers, which are as those by 1 and by 16; and an observer of a run.
use hox_args::Direction;
use hox_draw::{WantedPicture, draw};
use hox_network::{AllKinds, Request, StreamAs, TokenFile};
use hox_run::{ProgressReceiver, SoFar, serve};
use kpn_net::{Listed, Text};
use kpn_tokens::{Decimals, Layout};
use std::alloc::{AllocError, Global};
use std::fs;
use std::rt::{Clock, Files};
use std::sync::Wait;
use std::sync::atomic::{AtomicU64, Ordering};
use std::thread::Threads;
use test_kit::Report;

/// Counts the calls of `tell`, and keeps the last number of entries.
#[derive(Drop)]
struct Listener {
    told: AtomicU64,
    entries: AtomicU64,
}

impl ProgressReceiver for Listener {
    fn is_wanted(&self) -> bool {
        true
    }

    fn is_due(&self) -> bool {
        true
    }

    fn tell(&self, so_far: SoFar) {
        self.told.fetch_add(1, Ordering::SeqCst);
        self.entries.store(so_far.entries, Ordering::SeqCst);
    }
}

/// Nothing is read, shown or written.
fn asked(alloc: Global, workers: usize) -> Request {
    Request {
        workers,
        budget: None,
        tokens: Listed::new(Vec::new(alloc)),
        show: Listed::new(Vec::new(alloc)),
        outputs: Listed::new(Vec::new(alloc)),
    }
}

fn name(alloc: Global, text: &str) -> Result<Text, AllocError> {
    Ok(Text::new(String::from_str(alloc, text)?))
}

/// Channel a is shown twice; or channel x has two words of a file, and y is written.
fn request(alloc: Global, workers: usize, shows: bool) -> Result<Request, AllocError> {
    let mut request = asked(alloc, workers);
    if shows {
        for _ in 0..2 {
            request.show.push(StreamAs {
                channel: name(alloc, "a")?,
                written: Decimals::WHOLE,
            })?;
        }
        return Ok(request);
    }
    request.tokens.push(TokenFile {
        channel: name(alloc, "x")?,
        layout: Layout::PLAIN,
        bytes: Listed::new(Vec::from_slice(alloc, b"1, first\n0x10")?),
        rate: None,
    })?;
    request.outputs.push(StreamAs {
        channel: name(alloc, "y")?,
        written: Layout::PLAIN,
    })?;
    Ok(request)
}

pub(crate) fn show<R: Files + AllocGlobal + Wait + Clock + Threads + Sync>(
    rt: &R,
    report: &mut Report,
) {
    let listener = Listener {
        told: AtomicU64::new(0),
        entries: AtomicU64::new(0),
    };
    run(
        rt,
        report,
        "endless.toml",
        request(rt.alloc(), 1, true),
        &listener,
    );
    let told = listener.told.load(Ordering::SeqCst);
    report.show(
        "told, entries",
        (told, listener.entries.load(Ordering::SeqCst)),
    );
    for workers in [0, 17] {
        run(
            rt,
            report,
            "copy.toml",
            request(rt.alloc(), workers, false),
            &listener,
        );
        picture(rt, report, workers);
    }
}

/// A run's exit status, its report, and the tokens of its outputs.
fn run<R: Files + AllocGlobal + Wait + Clock + Threads + Sync>(
    rt: &R,
    report: &mut Report,
    file: &str,
    request: Result<Request, AllocError>,
    listener: &Listener,
) {
    let (Ok(request), Ok(text)) = (request, fs::read(rt, file)) else {
        report.fail(file);
        return;
    };
    let mut source = text.as_slice();
    match serve::<AllKinds, _, _, _>(rt, rt.alloc(), &request, &mut source, listener) {
        Ok(told) => {
            report.show(file, told.status.code());
            report.line(told.report.as_str());
            for output in told.outputs.as_slice() {
                report.show("tokens", output.tokens.as_slice());
            }
        }
        Err(_) => report.fail(file),
    }
}

/// A run's picture.
fn picture<R: Files + AllocGlobal + Wait + Clock + Threads + Sync>(
    rt: &R,
    report: &mut Report,
    workers: usize,
) {
    let Ok(text) = fs::read(rt, "loop.toml") else {
        report.fail("loop.toml");
        return;
    };
    let wanted = WantedPicture {
        request: &asked(rt.alloc(), workers),
        direction: Direction::Right,
        is_run: true,
    };
    let mut source = text.as_slice();
    match draw::<AllKinds, _, _>(rt, rt.alloc(), &wanted, &mut source) {
        Ok(picture) => report.line(picture.as_str()),
        Err(_) => report.fail("loop.toml"),
    }
}
