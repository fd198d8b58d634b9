//! An onlooker of a stream.
use crate::networks::Networks;
use crate::streams::served;
use hox_stream::{Fill, Moved, Onlooker};
use kpn_tokens::Layout;
use std::alloc::Global;
use std::sync::atomic::{AtomicU64, Ordering};
use test_kit::Report;

/// An onlooker that keeps what it saw last.
#[derive(Drop)]
struct LastSeen {
    channels: AtomicU64,
    read: AtomicU64,
    written: AtomicU64,
}

impl Onlooker for LastSeen {
    fn is_due(&self) -> bool {
        true
    }

    fn see_channel(&self, number: usize, fill: Fill<'_>) {
        if number == 4 && fill.name == "y" && fill.tokens == 0 && fill.capacity == 1 {
            self.channels.fetch_add(1, Ordering::SeqCst);
        }
    }

    fn see_moved(&self, moved: Moved) {
        self.read.store(moved.read, Ordering::SeqCst);
        self.written.store(moved.written, Ordering::SeqCst);
    }
}

/// Whether an onlooker sees the last channel empty, and how many tokens came and went, of three.
pub(crate) fn show(alloc: Global, report: &mut Report, networks: &Networks) {
    let seen = LastSeen {
        channels: AtomicU64::new(0),
        read: AtomicU64::new(0),
        written: AtomicU64::new(0),
    };
    let plain = Layout::PLAIN;
    if served(
        alloc,
        networks,
        "sums",
        plain,
        plain,
        b"3\n-1\n300\n",
        &seen,
    )
    .is_none()
    {
        report.fail("no stream");
    }
    report.show(
        "the channel was seen",
        seen.channels.load(Ordering::SeqCst) > 0,
    );
    report.show("read", seen.read.load(Ordering::SeqCst));
    report.show("written", seen.written.load(Ordering::SeqCst));
}
