//! Bodies of which two wait for each other.
use kpn_body::Body;
use kpn_net::{Answer, Card, Local, Net, Token};
use kpn_standard::{Standard, answer};
use std::alloc::{AllocError, Global};
use std::marker::Model;
use std::sync::Arc;
use std::sync::atomic::{AtomicU64, Ordering};
use std::thread;
use test_kit::Cells;

/// Which two processes wait for each other, and at which of their calls; 0 stands for the first three calls and each
/// multiple of ten thousand.
#[derive(Clone, Copy)]
pub(crate) struct Meeting {
    left: usize,
    right: usize,
    call: u64,
}

impl Meeting {
    /// Reads `plain`, for nobody who waits; or `meet` with the two processes and the call.
    pub(crate) fn read(question: &mut Cells<'_>) -> Meeting {
        if question.word() == "plain" {
            return Meeting {
                left: usize::MAX,
                right: usize::MAX,
                call: 1,
            };
        }
        Meeting::between(question)
    }

    /// Reads the two processes and the call.
    pub(crate) fn between(question: &mut Cells<'_>) -> Meeting {
        Meeting {
            left: question.below(64),
            right: question.below(64),
            call: question.number(),
        }
    }

    fn is_at(self, call: u64) -> bool {
        if self.call == 0 {
            call <= 3 || call % 10_000 == 0
        } else {
            call == self.call
        }
    }

    fn side_of(self, process: usize) -> Side {
        if process == self.left {
            Side::Left
        } else if process == self.right {
            Side::Right
        } else {
            Side::Neither
        }
    }
}

#[derive(Clone, Copy)]
enum Side {
    Left,
    Right,
    Neither,
}

/// How often each body was called, and how often one saw that the other had come as far.
#[derive(Drop)]
pub(crate) struct Calls {
    left: AtomicU64,
    right: AtomicU64,
    seen: AtomicU64,
}

impl Calls {
    pub(crate) fn new() -> Calls {
        Calls {
            left: AtomicU64::new(0),
            right: AtomicU64::new(0),
            seen: AtomicU64::new(0),
        }
    }

    /// Returns how often one saw the other: twice for each meeting.
    pub(crate) fn seen(&self) -> u64 {
        self.seen.load(Ordering::SeqCst)
    }
}

/// Counts a call and, if it is one of the meeting's, waits until the other has come as far. It yields between two looks.
/// If the other never comes, the program never ends.
fn meet(meeting: Meeting, side: Side, calls: &Calls) {
    let (mine, other) = match side {
        Side::Left => (&calls.left, &calls.right),
        Side::Right => (&calls.right, &calls.left),
        Side::Neither => return,
    };
    let call = mine.fetch_add(1, Ordering::SeqCst).wrapping_add(1);
    if !meeting.is_at(call) {
        return;
    }
    for _ in 0..u64::MAX {
        if other.load(Ordering::SeqCst) >= call {
            calls.seen.fetch_add(1, Ordering::SeqCst);
            return;
        }
        thread::yield_now();
    }
}

/// The body of a standard card. It may wait for another's.
#[derive(Drop)]
pub(crate) struct Meeter {
    card: Card,
    meeting: Meeting,
    side: Side,
    calls: Arc<Calls>,
}

impl Model for Meeter {
    ghost use Rattle.std.specs.Prelude.{IsSome};
    ghost use Rattle.kpn_model.specs.declared.kinds.Card.{Card};
    ghost use Rattle.kpn_standard.specs.Signatures.{signature};

    ghost Value = { Card };

    ghost view = { λ b. b.card };

    ghost invariant = { λ b. IsSome (signature b.card) };
}

impl Body for Meeter {
    type Kinds = Standard;

    ghost card = { λ body. body };

    fn card(&self) -> Card {
        self.card
    }

    fn answer(&self, local: Local, last: Option<Token>) -> Answer {
        meet(self.meeting, self.side, &self.calls);
        answer(self.card, local, last)
    }
}

/// Errors: out of memory.
pub(crate) fn meeters(
    alloc: Global,
    net: &Net<Standard>,
    meeting: Meeting,
    calls: &Arc<Calls>,
) -> Result<Vec<Meeter>, AllocError> {
    let mut bodies = Vec::new(alloc);
    for process in 0..net.processes() {
        let Ok(calls) = Arc::try_clone(calls) else {
            return Err(AllocError);
        };
        bodies.push(Meeter {
            card: net.card(process),
            meeting,
            side: meeting.side_of(process),
            calls,
        })?;
    }
    Ok(bodies)
}
