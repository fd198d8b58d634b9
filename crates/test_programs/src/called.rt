//! Bodies that count their calls, and may wait for each other's first one.
ghost use Rattle.std.specs.Prelude.{◌≡◌, IsSome, IfOk, map};
ghost use Rattle.kpn_machine.specs.Opening.{cards_of};
ghost use Rattle.kpn_standard.specs.Signatures.{signature};

use kpn_body::Body;
use kpn_net::{Answer, Card, Local, Net, Token};
use kpn_standard::{Standard, answer};
use std::alloc::{AllocError, Global};
use std::sync::Arc;
use std::sync::atomic::{AtomicU64, Ordering};
use std::thread;

/// How often the counter's body and the others were called, and how many saw the other's first call.
#[derive(Drop)]
pub(crate) struct Calls {
    pub(crate) counter: AtomicU64,
    pub(crate) others: AtomicU64,
    pub(crate) seen: AtomicU64,
    waits: bool,
}

impl Calls {
    /// None yet. If `waits`, each body waits at its first call until the other is called.
    pub(crate) fn none(waits: bool) -> Calls {
        Calls {
            counter: AtomicU64::new(0),
            others: AtomicU64::new(0),
            seen: AtomicU64::new(0),
            waits,
        }
    }

    /// Counts a call. If it is a body's first, it may wait until the other was called. It yields between two looks. If
    /// the other is never called, the test times out after a minute.
    fn called(&self, is_counter: bool) {
        let (mine, other) = if is_counter {
            (&self.counter, &self.others)
        } else {
            (&self.others, &self.counter)
        };
        if mine.fetch_add(1, Ordering::SeqCst) != 0 || !self.waits {
            return;
        }
        for _ in 0..u64::MAX {
            if other.load(Ordering::SeqCst) > 0 {
                self.seen.fetch_add(1, Ordering::SeqCst);
                return;
            }
            thread::yield_now();
        }
    }
}

#[derive(Drop)]
pub(crate) struct CalledBody {
    card: Card,
    is_counter: bool,
    calls: Arc<Calls>,
    ghost signed: { IsSome (signature card) },
}

impl Body for CalledBody {
    type Kinds = Standard;

    ghost card = { λ body. body.card };

    fn card(&self) -> Card {
        self.card
    }

    fn answer(&self, local: Local, last: Option<Token>) -> Answer {
        self.calls.called(self.is_counter);
        answer(self.card, local, last)
    }
}

/// Makes the body of a process: the first is the counter.
pub(crate) fn called_body(
    card: Card,
    process: usize,
    calls: &Arc<Calls>,
) -> Result<CalledBody, AllocError>
    requires { IsSome (signature card) }
    ensures { IfOk result (λ body. body.card ≡ card) }
{
    Ok(CalledBody {
        card,
        is_counter: process == 0,
        calls: Arc::try_clone(calls)?,
    })
}

pub(crate) fn called_bodies(
    alloc: Global,
    net: &Net<Standard>,
    calls: &Arc<Calls>,
) -> Result<Vec<CalledBody>, AllocError>
    ensures { IfOk result (λ bodies. map (λ b. b.card) bodies.items ≡ cards_of net.now.processes) }
{
    let mut bodies = Vec::new(alloc);
    for process in 0..net.processes() {
        bodies.push(called_body(net.card(process), process, calls)?)?;
    }
    Ok(bodies)
}
