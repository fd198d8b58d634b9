//! A monitor with its seats and watchers, and the commands of scenes, as generic functions: the names of its ledgers are
//! type parameters.
ghost use Rattle.std.specs.Prelude.{◌≡◌};
ghost use Rattle.kpn_monitor.specs.Views.{AreNamesOf};

use crate::gates::CountingGate;
use crate::loose::{Loose, call_all};
use kpn_body::{Body, Finished};
use kpn_machine::Stranger;
use kpn_monitor::{Closed, EntryLedger, Monitor, Opening, Rest, Seat, Taken, Unclosed};
use kpn_net::Kinds;
use kpn_run::{Open, Worked, work, work_with};
use kpn_watch::{Progress, Watcher};
use std::alloc::{AllocError, Global};
use std::fmt::Write as _;
use std::marker::PhantomData;
use std::rt::Clock;
use std::sync::Wait;
use std::sync::atomic::{AtomicBool, Ordering};
use std::sync::ledger::Ledger;
use std::thread::{Threads, join, sleep, yield_now};
use std::time::Duration;
use test_kit::Cells;

/// A watcher of the board that a type names.
#[derive(Drop)]
struct NamedWatcher<E: EntryLedger> {
    watcher: Watcher,
    of: PhantomData<E>,
    ghost named: { watcher.board ≡ E.board },
}

impl<E: EntryLedger> NamedWatcher<E> {
    fn look<B: Body, O: Ledger>(&mut self, monitor: &Monitor<B, E, O>) -> Progress {
        monitor.look(&mut self.watcher)
    }
}

#[derive(Drop)]
pub(crate) struct Stage<B: Body, E: EntryLedger, O: Ledger> {
    monitor: Monitor<B, E, O>,
    seats: Vec<Seat<E, O>>,
    watchers: Vec<NamedWatcher<E>>,
}

impl<B: Body, E: EntryLedger + Send + Sync, O: Ledger + Send + Sync> Stage<B, E, O> {
    pub(crate) fn open(alloc: Global, opening: Opening<B>) -> Result<Stage<B, E, O>, AllocError>
        requires { AreNamesOf E.EntryLedger O.Ledger opening }
    {
        let (monitor, seat) = Monitor::open(opening);
        let seats = Vec::from_array(alloc, [seat])?;
        Ok(Stage {
            monitor,
            seats,
            watchers: Vec::new(alloc),
        })
    }

    /// Executes a command, and appends what it returned. SEAT is the number of a seat.
    ///
    /// - `split`: another seat, from the first;
    /// - `take SEAT`: a task, or the end;
    /// - `give SEAT`: commits the last answer; one that is refused is the last again;
    /// - `exchange HAND SEAT MOST`: calls the hand's tasks, and exchanges it;
    /// - `rest HAND`;
    /// - `place SEAT MOST`: asks in place;
    /// - `work`: the last seat works to the end; `count` tells how often the gate was asked, too;
    /// - `both`: the last two seats work to the end while another watcher looks a thousand times;
    /// - `wake`: the last seat works while the first gives an answer late, and leaves;
    /// - `watch MOST`: makes watchers; `look`: all of them look.
    pub(crate) fn act<R: Threads + Wait + Clock + Sync>(
        &mut self,
        rt: &R,
        verb: &str,
        loose: &mut Loose<B>,
        command: &mut Cells<'_>,
        answer: &mut String,
    ) -> Result<(), AllocError> {
        match verb {
            "split" => self.split(answer),
            "take" => self.take(rt, loose, command, answer),
            "give" => self.give(rt, loose, command, answer),
            "exchange" => self.exchange(rt, loose, command, answer),
            "rest" => self.rest(rt, loose, command, answer),
            "place" => self.place(rt, command, answer),
            "work" | "count" => self.work(rt, verb, answer),
            "both" => self.both(rt, answer),
            "wake" => self.wake(rt, loose, answer),
            "watch" => self.watch(rt, command, answer),
            "look" => self.look(answer),
            _ => Err(AllocError),
        }
    }

    fn split(&mut self, answer: &mut String) -> Result<(), AllocError> {
        let Some(first) = self.seats.first_mut() else {
            return Err(AllocError);
        };
        let Some(seat) = first.split() else {
            return answer.push_str("one part alone");
        };
        self.seats.push(seat)?;
        write!(answer, "{}", self.seats.len())
    }

    fn take<R: Wait>(
        &mut self,
        rt: &R,
        loose: &mut Loose<B>,
        command: &mut Cells<'_>,
        answer: &mut String,
    ) -> Result<(), AllocError> {
        let Some(seat) = self.seats.get_mut(command.below(100)) else {
            return Err(AllocError);
        };
        match self.monitor.take(rt, seat) {
            Taken::Over(end) => write!(answer, "over {end:?}"),
            Taken::Task(task) => {
                write!(answer, "{} {:?}", task.process(), task.local())?;
                loose.tasks.push(task)?;
                Ok(())
            }
        }
    }

    fn give<R: Wait>(
        &mut self,
        rt: &R,
        loose: &mut Loose<B>,
        command: &mut Cells<'_>,
        answer: &mut String,
    ) -> Result<(), AllocError> {
        let Some(seat) = self.seats.get_mut(command.below(100)) else {
            return Err(AllocError);
        };
        let Some(finished) = loose.answers.pop() else {
            return Err(AllocError);
        };
        match self.monitor.commit(rt, finished, seat) {
            Ok(outcome) => write!(answer, "{outcome:?}"),
            Err(Stranger { finished }) => {
                let (process, local, last) = (
                    finished.process(),
                    finished.local(),
                    finished.last(),
                );
                write!(answer, "stranger {process} {local:?} {last:?}")?;
                loose.answers.push(finished)?;
                Ok(())
            }
        }
    }

    fn exchange<R: Wait>(
        &mut self,
        rt: &R,
        loose: &mut Loose<B>,
        command: &mut Cells<'_>,
        answer: &mut String,
    ) -> Result<(), AllocError> {
        let Some(hand) = loose.hands.get_mut(command.below(100)) else {
            return Err(AllocError);
        };
        let Some(seat) = self.seats.get_mut(command.below(100)) else {
            return Err(AllocError);
        };
        call_all(rt, hand, answer);
        match self.monitor.exchange(rt, hand, seat, command.below(100)) {
            Ok(next) => write!(answer, "{:?} {next:?}", hand.outcomes()),
            Err(Stranger { finished }) => {
                let process = finished.process();
                write!(answer, "{:?} stranger {process}", hand.outcomes())
            }
        }
    }

    fn rest<R: Wait + Clock>(
        &self,
        rt: &R,
        loose: &mut Loose<B>,
        command: &mut Cells<'_>,
        answer: &mut String,
    ) -> Result<(), AllocError> {
        let Some(hand) = loose.hands.get_mut(command.below(100)) else {
            return Err(AllocError);
        };
        let limit = Duration::from_millis(1);
        let rested = self.monitor.rest(rt, hand, Rest::Idle, limit);
        write!(answer, "{rested}")
    }

    fn place<R: Wait>(
        &mut self,
        rt: &R,
        command: &mut Cells<'_>,
        answer: &mut String,
    ) -> Result<(), AllocError> {
        let Some(seat) = self.seats.get_mut(command.below(100)) else {
            return Err(AllocError);
        };
        let went = self.monitor.ask_in_place(rt, seat, command.number());
        write!(answer, "{went:?}")
    }

    fn work<R: Wait>(&mut self, rt: &R, verb: &str, answer: &mut String) -> Result<(), AllocError> {
        let Some(seat) = self.seats.pop() else {
            return Err(AllocError);
        };
        let gate = CountingGate::open();
        let Worked { seat, stranger } = work(rt, &self.monitor, seat, &gate);
        self.seats.push(seat)?;
        if stranger.is_some() {
            return answer.push_str("stranger");
        }
        if verb == "count" {
            return write!(answer, "{}", gate.asked.load(Ordering::SeqCst));
        }
        answer.push_str("to the end")
    }

    fn both<R: Threads + Wait + Sync>(
        &mut self,
        rt: &R,
        answer: &mut String,
    ) -> Result<(), AllocError> {
        let (Some(one), Some(other)) = (self.seats.pop(), self.seats.pop()) else {
            return Err(AllocError);
        };
        let monitor = &self.monitor;
        let ((rising, watcher), (one, other)) = join(
            rt,
            || look_often(rt, monitor),
            || {
                join(
                    rt,
                    || work_alone(rt, monitor, one),
                    || work_alone(rt, monitor, other),
                )
            },
        );
        if let Some(watcher) = watcher {
            self.watchers.push(watcher)?;
        }
        self.seats.push(other)?;
        self.seats.push(one)?;
        write!(answer, "rising {rising}")
    }

    fn wake<R: Threads + Wait + Clock + Sync>(
        &mut self,
        rt: &R,
        loose: &mut Loose<B>,
        answer: &mut String,
    ) -> Result<(), AllocError> {
        let (Some(stays), Some(mut leaves), Some(late)) = (
            self.seats.pop(),
            self.seats.pop(),
            loose.answers.pop(),
        ) else {
            return Err(AllocError);
        };
        let (monitor, comes) = (&self.monitor, &AtomicBool::new(false));
        let (stays, outcome) = join(
            rt,
            || {
                comes.store(true, Ordering::SeqCst);
                work_alone(rt, monitor, stays)
            },
            || {
                wait_for(rt, comes);
                monitor.commit(rt, late, &mut leaves).ok()
            },
        );
        self.seats.push(leaves)?;
        self.seats.push(stays)?;
        write!(answer, "{outcome:?}")
    }

    fn watch<R: Wait>(
        &mut self,
        rt: &R,
        command: &mut Cells<'_>,
        answer: &mut String,
    ) -> Result<(), AllocError> {
        for _ in 0..command.below(100) {
            match self.monitor.watch(rt) {
                Ok(watcher) => self.watchers.push(NamedWatcher {
                    watcher,
                    of: PhantomData,
                })?,
                Err(fault) => write!(answer, "{fault:?} {} ", fault.number())?,
            }
        }
        write!(answer, "{}", self.watchers.len())
    }

    /// Appends what the watchers saw last, and how many saw the same as the one before them.
    fn look(&mut self, answer: &mut String) -> Result<(), AllocError> {
        let mut seen = None;
        let mut alike = 0usize;
        for _ in 0..self.watchers.len() {
            let Some(mut watcher) = self.watchers.pop() else {
                break;
            };
            let progress = watcher.look(&self.monitor);
            if seen.is_none() || seen == Some(progress) {
                alike = alike.saturating_add(1);
            }
            seen = Some(progress);
            self.watchers.insert(0, watcher)?;
        }
        tell_seen(alike, seen, answer)
    }

    /// Closes the monitor with all seats, or with the first or the last alone. If that fails, the others are kept.
    pub(crate) fn close(
        self,
        command: &mut Cells<'_>,
        answer: &mut String,
    ) -> Option<Stage<B, E, O>> {
        let Stage {
            monitor,
            mut seats,
            watchers,
        } = self;
        let aside = match command.word() {
            "first" => seats.pop(),
            "last" if !seats.is_empty() => Some(seats.swap_remove(0)),
            _ => None,
        };
        match monitor.close(seats) {
            Ok(closed) => {
                tell_closed(closed, watchers, answer);
                None
            }
            Err(unclosed) => Some(open_again(unclosed, aside, watchers, answer)),
        }
    }
}

fn open_again<B: Body, E: EntryLedger, O: Ledger>(
    unclosed: Unclosed<B, E, O>,
    aside: Option<Seat<E, O>>,
    watchers: Vec<NamedWatcher<E>>,
    answer: &mut String,
) -> Stage<B, E, O> {
    let fault = unclosed.fault();
    let _ = write!(answer, "{fault:?} {}", fault.number());
    let Unclosed { monitor, mut seats } = unclosed;
    if let Some(seat) = aside {
        let _ = seats.push(seat);
    }
    Stage {
        monitor,
        seats,
        watchers,
    }
}

/// Appends how the run ended, and the numbers of receipts, entries and processes. Settles the watchers, and appends what the
/// last was told, and how many were told the same as the one before them.
fn tell_closed<K: Kinds, E: EntryLedger>(
    mut closed: Closed<K, E>,
    mut watchers: Vec<NamedWatcher<E>>,
    answer: &mut String,
) {
    let (end, receipts) = (closed.end(), closed.receipts());
    let (entries, processes) = (closed.history().len(), closed.net().processes());
    let _ = write!(answer, "{end:?} {receipts} {entries} {processes} ");
    let mut seen = None;
    let mut alike = 0usize;
    for _ in 0..watchers.len() {
        let Some(named) = watchers.pop() else {
            break;
        };
        let progress = closed.settle(named.watcher);
        if seen.is_none() || seen == Some(progress) {
            alike = alike.saturating_add(1);
        }
        seen = Some(progress);
    }
    let _ = tell_seen(alike, seen, answer);
}

fn tell_seen(alike: usize, seen: Option<Progress>, answer: &mut String) -> Result<(), AllocError> {
    let Some(
        Progress {
            entries,
            growths,
            phase,
        },
    ) = seen
    else {
        return answer.push_str("nobody");
    };
    write!(answer, "{alike} saw {entries} {growths} {phase:?}")
}

/// Returns whether neither number ever fell, and the watcher that looked.
fn look_often<B: Body, E: EntryLedger, O: Ledger, R: Wait>(
    rt: &R,
    monitor: &Monitor<B, E, O>,
) -> (bool, Option<NamedWatcher<E>>) {
    let Ok(watcher) = monitor.watch(rt) else {
        return (false, None);
    };
    let mut watcher = NamedWatcher {
        watcher,
        of: PhantomData,
    };
    let mut rising = true;
    let mut last = watcher.look(monitor);
    for _ in 0..1000 {
        let seen = watcher.look(monitor);
        rising = rising && last.entries <= seen.entries && last.growths <= seen.growths;
        last = seen;
    }
    (rising, Some(watcher))
}

fn work_alone<B: Body, E: EntryLedger, O: Ledger, R: Wait>(
    rt: &R,
    monitor: &Monitor<B, E, O>,
    seat: Seat<E, O>,
) -> Seat<E, O> {
    let mut seat = seat;
    let _refused: Option<Finished<B>> = work_with(rt, monitor, &mut seat, &Open);
    seat
}

/// Waits until another thread comes, and then for as long as it may need to begin its own wait.
fn wait_for<R: Wait + Clock>(rt: &R, comes: &AtomicBool) {
    for _ in rt.forever() {
        if comes.load(Ordering::SeqCst) {
            break;
        }
        yield_now();
    }
    sleep(rt, Duration::from_millis(50));
}
