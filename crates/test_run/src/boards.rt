//! Boards: the greatest number of watchers, and what they show of histories worked out by hand.
ghost use Rattle.std.specs.Prelude.{◌≡◌, ◌+◌, ◌<◌, ◌≤◌, ◌++◌, ◌∷◌, [], length, IfOk};
ghost use Rattle.kpn_model.specs.declared.history.Deed.TheVariants.{Put, Took, Stopped};
ghost use Rattle.kpn_model.specs.declared.history.Entry.TheVariants.{Did};
ghost use Rattle.kpn_model.specs.declared.token.Token.TheVariants.{Word};
ghost use Rattle.kpn_watch.specs.Phases.{phase_of};
ghost use Rattle.kpn_watch.specs.Shown.{word_of};
ghost use Rattle.kpn_watch.specs.declared.progress.Phase.TheVariants.{Memory, Running, Terminated};
ghost use Rattle.test_run.specs.Boards.{HasNothingOf, HasPublished, three_put, two_put};

use kpn_model::{Deed, End, Entry, Token};
use kpn_state::{Keeper, Packed};
use kpn_watch::{Board, CountingPublisher, Phase, Progress, Publisher, WatchFault, Watcher};
use std::alloc::{AllocError, Global};
use test_kit::Report;

/// Plays the scenes, each on a board of its own.
pub(crate) fn show<R: AllocGlobal>(rt: &R, report: &mut Report) {
    let numbers = [
        Phase::Running.number(),
        Phase::Terminated.number(),
        Phase::Deadlock.number(),
        Phase::Ceiling.number(),
        Phase::Budget.number(),
        Phase::Memory.number(),
    ];
    report.show("phases", numbers);
    report.show("full", WatchFault::Full.number());
    if show_boards(rt, report).is_err() {
        report.fail("no memory for a board");
    }
}

fn show_boards<R: AllocGlobal>(rt: &R, report: &mut Report) -> Result<(), AllocError> {
    let (board, mut publisher) = Board::new(rt.alloc())?;
    report.show("watchers", watchers(&board, &mut publisher));
    let (board, publisher) = Board::new(rt.alloc())?;
    let growth = a_look_shows_a_growth(report, board, publisher);
    report.show("growth", growth);
    let (board, publisher) = Board::new(rt.alloc())?;
    let end = a_look_shows_an_end(report, board, publisher);
    report.show("end", end);
    let (board, mut publisher) = Board::new(rt.alloc())?;
    let mut kept = Packed::with_room(rt.alloc(), 3)?;
    let kept = kept_looks(report, &board, &mut publisher, &mut kept);
    report.show("kept", kept);
    each_commit_is_shown(rt.alloc(), report)?;
    a_refused_growth_is_shown(rt.alloc(), report)
}

fn kept_looks<H: Keeper>(
    report: &mut Report,
    board: &Board,
    publisher: &mut Publisher,
    kept: &mut H,
) -> Result<(), WatchFault>
    requires publisher { (publisher.old.board ≡ board.now) × HasPublished [] Phase.Running publisher.old }
    requires none { H.entries kept.old ≡ [] }
    requires room { 3 ≤ H.room kept.old }
{
    let mut watcher = board.split(publisher)?;
    report.show("nothing", board.look(&mut watcher));
    kept.keep(put(1));
    board.publish_kept(publisher, kept, 0, Phase::Running);
    report.show("early", board.look(&mut watcher));
    kept.keep(Entry::Grew { channel: 0, to: 2 });
    kept.keep(stopped(1));
    board.publish_kept(publisher, kept, 1, Phase::Terminated);
    report.show("late", board.look(&mut watcher));
    board.join(watcher, publisher);
    Ok(())
}

/// Nothing yet, then a word, then a growth and an end.
fn a_look_shows_a_growth(
    report: &mut Report,
    board: Board,
    mut publisher: Publisher,
) -> Result<(), WatchFault>
    requires { (publisher.board ≡ board) × HasPublished [] Phase.Running publisher }
{
    let mut watcher = board.split(&mut publisher)?;
    let put = put(1);
    let grew = Entry::Grew { channel: 0, to: 2 };
    report.show("nothing", board.look(&mut watcher));
    board.publish(&mut publisher, &[put], 0, Phase::Running);
    let early = board.look(&mut watcher);
    report.show("early", early);
    let all = [put, grew, stopped(1)];
    board.publish(&mut publisher, &all, 1, Phase::Terminated);
    report.show("late", board.look(&mut watcher));
    board.join(watcher, &mut publisher);
    Ok(())
}

/// A process stops, and the run is over.
fn a_look_shows_an_end(
    report: &mut Report,
    board: Board,
    mut publisher: Publisher,
) -> Result<(), WatchFault>
    requires { (publisher.board ≡ board) × HasPublished [] Phase.Running publisher }
{
    let mut watcher = board.split(&mut publisher)?;
    report.show("before", board.look(&mut watcher));
    board.publish(&mut publisher, &[stopped(0)], 0, Phase::Terminated);
    report.show("after", board.look(&mut watcher));
    board.join(watcher, &mut publisher);
    Ok(())
}

fn watchers(board: &Board, publisher: &mut Publisher) -> usize
    requires { publisher.old.board ≡ board.now }
{
    let mut made = 0;
    for tried in 0..100usize {
        if let Ok(watcher) = board.split(publisher) {
            board.join(watcher, publisher);
            made += 1;
        }
    }
    made
}

#[derive(Drop)]
struct Display {
    board: Board,
    publisher: CountingPublisher,
    watcher: Watcher,
    history: Vec<Entry>,
    ghost published: { publisher.board ≡ board },
    ghost watched: { watcher.board ≡ board },
}

/// Ghost lemma: the published words of a counter of three into a sink of one, also for a growth out of
/// memory.
fn worked_words()
    ensures one { word_of (Did 0 (Put 0 (Word 1)) ∷ []) Running ≡ 33554432 }
    ensures two { word_of (Did 0 (Put 0 (Word 1)) ∷ Did 1 (Took 0 (Word 1)) ∷ []) Running ≡ 67108864 }
    ensures three { word_of (two_put []) Running ≡ 100663296 }
    ensures four { word_of (two_put (Did 1 Stopped ∷ [])) Running ≡ 134217728 }
    ensures refused { word_of (two_put (Did 1 Stopped ∷ [])) Memory ≡ 134217733 }
    ensures six { word_of (three_put []) Running ≡ 201326600 }
    ensures seven { word_of (three_put (Did 0 Stopped ∷ [])) Terminated ≡ 234881033 }
{}

impl Display {
    fn new(alloc: Global) -> Result<Display, AllocError>
        ensures { IfOk result (λ d. HasNothingOf d.history.items d.publisher) }
    {
        let (board, publisher) = Board::new(alloc)?;
        let mut publisher = CountingPublisher::new(publisher);
        let Ok(watcher) = publisher.watch(&board) else {
            return Err(AllocError);
        };
        Ok(Display {
            board,
            publisher,
            watcher,
            history: Vec::new(alloc),
        })
    }

    fn look(&mut self) -> Progress
        ensures publisher { self.new.publisher ≡ self.old.publisher }
        ensures history { self.new.history ≡ self.old.history }
    {
        self.board.look(&mut self.watcher)
    }

    fn append(
        &mut self,
        report: &mut Report,
        more: &[Entry],
        ended: Option<End>,
    ) -> Result<(), AllocError>
        requires shown { HasPublished self.old.history.items Phase.Running self.old.publisher }
        requires short { length self.old.history.items + length more.now < 100 }
        ensures shown { IfOk result (λ _. HasPublished self.new.history.items (phase_of ended) self.new.publisher) }
        ensures history { IfOk result (λ _. self.new.history.items ≡ self.old.history.items ++ more.now) }
    {
        self.history.extend_from_slice(more)?;
        self.publisher
            .publish(&self.board, self.history.as_slice(), ended);
        report.show("look", self.look());
        Ok(())
    }
}

pub(crate) fn put(number: u64) -> Entry
    ensures { result ≡ Did 0 (Put 0 (Word number)) }
{
    Entry::Did {
        process: 0,
        deed: Deed::Put {
            channel: 0,
            token: Token::Word(number),
        },
    }
}

pub(crate) fn stopped(process: usize) -> Entry
    ensures { result ≡ Did process Stopped }
{
    Entry::Did {
        process,
        deed: Deed::Stopped,
    }
}

pub(crate) fn took(number: u64) -> Entry {
    Entry::Did {
        process: 1,
        deed: Deed::Took {
            channel: 0,
            token: Token::Word(number),
        },
    }
}

/// A counter of three into a sink of one; the channel grows from one to two. `worked_words` has the words.
fn each_commit_is_shown(alloc: Global, report: &mut Report) -> Result<(), AllocError> {
    worked_words();
    let mut display = Display::new(alloc)?;
    report.show("nothing", display.look());
    display.append(report, &[put(1)], None)?;
    display.append(report, &[took(1)], None)?;
    display.append(report, &[put(2)], None)?;
    display.append(report, &[stopped(1)], None)?;
    let grew = Entry::Grew { channel: 0, to: 2 };
    display.append(report, &[grew, put(3)], None)?;
    display.append(report, &[stopped(0)], Some(End::Terminated))?;
    let Display {
        board,
        mut publisher,
        watcher,
        history: _,
    } = display;
    report.show("left", publisher.join(&board, watcher));
    Ok(())
}

/// The growth is out of memory: the history stays, and the word is `refused` of `worked_words`.
fn a_refused_growth_is_shown(alloc: Global, report: &mut Report) -> Result<(), AllocError> {
    let mut display = Display::new(alloc)?;
    let before = [put(1), took(1), put(2), stopped(1)];
    display.append(report, &before, None)?;
    display.append(report, &[], Some(End::Memory))?;
    drop(display);
    Ok(())
}
