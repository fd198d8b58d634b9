//! Rows on kinds: of a family, by the kind's number; and of tables of kinds.
use crate::running::{ask, card_in, show_ports, show_step};
use example_signals::{Gains, MovingSums};
use kpn_compute::both::{is_first, own_card};
use kpn_compute::{Both, Filtered, Filters};
use kpn_model::{Answer, Kinds, Local, Signature};
use kpn_picture::{Titled, below};
use kpn_signals::{Signal, Signals};
use kpn_standard::{Help, Kind, Standard};
use std::alloc::Global;
use std::fmt::Write;
use test_cells::{small_in, token_in};
use test_kit::{Cells, Subject};

type Joined = Both<Standard, Signals>;

type OwnKinds = Both<Gains, Filtered<MovingSums>>;

/// A static, since a constant is built anew at each use.
static STANDARD_HELP: [Help; 12] = kpn_standard::HELP;

static SIGNALS_HELP: [Help; 36] = kpn_signals::HELP;

pub(crate) struct Rows;

impl Subject for Rows {
    fn answer(&self, _alloc: Global, question: &mut Cells<'_>, answer: &mut String) {
        match question.word() {
            "standard" => ask::<Standard>(question, answer),
            "signals" => ask::<Signals>(question, answer),
            "joined" => ask::<Joined>(question, answer),
            "gains" => ask::<Gains>(question, answer),
            "sums" => ask::<Filtered<MovingSums>>(question, answer),
            "own" => ask::<OwnKinds>(question, answer),
            "count" => show_count(question, answer),
            "signal_at" => show_signal_at(question, answer),
            "kind" => show_kind(question, answer),
            "signal" => show_signal(question, answer),
            "title" => show_title(question, answer),
            other => show_other(other, question, answer),
        }
    }
}

fn show_other(what: &str, question: &mut Cells<'_>, answer: &mut String) {
    let _ = match what {
        "standard_help" => show_help(STANDARD_HELP.get(question.below(12)), answer),
        "signals_help" => show_help(SIGNALS_HELP.get(question.below(36)), answer),
        "called" => write!(answer, "{:?}", Kind::called(question.word())),
        "weave_accepts" => {
            let args = [question.number(), question.number(), question.number()];
            write!(answer, "{}", Kind::Weave.accepts(args))
        }
        "both" => {
            let card = card_in(question);
            write!(answer, "{} {:?}", is_first(card), own_card(card))
        }
        "below_0" => {
            let count = question.below(4);
            write!(answer, "{}", below(&card_in(question), count))
        }
        "sum_step" => {
            let card = card_in(question);
            let local = local_in(question);
            let word = question.number();
            if !MovingSums::accepts(&card) {
                return;
            }
            write!(answer, "{:?}", MovingSums::step(card, local, word))
        }
        _ => {
            question.is_bad();
            Ok(())
        }
    };
}

fn local_in(question: &mut Cells<'_>) -> Local {
    [
        question.number(),
        question.number(),
        question.number(),
        question.number(),
    ]
}

/// The answer of `count` in a local state that no run of a test gets to.
fn show_count(question: &mut Cells<'_>, answer: &mut String) {
    let args = [question.number(), question.number(), question.number()];
    let local = local_in(question);
    if Kind::Count.accepts(args) {
        let next = kpn_standard::count(args, local, None);
        show_step(answer, local, None, &next);
    }
}

/// The answer of a kind for signals in a local state that no run of a test gets to.
fn show_signal_at(question: &mut Cells<'_>, answer: &mut String) {
    let card = card_in(question);
    let local = local_in(question);
    let last = match question.word() {
        "nothing" => None,
        _ => Some(token_in(question)),
    };
    let Some(kind) = Signal::numbered(card.kind) else {
        return;
    };
    if kind.accepts(card.args) {
        let next: Answer = kpn_signals::answer(kind, card.args, local, last);
        show_step(answer, local, last, &next);
    }
}

/// A standard kind by its number: its variant, its row, and what is found by its name.
fn show_kind(question: &mut Cells<'_>, answer: &mut String) {
    let Some(kind) = Kind::numbered(small_in(question)) else {
        let _ = answer.push_str("none");
        return;
    };
    let row = kind.row();
    let _ = write!(
        answer,
        "{kind:?} {} {} {} ",
        row.number, row.name, row.arguments
    );
    let ports = Signature {
        ins: row.ins,
        outs: row.outs,
    };
    show_ports(answer, &ports);
    let _ = write!(answer, " {:?}", Kind::called(row.name));
}

/// A kind for signals by its number: the name by which it is called, its arguments, its ports.
fn show_signal(question: &mut Cells<'_>, answer: &mut String) {
    let Some(kind) = Signal::numbered(small_in(question)) else {
        let _ = answer.push_str("none");
        return;
    };
    let row = kind.row();
    let _ = write!(answer, "{:?} {} ", kind.called_by(), row.number);
    let ports = Signature {
        ins: row.ins,
        outs: row.outs,
    };
    show_ports(answer, &ports);
}

/// A line of help: the name, how many arguments, the ports; and the kind that the name means, in each family.
fn show_help(help: Option<&Help>, answer: &mut String) -> Result<(), std::alloc::AllocError> {
    let Some(help) = help else {
        return answer.push_str("none");
    };
    let arguments = help.arguments.split(" ").filter(|word| !word.is_empty());
    let count = arguments.count();
    let number = Signal::called(help.name).map(|kind| kind.row().number);
    write!(
        answer,
        "{} {count} {} {:?} {:?} {:?} {number:?}",
        help.name,
        help.ports,
        Standard::named(help.name),
        Signals::named(help.name),
        Joined::named(help.name)
    )
}

/// The title of a card in the family that it belongs to, and in the joined one.
fn show_title(question: &mut Cells<'_>, answer: &mut String) {
    match question.word() {
        "standard" => title_of::<Standard>(question, answer),
        "signals" => title_of::<Signals>(question, answer),
        _ => title_of::<Joined>(question, answer),
    }
}

fn title_of<K: Titled>(question: &mut Cells<'_>, answer: &mut String) {
    let card = card_in(question);
    if K::signature(&card).is_none() {
        return;
    }
    let title = K::title(&card);
    let _ = write!(
        answer,
        "{} {} {:?}",
        title.word, title.arguments, title.number
    );
}
