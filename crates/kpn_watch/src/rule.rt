//! What the seats at a board have seen, the rule that relates it to the word, and their steps. The publisher
//! has the first seat, each watcher another.
use crate::progress::Phase;
use atomic_table::{Join, Play, Split, TableRule};
use kpn_model::Entry;
use std::collections::LinkedList;
use std::marker::{Brand, PhantomData};

/// A history and its phase, as a seat has seen them. No value is ever made.
pub struct Seen {
    pub entries: LinkedList<Entry>,
    pub phase: Phase,
}

/// What a seat has seen, and a note: what another has seen, to be compared with it. No value is ever made.
pub struct View {
    pub seen: Seen,
    pub note: Seen,
}

/// The rule: the word shows what the first seat has seen, which continues what each other seat has seen.
pub struct WordRule;

impl TableRule<(), View, ()> for WordRule {
    ghost use Rattle.kpn_watch.specs.Rule.{WordIsTrue, view_of, nothing};

    ghost holds = { λ _. WordIsTrue };

    ghost first = { λ _. view_of nothing };
}

/// The load with which a seat sees what is published.
pub struct Look;

impl Play<(), View> for Look {
    ghost use Rattle.kpn_watch.specs.Rule.{Looks};

    ghost then = { Looks };
}

/// The news to publish, chosen by each call.
pub trait News {
    ghost use Rattle.kpn_watch.specs.declared.rule.Seen.{Seen};

    ghost news: { Seen };
}

impl News for Brand {
    ghost use Rattle.kpn_watch.specs.Rule.{nothing};

    ghost news = { nothing };
}

/// The store with which the first seat publishes.
pub struct Publish<N: News>(PhantomData<N>);

impl<N: News> Play<(), View> for Publish<N> {
    ghost use Rattle.kpn_watch.specs.Rule.{Publishes};

    ghost then = { Publishes N.news };
}

/// The load with which the first seat compares its note.
pub struct Compare;

impl Play<(), View> for Compare {
    ghost use Rattle.kpn_watch.specs.Rule.{Compares};

    ghost then = { Compares };
}

/// The step that gives what the first seat has seen to a new seat, and takes a seat's view back as a note.
pub struct Note;

impl Split<View> for Note {
    ghost use Rattle.kpn_watch.specs.Rule.{view_of};

    ghost left = { λ v. v };

    ghost right = { λ v. view_of v.seen };
}

impl Join<View> for Note {
    ghost use Rattle.kpn_watch.specs.Rule.{noted, view_of, nothing};

    ghost both = { λ v w. noted v w.seen };

    ghost spent = { view_of nothing };
}
