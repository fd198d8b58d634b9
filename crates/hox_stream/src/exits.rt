//! Readers that stop at once.
ghost use Rattle.std.specs.Prelude.{◌≡◌};
ghost use Rattle.hox_stream.specs.Exits.{ExitAdmits, exit_name, exit_named, exit_ports, exits, one_input};

use kpn_compute::Computes;
use kpn_model::{Act, Answer, Card, Kinds, Local, Signature, Sort, Token};

pub(crate) const WORDS_OUT: &str = "words written out";

pub(crate) const FLAGS_OUT: &str = "flags written out";

/// A family of two kinds that stop at once, for words and flags. At the outputs of a stream they replace
/// processes that only read a channel.
pub struct Exits;

impl Kinds for Exits {
    ghost named = { exit_named };

    ghost signature = { exit_ports };

    ghost start = { exits.start };

    ghost answer_of = { exits.answer };

    ghost admits = { ExitAdmits };

    fn named(name: &str) -> Option<(u16, usize)> {
        if name == WORDS_OUT {
            return Some((0, 0));
        }
        if name == FLAGS_OUT {
            return Some((1, 0));
        }
        None
    }

    fn signature(card: &Card) -> Option<Signature> {
        if card.kind == 0 {
            return Some(one_input(Sort::Words));
        }
        if card.kind == 1 {
            return Some(one_input(Sort::Flags));
        }
        None
    }

    fn start(_card: &Card) -> Local {
        [0, 0, 0, 0]
    }

    #[tactic(auto, using(crate::proofs::LawfulExits::exits_lawful))]
    fn lawful() {}
}

impl Computes for Exits {
    fn answer(_card: Card, local: Local, _last: Option<Token>) -> Answer {
        Answer {
            next: local,
            act: Act::Stop,
        }
    }
}

fn one_input(sort: Sort) -> Signature
    ensures { result ≡ one_input sort }
{
    Signature {
        ins: [Some(sort), None, None],
        outs: [None, None, None],
    }
}

pub(crate) fn exit_name(sort: Sort) -> &'static str
    ensures { result.now ≡ exit_name sort }
{
    match sort {
        Sort::Words => WORDS_OUT,
        Sort::Flags => FLAGS_OUT,
    }
}
