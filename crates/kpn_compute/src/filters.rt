//! Kinds that read a word and write a word, forever.
ghost use Rattle.std.specs.Prelude.{◌≡◌, true, IsSome};
ghost use Rattle.kpn_compute.specs.Filters.{filter_ports, filter_family, FilterAdmits};

use crate::computes::Computes;
use kpn_model::{Act, Answer, Card, Kinds, Local, Signature, Sort, Token};
use std::marker::PhantomData;

/// Kinds that read a word and write a word, forever, and keep four words in between. `Filtered` of an
/// implementation is a family, with its table and laws.
pub trait Filters: Send + Sync {
    ghost use Rattle.std.specs.Prelude.{ℕ, Bool, List, Option};
    ghost use Rattle.kpn_model.specs.declared.kinds.Card.{Card};
    ghost use Rattle.kpn_compute.specs.Filters.{KeepWords};

    ghost named: { List ℕ → Option (ℕ × ℕ) };

    ghost accepts: { Card → Bool };

    ghost start: { Card → List ℕ };

    ghost step: { Card → List ℕ → ℕ → List ℕ × ℕ };

    /// Returns the kind's number and its number of arguments; `None` if no kind has this name.
    fn named(name: &str) -> Option<(u16, usize)>
        ensures { result ≡ named name.now };

    /// Whether the family has this card.
    fn accepts(card: &Card) -> bool
        ensures { result ≡ accepts card.now };

    /// Returns the words that a process of a card keeps at first.
    fn start(card: &Card) -> Local
        requires { accepts card.now ≡ true }
        ensures { result ≡ start card.now };

    /// Returns what a process keeps after it kept `kept` and read `word`, and the word that it writes.
    fn step(card: Card, kept: Local, word: u64) -> (Local, u64)
        requires { accepts card ≡ true }
        ensures { result ≡ step card kept word };

    /// The law of filters, which each implementation proves here: for each accepted card the start keeps four
    /// words, and a step from words keeps four words and writes one.
    fn lawful()
        ensures { KeepWords accepts start step };
}

/// The family of the kinds of `F`: a process reads input 0, steps, and writes to output 0. Its local state is
/// what it keeps.
pub struct Filtered<F: Filters> {
    filters: PhantomData<F>,
}

impl<F: Filters> Kinds for Filtered<F> {
    ghost named = { F.named };

    ghost signature = { filter_ports F.accepts };

    ghost start = { F.start };

    ghost answer_of = { (filter_family F.start F.step).answer };

    ghost admits = { λ card. FilterAdmits };

    fn named(name: &str) -> Option<(u16, usize)> {
        F::named(name)
    }

    fn signature(card: &Card) -> Option<Signature> {
        if !F::accepts(card) {
            return None;
        }
        let ports = [Some(Sort::Words), None, None];
        Some(Signature {
            ins: ports,
            outs: ports,
        })
    }

    fn start(card: &Card) -> Local {
        F::start(card)
    }

    #[tactic(auto, using(crate::proofs::FilteredLawful::filtered_lawful))]
    fn lawful() {
        F::lawful();
    }
}

impl<F: Filters> Computes for Filtered<F> {
    #[inline(always)]
    fn answer(card: Card, local: Local, last: Option<Token>) -> Answer {
        match last {
            Some(Token::Word(word)) => {
                let (next, written) = F::step(card, local, word);
                Answer {
                    next,
                    act: Act::Write(0, Token::Word(written)),
                }
            }
            _ => Answer {
                next: local,
                act: Act::Read(0),
            },
        }
    }
}
