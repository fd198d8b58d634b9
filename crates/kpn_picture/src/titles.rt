//! The titles of kinds.
ghost use Rattle.std.specs.Prelude.{◌≡◌, ◌++◌, ◌<◌, ◌^◌, Some, None, IsSome, OnOk, string_bytes};
ghost use Rattle.kpn_formula.specs.Formulas.{kind_name};
ghost use Rattle.kpn_standard.specs.Signatures.{named, signature};
ghost use Rattle.kpn_standard.specs.Table.{row_of};
ghost use Rattle.kpn_signals.specs.Signatures.{number_named, ports};
ghost use Rattle.kpn_picture.specs.Titles.{standard_title, signals_title, formulas_title, both_title, name_of, TitleNamesKind, name_in, titled_kind};

use kpn_compute::both::{is_first, own_card};
use kpn_compute::{Both, Filtered, Filters};
use kpn_formula::Formulas;
use kpn_model::{Card, Kinds};
use kpn_signals::{Signal, Signals};
use kpn_standard::{Kind, Standard};
use std::alloc::AllocError;
use std::fmt::Write;

/// What a kind is called: its name in descriptions, which is a word with perhaps a number behind it, as in `formula 9`,
/// and its number of arguments.
#[derive(Clone, Copy, Debug, PartialEq, Eq)]
pub struct Title {
    pub word: &'static str,
    pub number: Option<u16>,
    pub arguments: usize,
}

impl Title {
    /// Returns the title of a kind whose name is a word.
    pub fn new(word: &'static str, arguments: usize) -> Title
        ensures word { result.word.now ≡ word.now }
        ensures number { result.number ≡ None }
        ensures arguments { result.arguments ≡ arguments }
    {
        Title {
            word,
            number: None,
            arguments,
        }
    }

    /// Appends the name. Errors: out of memory.
    pub fn push_name(&self, out: &mut String) -> Result<(), AllocError>
        ensures { OnOk result (string_bytes out.new ≡ string_bytes out.old ++ name_in self.now) }
    {
        let Title { word, number, .. } = *self;
        match number {
            None => out.push_str(word),
            Some(number) => write!(out, "{word} {number}"),
        }
    }
}

/// A family with titles for its kinds.
pub trait Titled: Kinds {
    ghost use Rattle.std.specs.Prelude.{◌≡◌, ℕ, List, IsSome};
    ghost use Rattle.kpn_picture.specs.Titles.{TitleMeansKind, name_of};

    ghost title: { ℕ → List ℕ × ℕ };

    /// Returns the title of a card's kind: its name and its number of arguments. The name means this kind,
    /// unless descriptions refuse it because two joined families have it, or the card has one more argument,
    /// n > 0: then its first n arguments are below 0, and the card has m for the argument -1 - m. The card
    /// must have a signature.
    fn title(card: &Card) -> Title
        requires { IsSome (Self.signature card.now) }
        ensures name { name_of result.word.now result.number ≡ (title card.now.kind).0 }
        ensures arity { result.arguments ≡ (title card.now.kind).1 }
        ensures named { TitleMeansKind Self.signature Self.named title card.now };
}

/// Filters with titles for their kinds, as in `Titled`.
pub trait TitledFilters: Filters {
    ghost use Rattle.std.specs.Prelude.{◌≡◌, ℕ, List, Some, true};

    ghost title: { ℕ → List ℕ × ℕ };

    /// Returns the title of a card's kind: its name, which means this kind, and its number of arguments. The
    /// card must be accepted.
    fn title(card: &Card) -> (&'static str, usize)
        requires { Self.accepts card.now ≡ true }
        ensures name { result.0.now ≡ (title card.now.kind).0 }
        ensures arity { result.1 ≡ (title card.now.kind).1 }
        ensures named { Self.named (title card.now.kind).0 ≡ Some (card.now.kind, (title card.now.kind).1) };
}

impl<F: TitledFilters> Titled for Filtered<F> {
    ghost title = { F.title };

    fn title(card: &Card) -> Title {
        let (name, arguments) = F::title(card);
        Title::new(name, arguments)
    }
}

impl Titled for Standard {
    ghost title = { standard_title };

    /// Returns the title of a card's kind. Its name means this kind.
    fn title(card: &Card) -> Title
        requires { IsSome (signature card.now) }
        ensures name { name_of result.word.now result.number ≡ (standard_title card.now.kind).0 }
        ensures arity { result.arguments ≡ (standard_title card.now.kind).1 }
        ensures named { named (standard_title card.now.kind).0 ≡ Some (titled_kind standard_title card.now) }
    {
        let Some(kind) = Kind::numbered(card.kind) else {
            unreachable!()
        };
        title_of_kind(kind)
    }
}

fn title_of_kind(kind: Kind) -> Title
    ensures name { name_of result.word.now result.number ≡ (row_of kind).name }
    ensures arity { result.arguments ≡ (row_of kind).arguments }
    ensures means { named (row_of kind).name ≡ Some ((row_of kind).number, (row_of kind).arguments) }
{
    let row = kind.row();
    Title::new(row.name, row.arguments)
}

impl Titled for Signals {
    ghost title = { signals_title };

    /// Returns the title of a card's kind. Its name means this kind if no argument is below 0; otherwise it
    /// is the name that descriptions use.
    fn title(card: &Card) -> Title
        requires { IsSome (ports card.now) }
        ensures name { name_of result.word.now result.number ≡ (signals_title card.now.kind).0 }
        ensures arity { result.arguments ≡ (signals_title card.now.kind).1 }
        ensures named { TitleNamesKind number_named signals_title card.now }
    {
        let Some(signal) = Signal::numbered(card.kind) else {
            unreachable!()
        };
        let (name, arguments) = signal.called_by();
        Title::new(name, arguments)
    }
}

impl Titled for Formulas {
    ghost title = { formulas_title };

    fn title(card: &Card) -> Title {
        formula_title(card.kind)
    }
}

fn formula_title(number: u16) -> Title
    ensures name { name_of result.word.now result.number ≡ kind_name number }
    ensures arguments { result.arguments ≡ 3 }
    ensures small { number < 2 ^ 16 }
{
    Title {
        word: "formula",
        number: Some(number),
        arguments: 3,
    }
}

impl<A: Titled, B: Titled> Titled for Both<A, B> {
    ghost title = { both_title A.title B.title };

    fn title(card: &Card) -> Title {
        let own = own_card(*card);
        if is_first(*card) {
            A::title(&own)
        } else {
            B::title(&own)
        }
    }
}
