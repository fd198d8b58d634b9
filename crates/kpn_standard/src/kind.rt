//! The table of the standard kinds.
ghost use Rattle.std.specs.Prelude.{◌≡◌, Some, IfSome};
ghost use Rattle.kpn_standard.specs.Table.{row_of, plain_row, tabled, numbered, called};
ghost use Rattle.kpn_standard.specs.Signatures.{accepts, named};

use kpn_model::Sort;

/// A standard kind. Each variant names its arguments first.
#[derive(Clone, Copy, Debug, PartialEq, Eq)]
pub enum Kind {
    /// `from`, `n`: writes the n words from `from` on. `from + n` is at most 2^64 - 1.
    Count,
    /// `n`: reads n words.
    Sink,
    /// `n`: reads and writes n words.
    Take,
    /// Writes each word to both outputs.
    Copy,
    /// The first word: writes it, then what it reads.
    Prefix,
    /// Writes sums modulo 2^64.
    Add,
    /// The factor: writes products modulo 2^64.
    Scale,
    /// How many words, each at least 1, it copies in turn from inputs 0 and 1.
    Weave,
    /// Writes the lesser of the two heads, one of equal heads.
    Merge,
    /// The divisor, at least 1: writes whether it divides each word.
    Divides,
    /// Writes each word to the output that a flag selects.
    Switch,
    /// Writes a word of the input that a flag selects.
    Select,
}

/// The sorts of a kind's inputs, or of its outputs; `None` where there is no port.
pub type Ports = [Option<Sort>; 3];

/// A row of the table: number in cards, name, number of arguments, ports. Unused arguments are 0.
#[derive(Clone, Copy, Debug)]
pub struct Row {
    pub number: u16,
    pub name: &'static str,
    pub arguments: usize,
    pub ins: Ports,
    pub outs: Ports,
}

const WORDS: Option<Sort> = Some(Sort::Words);

const FLAGS: Option<Sort> = Some(Sort::Flags);

const NO_PORT: Ports = [None, None, None];

const ONE_WORD: Ports = [WORDS, None, None];

const TWO_WORDS: Ports = [WORDS, WORDS, None];

const ONE_FLAG: Ports = [FLAGS, None, None];

const WORD_AND_FLAG: Ports = [WORDS, FLAGS, None];

const TWO_WORDS_AND_FLAG: Ports = [WORDS, WORDS, FLAGS];

impl Kind {
    /// Returns the kind's row of the table.
    pub fn row(self) -> Row
        ensures is { plain_row result ≡ row_of self }
        ensures means { named result.name.now ≡ Some (result.number, result.arguments) }
    {
        let (number, name, arguments, ins, outs) = self.cells();
        Row {
            number,
            name,
            arguments,
            ins,
            outs,
        }
    }

    fn cells(self) -> (u16, &'static str, usize, Ports, Ports)
        ensures { tabled result.0 result.1.now result.2 result.3 result.4 ≡ row_of self }
    {
        match self {
            Kind::Count => (0, "count", 2, NO_PORT, ONE_WORD),
            Kind::Sink => (1, "sink", 1, ONE_WORD, NO_PORT),
            Kind::Take => (2, "take", 1, ONE_WORD, ONE_WORD),
            Kind::Copy => (3, "copy", 0, ONE_WORD, TWO_WORDS),
            Kind::Prefix => (4, "prefix", 1, ONE_WORD, ONE_WORD),
            Kind::Add => (5, "add", 0, TWO_WORDS, ONE_WORD),
            Kind::Scale => (6, "scale", 1, ONE_WORD, ONE_WORD),
            Kind::Weave => (7, "weave", 2, TWO_WORDS, ONE_WORD),
            Kind::Merge => (8, "merge", 0, TWO_WORDS, ONE_WORD),
            Kind::Divides => (9, "divides", 1, ONE_WORD, ONE_FLAG),
            Kind::Switch => (10, "switch", 0, WORD_AND_FLAG, TWO_WORDS),
            Kind::Select => (11, "select", 0, TWO_WORDS_AND_FLAG, ONE_WORD),
        }
    }

    /// Returns the kind with this number; `None` if there is none.
    pub fn numbered(number: u16) -> Option<Kind>
        ensures is { result ≡ numbered number }
        ensures number { IfSome result (λ kind. (row_of kind).number ≡ number) }
    {
        match number {
            0 => Some(Kind::Count),
            1 => Some(Kind::Sink),
            2 => Some(Kind::Take),
            3 => Some(Kind::Copy),
            4 => Some(Kind::Prefix),
            5 => Some(Kind::Add),
            6 => Some(Kind::Scale),
            7 => Some(Kind::Weave),
            8 => Some(Kind::Merge),
            9 => Some(Kind::Divides),
            10 => Some(Kind::Switch),
            11 => Some(Kind::Select),
            _ => None,
        }
    }

    /// Returns the kind with this name; `None` if there is none.
    pub fn called(name: &str) -> Option<Kind>
        ensures { result ≡ called name.now }
    {
        match name {
            "count" => Some(Kind::Count),
            "sink" => Some(Kind::Sink),
            "take" => Some(Kind::Take),
            "copy" => Some(Kind::Copy),
            "prefix" => Some(Kind::Prefix),
            "add" => Some(Kind::Add),
            "scale" => Some(Kind::Scale),
            "weave" => Some(Kind::Weave),
            "merge" => Some(Kind::Merge),
            "divides" => Some(Kind::Divides),
            "switch" => Some(Kind::Switch),
            "select" => Some(Kind::Select),
            _ => None,
        }
    }

    /// Whether a process of the kind can have these arguments.
    pub fn accepts(self, args: [u64; 3]) -> bool
        ensures { result ≡ accepts self args }
    {
        let [a, b, c] = args;
        let two_used = c == 0;
        let one_used = b == 0 && two_used;
        let none_used = a == 0 && one_used;
        match self {
            Kind::Count => two_used && b <= u64::MAX - a,
            Kind::Weave => two_used && a > 0 && b > 0,
            Kind::Divides => one_used && a > 0,
            Kind::Sink | Kind::Take | Kind::Prefix | Kind::Scale => one_used,
            Kind::Copy | Kind::Add | Kind::Merge | Kind::Switch | Kind::Select => none_used,
        }
    }
}
