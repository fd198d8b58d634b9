//! The table of the kinds for signals.
ghost use Rattle.std.specs.Prelude.{◌≡◌, ◌==◌, ◌&&◌, Some, IfSome};
ghost use Rattle.kpn_signals.specs.Table.{row_of, numbered, called, called_by};
ghost use Rattle.kpn_standard.specs.Locals.{at};
ghost use Rattle.kpn_signals.specs.Signatures.{accepts, are_bounds, is_one_below, number_named};
ghost use Rattle.kpn_signals.specs.Family.{start_of};

use crate::signs::{FIRST_BELOW, bound, word_below};
use crate::turns::READS_FIRST;
use kpn_model::{Local, Sort};
use kpn_standard::kind::Row;

/// A kind for signals. Each variant names its arguments first.
#[derive(Clone, Copy, Debug, PartialEq, Eq)]
pub enum Signal {
    /// Stops at once; its channel's words come from outside.
    Input,
    /// Stops at once; its channel's flags come from outside.
    InputFlags,
    /// Reads words forever.
    Drain,
    /// Reads flags forever.
    DrainFlags,
    /// A word: writes it forever.
    Constant,
    /// Writes 0, 1, 2, .. modulo 2^64 forever.
    CountUp,
    /// Writes the words of input 0 minus those of input 1, modulo 2^64.
    Sub,
    /// Writes the products modulo 2^64.
    Mul,
    /// A number of bits, 0 to 63: writes each word shifted right as a signed number.
    Shift,
    /// A number of bits, 0 to 63: writes each word shifted left.
    Left,
    /// Writes whether the word of input 0 is less than that of input 1, as signed numbers.
    Less,
    /// Writes whether the two words are equal.
    Equal,
    /// Writes the other flag.
    Not,
    /// Writes whether both flags are true.
    And,
    /// Writes whether at least one flag is true.
    Or,
    /// n, at least 1: writes the first of each n words.
    Decimate,
    /// n, at least 1: writes each word n times.
    Repeat,
    /// The first kept word: writes input 0's word if input 1's flag is true, else the word written last.
    Hold,
    /// n, 1 to 4: writes n zeros, then what it reads.
    Delay,
    /// A number of bits, 0 to 63: writes y + (x - y) / 2^bits for each word x, rounded down, as signed
    /// numbers. y is the last written word, 0 at first.
    LowPass,
    /// The least and the greatest word, as signed numbers: writes the nearest one within them.
    Clip,
    /// n and 1: `Constant` of the number -1 - n.
    SignedConstant,
    /// n and 1: `Hold` of the number -1 - n.
    SignedHold,
    /// `Clip` to bounds, n for a negative one -1 - n, and how many are negative: 1 (the first) or 2.
    SignedClip,
    /// n and 1: writes the product of each word with -1 - n, modulo 2^64.
    SignedScale,
    /// n and 1: writes -1 - n, then each word.
    SignedPrefix,
    /// Writes each flag to output 0, then to output 1.
    CopyFlags,
    /// Writes the lesser of two words, as signed numbers.
    Min,
    /// Writes the greater of two words, as signed numbers.
    Max,
    /// Writes the absolute value of each word, as a signed number; the word of -2^63 stays.
    Abs,
    /// A word: writes the sum of each word with it, modulo 2^64.
    Offset,
    /// A and B, at least 1: writes x * A / B for each word x, rounded down, as signed numbers. Only the result
    /// is modulo 2^64.
    Gain,
    /// Writes the word of input 0 divided by that of input 1, rounded down, as signed numbers: 0 if that is 0.
    Div,
    /// Writes what `Div` leaves of the word of input 0, so x = d * (x div d) + (x mod d): x if d is 0.
    Mod,
    /// Writes the sum of all words so far, modulo 2^64.
    Sum,
    /// Writes each word minus the one before, 0 at first, modulo 2^64.
    Difference,
    /// n, 1 to 5: writes the mean of the last n words, rounded down, as signed numbers, with zeros before the
    /// first.
    Average,
    /// Writes for each flag how many were true so far, modulo 2^64.
    Counter,
    /// Writes for each flag whether it is true and the one before is not; before the first is false.
    Edge,
    /// The first state: writes the words of the generator SplitMix64.
    Noise,
    /// Writes those words of input 0 whose flag of input 1 is true.
    Gate,
    /// n and 1: `Offset` by -1 - n.
    SignedOffset,
    /// n, B and 1: `Gain` of -1 - n and B.
    SignedGain,
}

/// The longest delay: a process keeps four words.
const MAX_DELAY: u64 = 4;

/// The most words of a mean: those four, and the last one.
const MAX_WINDOW: u64 = 5;

const WORDS: Option<Sort> = Some(Sort::Words);

const FLAGS: Option<Sort> = Some(Sort::Flags);

const NO_PORT: [Option<Sort>; 3] = [None, None, None];

const ONE_WORD: [Option<Sort>; 3] = [WORDS, None, None];

const TWO_WORDS: [Option<Sort>; 3] = [WORDS, WORDS, None];

const ONE_FLAG: [Option<Sort>; 3] = [FLAGS, None, None];

const TWO_FLAGS: [Option<Sort>; 3] = [FLAGS, FLAGS, None];

const WORD_AND_FLAG: [Option<Sort>; 3] = [WORDS, FLAGS, None];

impl Signal {
    /// Returns the kind's row of the table.
    pub fn row(self) -> Row
        ensures number { result.number ≡ (row_of self).number }
        ensures name { result.name.now ≡ (row_of self).name }
        ensures arguments { result.arguments ≡ (row_of self).arguments }
        ensures ins { result.ins ≡ (row_of self).ins }
        ensures outs { result.outs ≡ (row_of self).outs }
        ensures means { number_named result.name.now ≡ Some (result.number, result.arguments) }
    {
        let (number, name, arguments) = self.heading();
        let (ins, outs) = self.ports();
        Row {
            number,
            name,
            arguments,
            ins,
            outs,
        }
    }

    fn heading(self) -> (u16, &'static str, usize)
        ensures number { result.0 ≡ (row_of self).number }
        ensures name { result.1.now ≡ (row_of self).name }
        ensures arguments { result.2 ≡ (row_of self).arguments }
    {
        match self {
            Signal::Input => (0, "input", 0),
            Signal::InputFlags => (1, "input_flags", 0),
            Signal::Drain => (2, "drain", 0),
            Signal::DrainFlags => (3, "drain_flags", 0),
            Signal::Constant => (4, "constant", 1),
            Signal::CountUp => (5, "count_up", 0),
            Signal::Sub => (6, "sub", 0),
            Signal::Mul => (7, "mul", 0),
            Signal::Shift => (8, "shift", 1),
            Signal::Left => (9, "left", 1),
            Signal::Less => (10, "less", 0),
            Signal::Equal => (11, "equal", 0),
            Signal::Not => (12, "not", 0),
            Signal::And => (13, "and", 0),
            Signal::Or => (14, "or", 0),
            Signal::Decimate => (15, "decimate", 1),
            Signal::Repeat => (16, "repeat", 1),
            Signal::Hold => (17, "hold", 1),
            Signal::Delay => (18, "delay", 1),
            Signal::LowPass => (19, "low_pass", 1),
            Signal::Clip => (20, "clip", 2),
            Signal::SignedConstant => (21, "constant, signed", 2),
            Signal::SignedHold => (22, "hold, signed", 2),
            Signal::SignedClip => (23, "clip, signed", 3),
            Signal::SignedScale => (24, "scale, signed", 2),
            Signal::SignedPrefix => (25, "prefix, signed", 2),
            Signal::CopyFlags => (26, "copy_flags", 0),
            Signal::Min => (27, "min", 0),
            Signal::Max => (28, "max", 0),
            Signal::Abs => (29, "abs", 0),
            Signal::Offset => (30, "offset", 1),
            Signal::Gain => (31, "gain", 2),
            Signal::Div => (32, "div", 0),
            Signal::Mod => (33, "mod", 0),
            Signal::Sum => (34, "sum", 0),
            Signal::Difference => (35, "difference", 0),
            Signal::Average => (36, "average", 1),
            Signal::Counter => (37, "counter", 0),
            Signal::Edge => (38, "edge", 0),
            Signal::Noise => (39, "noise", 1),
            Signal::Gate => (40, "gate", 0),
            Signal::SignedOffset => (41, "offset, signed", 2),
            Signal::SignedGain => (42, "gain, signed", 3),
        }
    }

    fn ports(self) -> ([Option<Sort>; 3], [Option<Sort>; 3])
        ensures ins { result.0 ≡ (row_of self).ins }
        ensures outs { result.1 ≡ (row_of self).outs }
    {
        match self {
            Signal::Input
            | Signal::Constant
            | Signal::CountUp
            | Signal::Noise
            | Signal::SignedConstant => (NO_PORT, ONE_WORD),
            Signal::InputFlags => (NO_PORT, ONE_FLAG),
            Signal::Drain => (ONE_WORD, NO_PORT),
            Signal::DrainFlags => (ONE_FLAG, NO_PORT),
            Signal::Sub | Signal::Mul | Signal::Min | Signal::Max | Signal::Div | Signal::Mod => (
                TWO_WORDS, ONE_WORD,
            ),
            Signal::Shift
            | Signal::Left
            | Signal::Decimate
            | Signal::Repeat
            | Signal::Delay
            | Signal::LowPass
            | Signal::Clip
            | Signal::SignedClip
            | Signal::SignedScale
            | Signal::SignedPrefix
            | Signal::Abs
            | Signal::Offset
            | Signal::Gain
            | Signal::Sum
            | Signal::Difference
            | Signal::Average
            | Signal::SignedOffset
            | Signal::SignedGain => (ONE_WORD, ONE_WORD),
            Signal::Less | Signal::Equal => (TWO_WORDS, ONE_FLAG),
            Signal::Not | Signal::Edge => (ONE_FLAG, ONE_FLAG),
            Signal::Counter => (ONE_FLAG, ONE_WORD),
            Signal::And | Signal::Or => (TWO_FLAGS, ONE_FLAG),
            Signal::CopyFlags => (ONE_FLAG, TWO_FLAGS),
            Signal::Hold | Signal::SignedHold | Signal::Gate => (WORD_AND_FLAG, ONE_WORD),
        }
    }

    /// Returns the kind with this number; `None` if there is none.
    pub fn numbered(number: u16) -> Option<Signal>
        ensures is { result ≡ numbered number }
        ensures number { IfSome result (λ kind. (row_of kind).number ≡ number) }
    {
        match number {
            0 => Some(Signal::Input),
            1 => Some(Signal::InputFlags),
            2 => Some(Signal::Drain),
            3 => Some(Signal::DrainFlags),
            4 => Some(Signal::Constant),
            5 => Some(Signal::CountUp),
            6 => Some(Signal::Sub),
            7 => Some(Signal::Mul),
            8 => Some(Signal::Shift),
            9 => Some(Signal::Left),
            10 => Some(Signal::Less),
            11 => Some(Signal::Equal),
            12 => Some(Signal::Not),
            13 => Some(Signal::And),
            14 => Some(Signal::Or),
            15 => Some(Signal::Decimate),
            16 => Some(Signal::Repeat),
            17 => Some(Signal::Hold),
            18 => Some(Signal::Delay),
            19 => Some(Signal::LowPass),
            20 => Some(Signal::Clip),
            21 => Some(Signal::SignedConstant),
            22 => Some(Signal::SignedHold),
            23 => Some(Signal::SignedClip),
            24 => Some(Signal::SignedScale),
            25 => Some(Signal::SignedPrefix),
            26 => Some(Signal::CopyFlags),
            27 => Some(Signal::Min),
            28 => Some(Signal::Max),
            29 => Some(Signal::Abs),
            30 => Some(Signal::Offset),
            31 => Some(Signal::Gain),
            32 => Some(Signal::Div),
            33 => Some(Signal::Mod),
            34 => Some(Signal::Sum),
            35 => Some(Signal::Difference),
            36 => Some(Signal::Average),
            37 => Some(Signal::Counter),
            38 => Some(Signal::Edge),
            39 => Some(Signal::Noise),
            40 => Some(Signal::Gate),
            41 => Some(Signal::SignedOffset),
            42 => Some(Signal::SignedGain),
            _ => None,
        }
    }

    /// Returns the kind with this name; `None` if there is none.
    pub fn called(name: &str) -> Option<Signal>
        ensures { result ≡ called name.now }
    {
        match name {
            "input" => Some(Signal::Input),
            "input_flags" => Some(Signal::InputFlags),
            "drain" => Some(Signal::Drain),
            "drain_flags" => Some(Signal::DrainFlags),
            "constant" => Some(Signal::Constant),
            "count_up" => Some(Signal::CountUp),
            "sub" => Some(Signal::Sub),
            "mul" => Some(Signal::Mul),
            "shift" => Some(Signal::Shift),
            "left" => Some(Signal::Left),
            "less" => Some(Signal::Less),
            "equal" => Some(Signal::Equal),
            "not" => Some(Signal::Not),
            "and" => Some(Signal::And),
            "or" => Some(Signal::Or),
            "decimate" => Some(Signal::Decimate),
            "repeat" => Some(Signal::Repeat),
            "hold" => Some(Signal::Hold),
            "delay" => Some(Signal::Delay),
            "low_pass" => Some(Signal::LowPass),
            "clip" => Some(Signal::Clip),
            "constant, signed" => Some(Signal::SignedConstant),
            "hold, signed" => Some(Signal::SignedHold),
            "clip, signed" => Some(Signal::SignedClip),
            "scale, signed" => Some(Signal::SignedScale),
            "prefix, signed" => Some(Signal::SignedPrefix),
            "copy_flags" => Some(Signal::CopyFlags),
            "min" => Some(Signal::Min),
            "max" => Some(Signal::Max),
            "abs" => Some(Signal::Abs),
            "offset" => Some(Signal::Offset),
            "gain" => Some(Signal::Gain),
            "div" => Some(Signal::Div),
            "mod" => Some(Signal::Mod),
            "sum" => Some(Signal::Sum),
            "difference" => Some(Signal::Difference),
            "average" => Some(Signal::Average),
            "counter" => Some(Signal::Counter),
            "edge" => Some(Signal::Edge),
            "noise" => Some(Signal::Noise),
            "gate" => Some(Signal::Gate),
            "offset, signed" => Some(Signal::SignedOffset),
            "gain, signed" => Some(Signal::SignedGain),
            _ => None,
        }
    }

    /// Returns the kind's name in descriptions, and its number of arguments there (no count of negatives).
    pub fn called_by(self) -> (&'static str, usize)
        ensures name { result.0.now ≡ (called_by self).0 }
        ensures arguments { result.1 ≡ (called_by self).1 }
    {
        match self {
            Signal::SignedConstant => ("constant", 1),
            Signal::SignedHold => ("hold", 1),
            Signal::SignedClip => ("clip", 2),
            Signal::SignedScale => ("scale", 1),
            Signal::SignedPrefix => ("prefix", 1),
            Signal::SignedOffset => ("offset", 1),
            Signal::SignedGain => ("gain", 2),
            kind => {
                let row = kind.row();
                (row.name, row.arguments)
            }
        }
    }

    /// Whether a process of the kind can have these arguments.
    pub fn accepts(self, args: [u64; 3]) -> bool
        ensures { result ≡ accepts self args }
    {
        let [a, b, c] = args;
        let two_used = c == 0;
        let one_used = b == 0 && two_used;
        let none_used = a == 0 && one_used;
        match self {
            Signal::Clip => two_used && a.cast_signed() <= b.cast_signed(),
            Signal::Shift | Signal::Left | Signal::LowPass => one_used && a < 64,
            Signal::Decimate | Signal::Repeat => one_used && a > 0,
            Signal::Delay => one_used && a > 0 && a <= MAX_DELAY,
            Signal::Average => one_used && a > 0 && a <= MAX_WINDOW,
            Signal::Gain => two_used && b > 0,
            Signal::Constant | Signal::Hold | Signal::Offset | Signal::Noise => one_used,
            Signal::SignedConstant | Signal::SignedHold => is_one_below(args),
            Signal::SignedScale | Signal::SignedPrefix => is_one_below(args),
            Signal::SignedOffset => is_one_below(args),
            Signal::SignedClip => are_bounds(a, b, c),
            Signal::SignedGain => a < FIRST_BELOW && b > 0 && c == 1,
            Signal::Input | Signal::InputFlags | Signal::Drain | Signal::DrainFlags => none_used,
            Signal::CountUp | Signal::Sub | Signal::Mul | Signal::Less => none_used,
            Signal::Equal | Signal::Not | Signal::And | Signal::Or => none_used,
            Signal::CopyFlags | Signal::Min | Signal::Max | Signal::Abs => none_used,
            Signal::Div | Signal::Mod | Signal::Sum | Signal::Difference => none_used,
            Signal::Counter | Signal::Edge | Signal::Gate => none_used,
        }
    }

    /// Returns the local state in which a process of the kind begins: `hold` and `noise` keep their
    /// argument.
    pub fn start(self, args: [u64; 3]) -> Local
        ensures { result ≡ start_of self args }
    {
        match self {
            Signal::Hold => [READS_FIRST, 0, args[0], 0],
            Signal::SignedHold => [READS_FIRST, 0, word_below(args[0]), 0],
            Signal::Noise => [args[0], 0, 0, 0],
            _ => [0; 4],
        }
    }
}

fn is_one_below(args: [u64; 3]) -> bool
    ensures { result ≡ (at args 2 == 0 && is_one_below args) }
{
    let [a, below, none] = args;
    none == 0 && a < FIRST_BELOW && below == 1
}

fn are_bounds(lo: u64, hi: u64, below: u64) -> bool
    ensures { result ≡ are_bounds lo hi below }
{
    let has_signs = below == 1 || below == 2;
    lo < FIRST_BELOW
        && hi < FIRST_BELOW
        && has_signs
        && word_below(lo).cast_signed() <= bound(hi, below).cast_signed()
}
