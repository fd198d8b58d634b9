//! How files write tokens.
ghost use Rattle.std.specs.Prelude.{◌≡◌};
ghost use Rattle.kpn_tokens.specs.Rows.{separator_byte};
ghost use Rattle.kpn_tokens.specs.Samples.{bytes_in, frame_size};

use kpn_model::Token;

/// How to cut the body of a file into records, and how they write tokens.
#[derive(Clone, Copy, Debug, PartialEq, Eq)]
pub enum Layout {
    /// A token per line, in its first column: before `#`, which begins a comment, and the first comma.
    Lines(Decimals),
    /// A token per line, in one of its fields.
    Fields(Column),
    /// A token per frame; all have one size.
    Frames(Frame),
}

/// How a word is written in decimal digits, in units of 10^-`digits`: with two digits, `21.37` is the word
/// 2137. A word from 2^63 on is written as a number below zero unless words are unsigned.
#[derive(Clone, Copy, Debug, PartialEq, Eq)]
pub struct Decimals {
    pub digits: u8,
    pub is_unsigned: bool,
}

/// A column of a CSV file, counted from 0.
#[derive(Clone, Copy, Debug, PartialEq, Eq)]
pub struct Column {
    pub place: usize,
    pub separator: Separator,
    pub decimals: Decimals,
}

/// The token of a cell, if any, and how its column writes a word.
#[derive(Clone, Copy, Debug, PartialEq, Eq)]
pub struct Cell {
    pub decimals: Decimals,
    pub token: Option<Token>,
}

/// What separates the fields of a line.
#[derive(Clone, Copy, Debug, PartialEq, Eq)]
pub enum Separator {
    Comma,
    Semicolon,
    Tab,
}

/// A frame: some bytes, a sample, and some bytes.
#[derive(Clone, Copy, Debug, PartialEq, Eq)]
pub struct Frame {
    pub before: u16,
    pub sample: Sample,
    pub after: u16,
}

/// How a word is written in bytes. If it does not fit, that is a fault, or the nearest is written if the
/// sample clips.
#[derive(Clone, Copy, Debug, PartialEq, Eq)]
pub struct Sample {
    pub width: Width,
    pub coding: Coding,
    pub endian: Endian,
    pub clips: bool,
}

/// The number of bytes of a sample.
#[derive(Clone, Copy, Debug, PartialEq, Eq)]
pub enum Width {
    One,
    Two,
    Three,
    Four,
    Eight,
}

/// Which words numbers of this width represent: themselves; two's complement; or offset by half of all
/// numbers, as in WAV files of 8 bits.
#[derive(Clone, Copy, Debug, PartialEq, Eq)]
pub enum Coding {
    Unsigned,
    Signed,
    Offset,
}

/// Which byte of a sample is first: the lowest or the highest.
#[derive(Clone, Copy, Debug, PartialEq, Eq)]
pub enum Endian {
    Little,
    Big,
}

/// What is wrong with a record.
#[derive(Clone, Copy, Debug, PartialEq, Eq)]
pub enum RecordFault {
    /// It has no number for a word.
    NotAWord,
    /// It has neither `true` nor `false`, or a sample neither 0 nor 1, for a flag.
    NotAFlag,
    /// The digits of its number include `_`.
    Underscore,
    /// Its number has more digits after the point than the layout.
    TooPrecise,
    /// Its number is above 2^64 - 1, or below -2^63.
    OutOfRange,
    /// It is not UTF-8.
    NoText,
    /// The line has no field in this column.
    NoField,
    /// The field is empty.
    EmptyField,
    /// A quoted field continues past the end of the line.
    OpenQuote,
    /// A carriage return within the line ends a row.
    TwoRows,
    /// The file ends within a frame.
    CutShort,
}

/// Where the first record ends, without its line feed, and how many bytes it uses with it.
#[derive(Clone, Copy, Debug, PartialEq, Eq)]
pub struct Cut {
    pub length: usize,
    pub used: usize,
}

impl Layout {
    /// Lines of whole numbers, with a sign.
    pub const PLAIN: Layout = Layout::Lines(Decimals::WHOLE);
}

impl Decimals {
    /// Whole numbers, with a sign.
    pub const WHOLE: Decimals = Decimals {
        digits: 0,
        is_unsigned: false,
    };
}

impl Separator {
    /// Returns the byte between the fields.
    pub fn byte(self) -> u8
        ensures { result ≡ separator_byte self }
    {
        match self {
            Separator::Comma => b',',
            Separator::Semicolon => b';',
            Separator::Tab => b'\t',
        }
    }
}

impl Width {
    /// Returns the number of bytes.
    pub fn bytes(self) -> usize
        ensures { result ≡ bytes_in self }
    {
        match self {
            Width::One => 1,
            Width::Two => 2,
            Width::Three => 3,
            Width::Four => 4,
            Width::Eight => 8,
        }
    }
}

impl Frame {
    /// Returns a frame of only a sample.
    pub fn of(sample: Sample) -> Frame
        ensures { result ≡ record { before = 0; sample = sample; after = 0 } }
    {
        Frame {
            before: 0,
            sample,
            after: 0,
        }
    }

    /// Returns how many bytes a frame has.
    pub fn size(&self) -> usize
        ensures { result ≡ frame_size self.now }
    {
        self.before as usize + self.sample.width.bytes() + self.after as usize
    }
}
