//! The formats of files.
ghost use Rattle.std.specs.Prelude.{◌≡◌};
ghost use Rattle.hox_format.specs.Forms.{form, form_of_file, is_wav_name, unsigned, unsigned_form};

use kpn_tokens::{Decimals, Sample, Separator, Width};

/// How a file represents tokens.
#[derive(Clone, Copy, Debug, PartialEq, Eq)]
pub enum Format<'a> {
    /// A token per line.
    Text(Decimals),
    /// A token per line, in one column.
    Csv(Csv<'a>),
    /// Samples after the head of a WAV file.
    Wav(Wav),
    /// Samples and nothing else.
    Raw(Raw),
}

/// A CSV file: its separator, the format of words, whether a row of names comes first, and the column of the
/// tokens, if chosen.
#[derive(Clone, Copy, Debug, PartialEq, Eq)]
pub struct Csv<'a> {
    pub separator: Separator,
    pub decimals: Decimals,
    pub has_header: bool,
    pub column: Option<Which<'a>>,
}

/// A column: by its place, counted from 0, or by its name in the row of names.
#[derive(Clone, Copy, Debug, PartialEq, Eq)]
pub enum Which<'a> {
    Place(usize),
    Name(&'a str),
}

/// A WAV file: the channel of the tokens, counted from 0, if chosen. For writing: the bytes per sample, the
/// samples per second, if stated, and whether a word without a sample is clipped to the nearest one.
#[derive(Clone, Copy, Debug, PartialEq, Eq)]
pub struct Wav {
    pub channel: Option<u16>,
    pub width: Width,
    pub rate: Option<u32>,
    pub clips: bool,
}

/// Samples: their format; the channel of the tokens, counted from 0, if chosen; and how many channels there
/// are, if stated.
#[derive(Clone, Copy, Debug, PartialEq, Eq)]
pub struct Raw {
    pub sample: Sample,
    pub channel: Option<u16>,
    pub channels: Option<u16>,
}

impl Csv<'_> {
    /// Fields separated by commas, whole signed numbers, no row of names.
    pub const PLAIN: Csv<'static> = Csv {
        separator: Separator::Comma,
        decimals: Decimals::WHOLE,
        has_header: false,
        column: None,
    };
}

impl Wav {
    /// Samples of 16 bits, without clipping.
    pub const PLAIN: Wav = Wav {
        channel: None,
        width: Width::Two,
        rate: None,
        clips: false,
    };
}

impl<'a> Format<'a> {
    /// Lines of whole signed numbers.
    pub const TEXT: Format<'static> = Format::Text(Decimals::WHOLE);

    /// Returns the default format of a file: WAV if the name ends in `.wav`, in letters of any case, else
    /// lines of text.
    pub fn of_file(file: &str) -> Format<'static>
        ensures { form result ≡ form_of_file file.now }
    {
        if is_wav_name(file) {
            Format::Wav(Wav::PLAIN)
        } else {
            Format::TEXT
        }
    }

    /// Returns the format with the words of lines and fields unsigned.
    pub fn unsigned(self) -> Format<'a>
        ensures { form result ≡ unsigned_form (form self.entry) }
    {
        match self {
            Format::Text(decimals) => Format::Text(unsigned(decimals)),
            Format::Csv(csv) => Format::Csv(Csv {
                decimals: unsigned(csv.decimals),
                ..csv
            }),
            Format::Wav(wav) => Format::Wav(wav),
            Format::Raw(raw) => Format::Raw(raw),
        }
    }
}

pub(crate) fn unsigned(decimals: Decimals) -> Decimals
    ensures { result ≡ unsigned decimals }
{
    Decimals {
        is_unsigned: true,
        ..decimals
    }
}

fn is_wav_name(file: &str) -> bool
    ensures { result ≡ is_wav_name file.now }
{
    let bytes = file.as_bytes();
    bytes.len() >= 4 && bytes[bytes.len() - 4..].eq_ignore_ascii_case(b".wav")
}
