//! Lines of only decimal digits, the usual case.
ghost use Rattle.std.specs.Prelude.{◌≡◌, ◌<◌, ◌≤◌, IfSome, length, take};
ghost use Rattle.std.specs.Str.Parse.{AllDigits, digits_value};
ghost use Rattle.kpn_tokens.specs.WordLines.{IsNumberLine, IsWordLine};

/// The most digits to read; each number of this many fits 64 bits.
const MOST_DIGITS: usize = 18;

#[derive(Clone, Copy, Debug, PartialEq, Eq)]
struct Digits {
    count: usize,
    number: u64,
}

/// The line's bytes without the line feed, and its number.
#[derive(Clone, Copy, Debug, PartialEq, Eq)]
struct NumberLine {
    length: usize,
    number: u64,
}

/// The line's bytes without the line feed, and its word.
#[derive(Clone, Copy, Debug, PartialEq, Eq)]
pub(crate) struct WordLine {
    pub(crate) length: usize,
    pub(crate) word: u64,
}

/// The first line, if it is a word of at most 18 digits, with or without a minus.
#[inline(always)]
pub(crate) fn word_line_in(text: &[u8]) -> Option<WordLine>
    ensures { IfSome result (λ line. IsWordLine text.now line.length line.word) }
{
    if !text.is_empty() && text[0] == b'-' {
        let line = number_line_in(&text[1..])?;
        return Some(WordLine {
            length: line.length + 1,
            word: 0u64.wrapping_sub(line.number),
        });
    }
    let line = number_line_in(text)?;
    Some(WordLine {
        length: line.length,
        word: line.number,
    })
}

#[inline(always)]
fn number_line_in(text: &[u8]) -> Option<NumberLine>
    ensures { IfSome result (λ line. IsNumberLine text.now line.length line.number) }
{
    let digits = digits_in(text);
    if digits.count == 0 || digits.count >= text.len() || text[digits.count] != b'\n' {
        return None;
    }
    Some(NumberLine {
        length: digits.count,
        number: digits.number,
    })
}

/// Reads at most 18 digits.
#[inline(always)]
fn digits_in(text: &[u8]) -> Digits
    ensures within { result.count ≤ length text.now }
    ensures few { result.count ≤ 18 }
    ensures all { AllDigits 10 (take result.count text.now) }
    ensures number { result.number ≡ digits_value 10 (take result.count text.now) }
{
    let mut number: u64 = 0;
    for (count, byte) in text.iter().enumerate() {
        if *byte < b'0' || b'9' < *byte || count == MOST_DIGITS {
            return Digits { count, number };
        }
        number = number * 10 + (*byte - b'0') as u64;
    }
    Digits {
        count: text.len(),
        number,
    }
}
