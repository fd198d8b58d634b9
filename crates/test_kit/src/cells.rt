//! The cells of a question.

/// The cells of a question, from left to right, with a blank between two. It notes whether each was there and read.
#[derive(Drop)]
pub struct Cells<'a> {
    rest: &'a str,
    is_well: bool,
}

impl<'a> Cells<'a> {
    /// Returns the cells of a text.
    pub fn of(text: &'a str) -> Cells<'a> {
        Cells {
            rest: text,
            is_well: true,
        }
    }

    /// Returns the next cell.
    pub fn word(&mut self) -> &'a str {
        let rest = self.rest;
        let (word, rest) = rest.split_once(" ").unwrap_or((rest, ""));
        self.rest = rest;
        self.is_well = self.is_well && !word.is_empty();
        word
    }

    /// Returns the next cell as a number, as `number` reads it.
    pub fn number(&mut self) -> u64 {
        let Some(number) = number(self.word()) else {
            self.is_well = false;
            return 0;
        };
        number
    }

    /// Returns the next cell as a number below a bound.
    pub fn below(&mut self, bound: usize) -> usize {
        let number = self.number();
        if number < bound as u64 {
            return number as usize;
        }
        self.is_well = false;
        0
    }

    /// Returns all cells that are left, as they stand.
    pub fn rest(&mut self) -> &'a str {
        let rest = self.rest;
        self.rest = "";
        rest
    }

    /// Notes that a cell means nothing here.
    pub fn is_bad(&mut self) {
        self.is_well = false;
    }

    /// Whether all cells were read, and each meant something.
    pub fn are_read(&self) -> bool {
        self.is_well && self.rest.is_empty()
    }
}

/// Reads a word of 64 bits: decimal; `0x` and hexadecimal; `-` and decimal, as two's complement; or `max` and `max-N`.
pub fn number(text: &str) -> Option<u64> {
    if let Some(below) = text.strip_prefix("max-") {
        return u64::MAX.checked_sub(below.parse::<u64>().ok()?);
    }
    if let Some(digits) = text.strip_prefix("0x") {
        return u64::from_str_radix(digits, 16).ok();
    }
    if let Some(digits) = text.strip_prefix("-") {
        return Some(0u64.wrapping_sub(digits.parse::<u64>().ok()?));
    }
    if text == "max" {
        Some(u64::MAX)
    } else {
        text.parse::<u64>().ok()
    }
}
