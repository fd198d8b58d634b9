//! Texts of a description, as shown to people.
use std::fmt;

/// The most characters of a text that are shown.
const LONGEST: usize = 40;

/// A text in quotation marks, on one line: characters that would break it are escaped, and a long text is cut.
#[derive(Clone, Copy)]
pub(crate) struct Quoted<'a>(pub(crate) &'a str);

impl fmt::Display for Quoted<'_> {
    fn fmt<W: fmt::Write>(&self, f: &mut fmt::Formatter<W>) -> fmt::Result {
        f.write_str("\"")?;
        for c in self.0.chars().take(LONGEST) {
            c.escape_debug().fmt(f)?;
        }
        f.write_str(end_of(self.0))
    }
}

/// Returns the text's end: the quotation mark, after dots if it is cut.
fn end_of(text: &str) -> &'static str {
    match text.chars().nth(LONGEST) {
        Some(_) => "..\"",
        None => "\"",
    }
}
