//! The lines and words of a report.
ghost use Rattle.std.specs.Prelude.{◌≡◌, [], IfOk, map, slice_index_or};
ghost use Rattle.hox_json.specs.Json.{first_text, lines, lines_of, text_after, word_of, words_after};

use std::alloc::{AllocError, Global};

/// Returns the lines of a text, and an empty one after the last line feed.
pub(crate) fn lines_in<'a>(alloc: Global, text: &'a str) -> Result<Vec<&'a str>, AllocError>
    ensures { IfOk result (λ v. map (λ s. s.now) v.items ≡ lines text.now) }
{
    text.split('\n').collect(alloc)
}

/// Returns the first word of a line.
pub(crate) fn word_of<'a>(line: &'a str) -> &'a str
    ensures { result.now ≡ word_of line.now }
{
    match line.split_once(' ') {
        Some((word, _)) => word,
        None => line,
    }
}

/// Returns what follows the first word of a line.
pub(crate) fn text_after<'a>(line: &'a str) -> &'a str
    ensures { result.now ≡ text_after line.now }
{
    match line.split_once(' ') {
        Some((_, text)) => text,
        None => "",
    }
}

/// Returns the words after the first of a line.
pub(crate) fn words_after<'a>(alloc: Global, line: &'a str) -> Result<Vec<&'a str>, AllocError>
    ensures { IfOk result (λ v. map (λ s. s.now) v.items ≡ words_after line.now) }
{
    line.split(' ').skip(1).collect(alloc)
}

/// Returns the lines that begin with a word.
pub(crate) fn lines_of<'a>(
    alloc: Global,
    lines: &[&'a str],
    word: &str,
) -> Result<Vec<&'a str>, AllocError>
    ensures { IfOk result (λ v. map (λ s. s.now) v.items ≡ lines_of word.now (map (λ s. s.now) lines.now)) }
{
    let mut found = Vec::new(alloc);
    for line in lines {
        if word_of(line) == word {
            found.push(*line)?;
        }
    }
    Ok(found)
}

/// Returns what follows the first word of the first line.
pub(crate) fn first_text<'a>(lines: &[&'a str]) -> &'a str
    ensures { result.now ≡ first_text (map (λ s. s.now) lines.now) }
{
    text_after(first_line(lines))
}

pub(crate) fn first_line<'a>(lines: &[&'a str]) -> &'a str
    ensures { result.now ≡ slice_index_or (map (λ s. s.now) lines.now) 0 [] }
{
    match lines.first() {
        Some(line) => *line,
        None => "",
    }
}
