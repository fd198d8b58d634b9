//! Finds the tables of an array in a text.
ghost use Rattle.std.specs.Prelude.{◌≡◌, ◌≤◌, ◌==◌, ◌||◌, ◌&&◌, true, length, slice_index, if◌then◌else◌, IfSome, IfNone, OnSome};
ghost use Rattle.kpn_message.specs.Lines.{count_below, is_blank, stands_at, is_header, has_word, tells_lines, IsLineOf};

/// A string of several lines may begin with three quotation marks or three apostrophes.
const QUOTES: [u8; 3] = [b'"', b'"', b'"'];

const APOSTROPHES: [u8; 3] = [b'\'', b'\'', b'\''];

/// Returns the line, counted from 1, of the header, such as `[[process]]`, of table `k` of an array of
/// `tables` tables. With as many headers as tables, header `k` is that of table `k`: only in a string of
/// several lines can another line of a TOML text begin like it. `None` if the text has such a string or
/// another number of headers, or if there is no table `k`.
///
/// ```text
/// line_of_table(TEXT.as_bytes(), b"[[process]]", tables, k)
/// ```
pub fn line_of_table(text: &[u8], header: &[u8], tables: usize, k: usize) -> Option<usize>
    ensures line { IfSome result (IsLineOf text.now header.now k) }
    ensures sure { OnSome result (tells_lines text.now header.now tables ≡ true) }
    ensures told { IfNone result (tells_lines text.now header.now tables ≡ true → tables ≤ k) }
{
    if !tells_lines(text, header, tables) {
        return None;
    }
    let mut left = k;
    let mut line = 1usize;
    let mut begins = true;
    for i in 0..text.len() {
        let here = line;
        let stands = is_header(text, header, i, begins);
        line += one_if(text[i] == b'\n');
        begins = begins_after(text[i], begins);
        if stands {
            if left == 0 {
                return Some(here);
            }
            left -= 1;
        }
    }
    None
}

/// Whether each table begins with a header, and nothing else looks like one.
fn tells_lines(text: &[u8], header: &[u8], tables: usize) -> bool
    ensures { result ≡ tells_lines text.now header.now tables }
{
    !has_word(text, &QUOTES)
        && !has_word(text, &APOSTROPHES)
        && count_headers(text, header) == tables
}

fn count_headers(text: &[u8], header: &[u8]) -> usize
    ensures { result ≡ count_below (is_header text.now header.now) (length text.now) }
{
    let mut count = 0usize;
    let mut begins = true;
    for i in 0..text.len() {
        count += one_if(is_header(text, header, i, begins));
        begins = begins_after(text[i], begins);
    }
    count
}

fn has_word(text: &[u8], word: &[u8]) -> bool
    ensures { result ≡ has_word text.now word.now }
{
    count_word(text, word) != 0
}

fn count_word(text: &[u8], word: &[u8]) -> usize
    ensures { result ≡ count_below (stands_at text.now word.now) (length text.now) }
{
    let mut count = 0usize;
    for i in 0..text.len() {
        count += one_if(text[i..].starts_with(word));
    }
    count
}

fn is_header(text: &[u8], header: &[u8], i: usize, begins: bool) -> bool
    requires { i ≤ length text.now }
    ensures { result ≡ (begins && stands_at text.now header.now i) }
{
    begins && text[i..].starts_with(header)
}

/// Whether only blanks precede the byte after this one in its line.
fn begins_after(byte: u8, begins: bool) -> bool
    ensures { result ≡ (byte == 10 || (is_blank byte && begins)) }
{
    byte == b'\n' || ((byte == b' ' || byte == b'\t') && begins)
}

fn one_if(holds: bool) -> usize
    ensures one { result ≡ (if holds then 1 else 0) }
    ensures least { result ≤ 1 }
{
    if holds { 1 } else { 0 }
}
