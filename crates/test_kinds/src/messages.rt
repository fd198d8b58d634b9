//! Edits of a description, and whole descriptions, each with its fault's number and its message.
use kpn_message::{line_of_table, message_of, message_of_sketch};
use kpn_net::{Check, Net, NetFault, read_sketch};
use kpn_standard::Standard;
use std::alloc::Global;
use std::fmt::Write;
use std::rt::Files;
use std::{fs, str};
use test_cells::bytes_in;
use test_kit::{Cells, Subject};

pub(crate) const KINDS: &str = "count and sink";

/// The description that is edited: a counter, a copy and two sinks.
const TEXT: &str = "version = 2
budget = 100

[[process]]
name = \"src\"
kind = \"count\"
args = [1, 3]

[[process]]
name = \"two\"
kind = \"copy\"

[[process]]
name = \"s0\"
kind = \"sink\"
args = [3]

[[process]]
name = \"s1\"
kind = \"sink\"
args = [3]

[[channel]]
name = \"c0\"
from = \"src\"
to = \"two\"

[[channel]]
name = \"c1\"
from = \"two\"
to = \"s0\"
capacity = 7

[[channel]]
name = \"c2\"
from = \"two\"
out = 1
to = \"s1\"
tokens = []
";

pub(crate) struct Rows;

impl Subject for Rows {
    fn answer(&self, alloc: Global, question: &mut Cells<'_>, answer: &mut String) {
        match question.word() {
            "edit" => {
                let old = bytes_in(alloc, question);
                let new = bytes_in(alloc, question);
                match edited(alloc, old.as_slice(), new.as_slice()) {
                    Some(text) => tell_of(alloc, text.as_bytes(), answer),
                    None => question.is_bad(),
                }
            }
            "text" => {
                let text = bytes_in(alloc, question);
                tell_of(alloc, text.as_slice(), answer);
            }
            "plain" => {
                let fault = match question.word() {
                    "memory" => NetFault::Memory,
                    _ => NetFault::Input,
                };
                let told = message_of::<Standard>(alloc, TEXT.as_bytes(), fault, KINDS);
                let is_none = told.is_none();
                let _ = write!(answer, "{} {is_none} {fault}", fault.number());
            }
            "line" => {
                let line = line_of(question.below(99), question.below(99));
                let _ = write!(answer, "{line:?}");
            }
            _ => question.is_bad(),
        }
    }
}

/// Returns the line of process `k` of `TEXT`, if `TEXT` has `tables` processes.
fn line_of(tables: usize, k: usize) -> Option<usize> {
    line_of_table(TEXT.as_bytes(), b"[[process]]", tables, k)
}

/// The description with a text in place of another, which it must have.
fn edited(alloc: Global, old: &[u8], new: &[u8]) -> Option<String> {
    let (old, new) = (str::from_utf8(old).ok()?, str::from_utf8(new).ok()?);
    if !TEXT.contains(old) {
        return None;
    }
    TEXT.replace(alloc, old, new).ok()
}

fn net_of(alloc: Global, text: &[u8]) -> Result<Net<Standard>, NetFault> {
    let sketch = read_sketch(alloc, text)?;
    Net::check(alloc, &sketch)
}

/// Appends the fault's number and message, and whether that of the sketch, if there is one, is the same.
fn tell_of(alloc: Global, text: &[u8], answer: &mut String) {
    let Err(fault) = net_of(alloc, text) else {
        let _ = answer.push_str("no fault");
        return;
    };
    let told = message_of::<Standard>(alloc, text, fault, KINDS);
    let _ = write!(answer, "{}", fault.number());
    if let Ok(sketch) = read_sketch(alloc, text) {
        let said = message_of_sketch::<Standard>(alloc, &sketch, fault, KINDS);
        let is_same = said.as_deref() == told.as_deref();
        let _ = answer.push_str(if is_same {
            " as of the sketch"
        } else {
            " unlike"
        });
    }
    let _ = write!(answer, ": {}", told.as_deref().unwrap_or("no message"));
}
