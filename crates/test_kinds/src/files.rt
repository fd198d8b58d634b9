//! Rows on heads of WAV files.
use crate::layouts::width_in;
use kpn_tokens::{Layout, Sort, append_wav_head, read_tokens, wav_head};
use std::alloc::Global;
use std::fmt::Write;
use test_cells::{bytes_in, show_bytes, small_in};
use test_kit::{Cells, Subject};

pub(crate) struct Rows;

impl Subject for Rows {
    fn answer(&self, alloc: Global, question: &mut Cells<'_>, answer: &mut String) {
        match question.word() {
            "head" => {
                let is_last = question.word() == "last";
                let bytes = bytes_in(alloc, question);
                let _ = write!(answer, "{:?}", wav_head(bytes.as_slice(), is_last));
            }
            "pieces" => pieces(alloc, question, answer),
            "long" => long(alloc, question, answer),
            "channel" => channel(alloc, question, answer),
            "write" => write_head(alloc, question, answer),
            _ => question.is_bad(),
        }
    }
}

/// The heads of all pieces of a file from its first byte on that are shorter than this, each once.
fn pieces(alloc: Global, question: &mut Cells<'_>, answer: &mut String) {
    let most = question.below(100);
    let bytes = bytes_in(alloc, question);
    let mut wanting = 0usize;
    for length in 0..most {
        let piece = bytes.as_slice().get(..length).unwrap_or(&[]);
        if piece.len() == length && wav_head(piece, false) == Ok(None) {
            wanting = wanting.saturating_add(1);
        }
    }
    let _ = write!(answer, "{wanting} wanting");
}

/// The head of a piece of this length of a file with so many bytes of junk between the cells' two parts.
fn long(alloc: Global, question: &mut Cells<'_>, answer: &mut String) {
    let junk = question.below(100000);
    let length = question.below(100000);
    let is_last = question.word() == "last";
    let mut file = bytes_in(alloc, question);
    let rest = bytes_in(alloc, question);
    let size = u32::try_from(junk).unwrap_or(0).to_le_bytes();
    let filled = file.len().saturating_add(4).saturating_add(junk);
    let is_built = file.extend_from_slice(&size).is_ok()
        && file.resize(filled, 0).is_ok()
        && file.extend_from_slice(rest.as_slice()).is_ok();
    match file.as_slice().get(..length) {
        Some(piece) if is_built => {
            let head = wav_head(piece, is_last);
            let _ = write!(answer, "{:?}", head.map(|head| head.map(|head| head.start)));
        }
        _ => question.is_bad(),
    }
}

/// The words of a channel.
fn channel(alloc: Global, question: &mut Cells<'_>, answer: &mut String) {
    let place = small_in(question);
    let bytes = bytes_in(alloc, question);
    let Ok(Some(head)) = wav_head(bytes.as_slice(), true) else {
        question.is_bad();
        return;
    };
    let Some(frame) = head.frame(place) else {
        let _ = answer.push_str("none");
        return;
    };
    let body = bytes.as_slice().get(44..).unwrap_or(&[]);
    match read_tokens(alloc, Layout::Frames(frame), Sort::Words, body) {
        Ok(tokens) => {
            let _ = write!(answer, "{:?}", tokens.as_slice());
        }
        Err(_) => question.is_bad(),
    }
}

/// The head of a file of two channels and 8000 frames a second, two in all.
fn write_head(alloc: Global, question: &mut Cells<'_>, answer: &mut String) {
    let width = width_in(question);
    let mut out = Vec::new(alloc);
    if append_wav_head(&mut out, 2, width, 8000, Some(2)).is_err() {
        question.is_bad();
    }
    show_bytes(answer, out.as_slice());
}
