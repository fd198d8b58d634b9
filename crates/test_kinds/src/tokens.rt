//! Rows on tokens: how files have them, and how they are written.
use crate::layouts::{cells_in, decimals_in, frame_in, layout_in, separator_in, table_in};
use kpn_tokens::{
    Layout, Sort, append_names, append_row, append_token, append_tokens, column_named,
    count_misfits, first_line, line_feed_in, read_tokens, record_in, token_of_frame,
    token_of_record,
};
use std::alloc::Global;
use std::fmt::Write;
use std::str;
use test_cells::{bytes_in, show_bytes, token_in, tokens_in};
use test_kit::{Cells, Subject};

pub(crate) struct Rows;

impl Subject for Rows {
    fn answer(&self, alloc: Global, question: &mut Cells<'_>, answer: &mut String) {
        match question.word() {
            "read" => read(alloc, question, answer, false),
            "again" => read(alloc, question, answer, true),
            "write" => write_tokens(alloc, question, answer),
            "append" => append(alloc, question, answer),
            "row" => row(alloc, question, answer),
            "names" => names(alloc, question, answer),
            "column" => column(alloc, question, answer),
            other => say(alloc, other, question, answer),
        }
    }
}

fn sort_in(cells: &mut Cells<'_>) -> Sort {
    match cells.word() {
        "words" => Sort::Words,
        _ => Sort::Flags,
    }
}

/// The tokens of a file; and the bytes of these, and how many of them do not fit.
fn read(alloc: Global, question: &mut Cells<'_>, answer: &mut String, is_written: bool) {
    let layout = layout_in(question);
    let sort = sort_in(question);
    let bytes = bytes_in(alloc, question);
    let tokens = match read_tokens(alloc, layout, sort, bytes.as_slice()) {
        Ok(tokens) => tokens,
        Err(fault) => {
            let _ = write!(answer, "{fault:?}");
            return;
        }
    };
    let _ = write!(answer, "{:?}", tokens.as_slice());
    if is_written {
        let mut out = Vec::new(alloc);
        let clipped = append_tokens(&mut out, layout, tokens.as_slice());
        let _ = write!(answer, " {clipped:?} ");
        show_bytes(answer, out.as_slice());
    }
}

/// The bytes of tokens, and how many of these do not fit, or the first.
fn write_tokens(alloc: Global, question: &mut Cells<'_>, answer: &mut String) {
    let layout = layout_in(question);
    let tokens = tokens_in(alloc, question);
    let mut out = Vec::new(alloc);
    let clipped = append_tokens(&mut out, layout, tokens.as_slice());
    let _ = write!(answer, "{clipped:?} ");
    show_bytes(answer, out.as_slice());
}

/// Two tokens, one after the other.
fn append(alloc: Global, question: &mut Cells<'_>, answer: &mut String) {
    let decimals = decimals_in(question);
    let mut out = Vec::new(alloc);
    for _ in 0..2 {
        if append_token(&mut out, decimals, token_in(question)).is_err() {
            question.is_bad();
        }
    }
    show_bytes(answer, out.as_slice());
}

/// A row of cells.
fn row(alloc: Global, question: &mut Cells<'_>, answer: &mut String) {
    let table = table_in(question);
    let cells = cells_in(alloc, question);
    let mut out = Vec::new(alloc);
    if append_row(&mut out, table, cells.as_slice()).is_err() {
        question.is_bad();
    }
    show_bytes(answer, out.as_slice());
}

/// A row of three names.
fn names(alloc: Global, question: &mut Cells<'_>, answer: &mut String) {
    let separator = separator_in(question);
    let first = bytes_in(alloc, question);
    let second = bytes_in(alloc, question);
    let third = bytes_in(alloc, question);
    let names = [first.as_slice(), second.as_slice(), third.as_slice()];
    let mut out = Vec::new(alloc);
    if append_names(alloc, &mut out, separator, &names).is_err() {
        question.is_bad();
    }
    show_bytes(answer, out.as_slice());
}

/// The first record of a file, and the place in it of a column of this name.
fn column(alloc: Global, question: &mut Cells<'_>, answer: &mut String) {
    let separator = separator_in(question);
    let file = bytes_in(alloc, question);
    let name = bytes_in(alloc, question);
    let Some(head) = record_in(Layout::PLAIN, file.as_slice(), true) else {
        let _ = answer.push_str("no record");
        return;
    };
    let head = file.as_slice().get(..head.length).unwrap_or(&[]);
    let name = str::from_utf8(name.as_slice()).unwrap_or("");
    let _ = write!(answer, "{:?}", column_named(alloc, separator, head, name));
}

fn say(alloc: Global, what: &str, question: &mut Cells<'_>, answer: &mut String) {
    let _ = match what {
        "says" => {
            let layout = layout_in(question);
            let sort = sort_in(question);
            let bytes = bytes_in(alloc, question);
            let said = token_of_record(alloc, layout, sort, bytes.as_slice());
            write!(answer, "{said:?}")
        }
        "frame" => {
            let frame = frame_in(question);
            let sort = sort_in(question);
            let bytes = bytes_in(alloc, question);
            write!(
                answer,
                "{:?}",
                token_of_frame(&frame, sort, bytes.as_slice())
            )
        }
        "first" => {
            let decimals = decimals_in(question);
            let sort = sort_in(question);
            let bytes = bytes_in(alloc, question);
            let line = first_line(decimals, sort, bytes.as_slice());
            write!(answer, "{:?}", line.map(|line| (line.length, line.said)))
        }
        "feed" => write!(
            answer,
            "{:?}",
            line_feed_in(bytes_in(alloc, question).as_slice())
        ),
        "separator" => write!(answer, "{}", separator_in(question).byte()),
        "size" => {
            let frame = frame_in(question);
            write!(answer, "{} {}", frame.sample.width.bytes(), frame.size())
        }
        "layout" => {
            let table = table_in(question);
            write!(answer, "{:?}", table.layout(decimals_in(question)))
        }
        "misfits" => {
            let table = table_in(question);
            let layout = table.layout(decimals_in(question));
            let tokens = tokens_in(alloc, question);
            write!(answer, "{:?}", count_misfits(layout, tokens.as_slice()))
        }
        _ => {
            question.is_bad();
            Ok(())
        }
    };
}
