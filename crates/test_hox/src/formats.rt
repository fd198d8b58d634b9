//! Rows on the names of formats, and on what files hold before the tokens.
use hox_format::{
    FileHead, FirstBytes, Format, append_head, append_tail, decimals_of, format_of, layout_of,
    records_in, records_of, shared_by,
};
use std::alloc::{AllocError, Global};
use std::fmt::Write;
use std::fs;
use std::rt::Files;
use test_kit::{Cells, Subject};

#[derive(Clone, Copy)]
pub(crate) struct Rows<'a, R> {
    pub(crate) rt: &'a R,
}

impl<'a, R: Files + AllocGlobal> Subject for Rows<'a, R> {
    fn answer(&self, alloc: Global, question: &mut Cells<'_>, answer: &mut String) {
        let asked = question.word();
        if asked == "file" {
            let _ = write!(answer, "{:?}", Format::of_file(question.rest()));
            return;
        }
        if asked == "records" {
            records(self.rt, question, answer);
            return;
        }
        let count = if asked == "shared" || asked == "around" || asked == "tail" {
            question.number()
        } else {
            0
        };
        let named = format_of(question.rest());
        let Ok(format) = named else {
            let _ = write!(answer, "{named:?}");
            return;
        };
        let _ = match asked {
            "named" => write!(answer, "{named:?}"),
            "unsigned" => write!(answer, "{:?}", format.unsigned()),
            "layout" => write!(answer, "{:?}", layout_of(&format)),
            "decimals" => write!(answer, "{:?}", decimals_of(&format)),
            "shared" => write!(answer, "{:?}", shared_by(&format, count as usize)),
            "around" => around(alloc, &format, u32::try_from(count).unwrap_or(0), answer),
            _ => tail(alloc, &format, count, answer),
        };
    }
}

/// The format's records for a channel: `PLACE COUNT FILE LENGTH last|first FORMAT`, with the first bytes of the file, which
/// are the last ones too or not; and then the records' bytes.
fn records<R: Files + AllocGlobal>(rt: &R, question: &mut Cells<'_>, answer: &mut String) {
    let place = question.below(70000);
    let count = question.below(70000);
    let file = fs::read(rt, question.word());
    let length = question.below(1000);
    let is_last = question.word() == "last";
    let (Ok(format), Ok(file)) = (format_of(question.rest()), file) else {
        question.is_bad();
        return;
    };
    let bytes = file.as_slice().get(..length).unwrap_or(file.as_slice());
    let first = FirstBytes { bytes, is_last };
    let Ok(records) = records_in(rt.alloc(), &format, place, count, &first) else {
        question.is_bad();
        return;
    };
    let _ = write!(answer, "{records:?}");
    if let Ok(Some(found)) = records {
        let _ = write!(answer, " {:?}", records_of(bytes, &found));
    }
}

/// What is written before the tokens of channels `a` and `b;c`, and after three bytes of them, with so many frames; with 0
/// their number is not known.
fn around(
    alloc: Global,
    format: &Format<'_>,
    frames: u32,
    answer: &mut String,
) -> Result<(), AllocError> {
    let frames = if frames == 0 { None } else { Some(frames) };
    let mut out = Vec::new(alloc);
    let head = FileHead {
        names: &[b"a", b"b;c"],
        rate: 8000,
        frames,
    };
    append_head(alloc, &mut out, format, &head)?;
    append_tail(&mut out, format, 3, frames)?;
    write!(answer, "{:?}", out.as_slice())
}

/// What is written after so many bytes of a frame.
fn tail(
    alloc: Global,
    format: &Format<'_>,
    size: u64,
    answer: &mut String,
) -> Result<(), AllocError> {
    let mut out = Vec::new(alloc);
    append_tail(&mut out, format, size, Some(1))?;
    write!(answer, "{:?}", out.as_slice())
}
