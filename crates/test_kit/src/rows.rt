//! Files of rows `question = answer`.
use crate::cells::Cells;
use crate::report::Report;
use std::alloc::Global;
use std::fs;
use std::rt::Files;

/// What answers the questions of a file.
pub trait Subject {
    /// Reads a question, and appends its answer as the file writes it.
    fn answer(&self, alloc: Global, question: &mut Cells<'_>, answer: &mut String);
}

/// Compares each row of `data/NAME` with what the subject answers. Blank lines and those that begin with `#` are no rows.
/// The report gets a line for each row that differs, and then the number of rows that agree, so that no row can be left out.
pub fn compare_file<S: Subject, R: Files + AllocGlobal>(
    rt: &R,
    report: &mut Report,
    name: &str,
    subject: &S,
) {
    let Ok(text) = fs::read_to_string(rt, name) else {
        report.fail(name);
        return;
    };
    let mut agreed = 0usize;
    for line in text.lines() {
        if line.is_empty() || line.starts_with("#") {
            continue;
        }
        if agrees(rt.alloc(), report, line, subject) {
            agreed = agreed.saturating_add(1);
        }
    }
    report.show(name, agreed);
}

/// Compares a row; if it differs, appends it to the report with the answer that came.
fn agrees<S: Subject>(alloc: Global, report: &mut Report, line: &str, subject: &S) -> bool {
    let Some((question, due)) = line.split_once(" = ") else {
        report.fail(line);
        return false;
    };
    let mut cells = Cells::of(question);
    let mut answer = String::new(alloc);
    subject.answer(alloc, &mut cells, &mut answer);
    if cells.are_read() && answer.as_str() == due {
        return true;
    }
    report.line(line);
    report.show(
        if cells.are_read() {
            "but it is"
        } else {
            "but it can't be read, and gives"
        },
        answer.as_str(),
    );
    false
}
