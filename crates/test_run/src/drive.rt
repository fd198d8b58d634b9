//! Files of rows `question = answer`. A question begins with what is done.
use crate::crews::tell_crew;
use crate::keepers::tell_kept;
use crate::runs::tell_run;
use crate::stopped::tell_stopped;
use crate::watched::tell_watched;
use std::alloc::{AllocError, Global};
use std::fmt::Write as _;
use std::fs;
use std::rt::{Clock, Files};
use std::sync::Wait;
use std::thread::Threads;
use test_kit::{Cells, Report};

/// Compares each row of `data/NAME` with what is answered, as `test_kit::compare_file` does.
pub(crate) fn compare_rows<R: Threads + Wait + Clock + Files + Sync + AllocGlobal>(
    rt: &R,
    report: &mut Report,
    name: &str,
) {
    let Ok(text) = fs::read_to_string(rt, name) else {
        report.fail(name);
        return;
    };
    let mut differs = String::new(rt.alloc());
    let mut agreed = 0usize;
    for line in text.lines() {
        if line.is_empty() || line.starts_with("#") {
            continue;
        }
        let mut question = Cells::of(line.split_once(" = ").unwrap_or((line, "")).0);
        let mut answer = String::new(rt.alloc());
        let _ = answer_row(rt, rt.alloc(), &mut question, &mut answer);
        if agrees(&mut differs, line, &question, answer.as_str()) {
            agreed = agreed.saturating_add(1);
        }
    }
    report_file(report, name, agreed, differs.as_str());
}

fn answer_row<R: Threads + Wait + Clock + Files + Sync + AllocGlobal>(
    rt: &R,
    alloc: Global,
    question: &mut Cells<'_>,
    answer: &mut String,
) -> Result<(), AllocError> {
    match question.word() {
        "run" => tell_run(rt, alloc, question, answer),
        "keep" => tell_kept(rt, alloc, question, answer),
        "watch" => tell_watched(rt, alloc, question, answer),
        "stop" => tell_stopped(rt, alloc, question, answer),
        "crew" => tell_crew(rt, alloc, question, answer),
        _ => Err(AllocError),
    }
}

/// Whether a line has this answer to its question; if not, both are appended to what differs.
pub(crate) fn agrees(differs: &mut String, line: &str, question: &Cells<'_>, answer: &str) -> bool {
    let due = line.split_once(" = ").unwrap_or((line, "")).1;
    if question.are_read() && answer == due {
        return true;
    }
    let told = if question.are_read() {
        "but it is"
    } else {
        "but it can't be read, and gives"
    };
    let _ = writeln!(differs, "{line}\n{told}: {answer:?}");
    false
}

/// Reports the lines that differ, and how many agree.
pub(crate) fn report_file(report: &mut Report, name: &str, agreed: usize, differs: &str) {
    for line in differs.lines() {
        report.line(line);
    }
    report.show(name, agreed);
}
