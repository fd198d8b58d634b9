//! Tests of what no command of `hox` shows: what arguments, names of formats and cards of formulas are read as; where formulas
//! are wrong; reports that no network gives, as JSON; runs by too few and too many workers; and an observer of a run. What
//! commands show stands in tests/transcripts.d and tests/worked_formulas.d.
#![tactic(auto)]

mod arguments;
mod files;
mod formats;
mod formulas;
mod runs;

use std::process::ExitCode;
use test_kit::{Report, compare_file};

fn main(rt: HostRuntime) -> ExitCode {
    let mut report = Report::new(rt.alloc());
    compare_file(&rt, &mut report, "arguments.txt", &arguments::Rows);
    compare_file(&rt, &mut report, "formats.txt", &formats::Rows { rt: &rt });
    compare_file(&rt, &mut report, "shapes.txt", &formulas::Rows);
    formulas::show_cards(&mut report);
    formulas::show_faults(&rt, &mut report);
    formulas::show_others(rt.alloc(), &mut report);
    files::show_pairs(rt.alloc(), &mut report);
    files::show_json(&rt, &mut report);
    files::show_messages(&rt, &mut report);
    runs::show(&rt, &mut report);
    report.print(&rt)
}
