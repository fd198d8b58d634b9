//! One allocation fails, whichever it is, while `execute` runs a network with two workers; or a thread doesn't start.
//!
//! What failed is `nothing` (the report was written), `execute`, `growth`, or `elsewhere` in the test itself. The room for the
//! output is allocated first.
use crate::counting::network_of;
use crate::texts::{COPIED_AND_WOVEN, RUNNING_SUMS, SUMS_BACK, WOVEN};
use kpn_compute::bodies_of;
use kpn_execute::execute;
use kpn_net::NetFault;
use std::alloc::{AllocError, Global};
use std::process::ExitCode;
use std::rt::Clock;
use std::sync::Wait;
use std::thread::Threads;
use test_kit::Report;

/// More bytes than any run here writes.
const ROOM: usize = 1000;

struct Row {
    name: &'static str,
    text: &'static str,
    show: &'static str,
    report: &'static str,
}

static ROWS: [Row; 2] = [
    Row {
        name: "parks_case",
        text: COPIED_AND_WOVEN,
        show: "c3",
        report: WOVEN,
    },
    Row {
        name: "running_sums",
        text: RUNNING_SUMS,
        show: "c1",
        report: SUMS_BACK,
    },
];

/// Errors: out of memory for the test itself.
fn written<R: Threads + Wait + Clock + Sync>(
    rt: &R,
    alloc: Global,
    row: &Row,
) -> Result<&'static str, AllocError> {
    let mut out = Vec::with_capacity(alloc, ROOM)?;
    let net = match network_of(alloc, row.text) {
        Ok(net) => net,
        Err(NetFault::Memory) => return Err(AllocError),
        Err(_) => return Ok("another fault"),
    };
    let bodies = bodies_of(alloc, &net)?;
    let status = execute(rt, alloc, net, bodies, 2, Some(row.show), &mut out);
    Ok(word_of(status, out.as_slice(), row.report))
}

/// There are only three outputs.
fn word_of(status: u8, out: &[u8], report: &str) -> &'static str {
    let all = [
        (5, report, "nothing"),
        (4, "refused 14\n", "execute"),
        (4, "end memory\n", "growth"),
    ];
    for (due, lines, word) in all {
        if status == due && out == lines.as_bytes() {
            return word;
        }
    }
    "another text"
}

/// With memory the reports are written.
pub(crate) fn show<R: Threads + Wait + Clock + AllocGlobal + Sync>(rt: &R, report: &mut Report) {
    for row in &ROWS {
        report.show(row.name, written(rt, rt.alloc(), row));
    }
}

/// Makes the run of this name, or each run for another name, and prints what was refused.
pub(crate) fn tell<R: Print + Threads + Wait + Clock + AllocGlobal + Sync>(
    rt: &R,
    name: &str,
) -> ExitCode {
    let is_one = ROWS.iter().any(|row| row.name == name);
    for row in &ROWS {
        if row.name == name || !is_one {
            let word = written(rt, rt.alloc(), row).unwrap_or("elsewhere");
            if println!(rt; "refused: {word}").is_err() {
                return ExitCode::from(1);
            }
        }
    }
    ExitCode::from(0)
}
