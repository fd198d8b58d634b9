//! Shapes and cards of formulas, which were worked out by hand, and what is wrong with formulas.
use hox_formula::{FormulaFault, LONGEST, Wrong, compile, text_of_fault};
use kpn_formula::Instruction::{Abs, Apply, Choose, Load, Not, Push, Shift, Store, Times};
use kpn_formula::{Formulas, Operation, Shape, card_of};
use kpn_model::{Card, Kinds, Sort};
use std::alloc::Global;
use std::fmt::Write;
use std::fs;
use std::rt::Files;
use test_kit::{Cells, Report, Subject};

const ONE_STATE: Shape = Shape {
    states: 1,
    ins: [Some(Sort::Words), None, None],
    outs: [Some(Sort::Words), None, None],
};

pub(crate) struct Rows;

impl Subject for Rows {
    /// The number and arguments that a name takes; the number of a shape, or the shape of a number; the shape, ports and start
    /// of a card.
    fn answer(&self, _alloc: Global, question: &mut Cells<'_>, answer: &mut String) {
        let asked = question.word();
        let _ = match asked {
            "named" => write!(answer, "{:?}", Formulas::named(question.rest())),
            "shape" => {
                let shape = Shape {
                    states: u8::try_from(question.number()).unwrap_or(0),
                    ins: ports(question.word()),
                    outs: ports(question.word()),
                };
                write!(answer, "{:?}", shape.number())
            }
            "number" => {
                let number = u16::try_from(question.number()).unwrap_or(0);
                write!(answer, "{:?}", Shape::numbered(number))
            }
            _ => {
                let card = Card {
                    kind: u16::try_from(question.number()).unwrap_or(0),
                    args: [question.number(), question.number(), question.number()],
                };
                match (asked, Formulas::signature(&card)) {
                    ("of", _) => write!(answer, "{:?}", Shape::of(&card)),
                    ("ports", ports) => write!(answer, "{ports:?}"),
                    ("start", Some(_)) => write!(answer, "{:?}", Formulas::start(&card)),
                    _ => write!(answer, "no start"),
                }
            }
        };
    }
}

/// The sorts of ports, as `WF-` for words, flags and none.
fn ports(text: &str) -> [Option<Sort>; 3] {
    let mut sorts = [None; 3];
    for (sort, letter) in sorts.iter_mut().zip(text.chars()) {
        *sort = match letter {
            'W' => Some(Sort::Words),
            'F' => Some(Sort::Flags),
            _ => None,
        };
    }
    sorts
}

/// The cards of programs: that of a sum from 7 on, that of each form of number, that of each operation, and those of programs
/// of 36, 37 and 41 digits; and that of a shape without ports.
pub(crate) fn show_cards(report: &mut Report) {
    let sum = [
        Load(2),
        Load(0),
        Apply(Operation::Add),
        Store(0),
        Load(0),
        Store(1),
    ];
    report.show("a sum", card_of(ONE_STATE, &sum, &[Push(7), Store(0)]));
    let numbers = [
        Push(31),
        Push(32),
        Push(u64::MAX),
        Push(16383),
        Times(5),
        Times(u64::MAX - 16383),
        Shift(31),
        Not,
        Abs,
        Choose,
        Load(5),
        Store(4),
    ];
    report.show("numbers", card_of(ONE_STATE, &numbers, &[]));
    let operations = [
        Apply(Operation::Add),
        Apply(Operation::Subtract),
        Apply(Operation::Multiply),
        Apply(Operation::Divide),
        Apply(Operation::Remain),
        Apply(Operation::ShiftLeft),
        Apply(Operation::ShiftRight),
        Apply(Operation::And),
        Apply(Operation::Or),
        Apply(Operation::ExclusiveOr),
        Apply(Operation::Min),
        Apply(Operation::Max),
        Apply(Operation::IsLess),
    ];
    report.show("operations", card_of(ONE_STATE, &operations, &[]));
    report.show("36 digits", card_of(ONE_STATE, &[Not; 36], &[]));
    report.show("37 digits", card_of(ONE_STATE, &[Not; 37], &[]));
    report.show("20, 1 and 20", card_of(ONE_STATE, &[Not; 20], &[Not; 20]));
    let no_ports = Shape {
        states: 1,
        ins: [None; 3],
        outs: [None; 3],
    };
    report.show("no ports", card_of(no_ports, &[Not; 50], &[]));
}

/// What is wrong with each line of a file, and what is told of it; or its card.
pub(crate) fn show_faults<R: Files + AllocGlobal>(rt: &R, report: &mut Report) {
    let Ok(text) = fs::read_to_string(rt, "faults.txt") else {
        report.fail("faults.txt");
        return;
    };
    for line in text.lines() {
        match compile(rt.alloc(), line) {
            Ok(card) => report.show(line, card),
            Err(fault) => {
                report.show(line, fault);
                told(rt.alloc(), report, line, fault);
            }
        }
    }
}

fn told(alloc: Global, report: &mut Report, text: &str, fault: FormulaFault) {
    match text_of_fault(alloc, text, fault) {
        Ok(told) => report.line(told.as_str()),
        Err(_) => report.fail(text),
    }
}

/// Faults that no compiler gave for these texts: no part is quoted that isn't there, or that isn't UTF-8. And parts of a text
/// of ten bytes, as far as they lie within it.
pub(crate) fn show_others(alloc: Global, report: &mut Report) {
    report.show("the longest formula", LONGEST);
    let (at, length) = (0, 0);
    let what = Wrong::Memory;
    told(alloc, report, "out = in", FormulaFault { at, length, what });
    let (what, length) = (Wrong::UnknownName, 2);
    told(alloc, report, "x", FormulaFault { at, length, what });
    let (what, at, length) = (Wrong::NotAssigned, 2, 0);
    told(alloc, report, "x", FormulaFault { at, length, what });
    let (what, at, length) = (Wrong::AssignsInput, usize::MAX, usize::MAX);
    told(alloc, report, "x", FormulaFault { at, length, what });
    let (what, at, length) = (Wrong::UnknownName, 1, 1);
    told(alloc, report, "\u{d7}", FormulaFault { at, length, what });
    for (from, size) in [(3, 4), (8, 4), (12, 1)] {
        report.show(
            "within",
            FormulaFault::within(10, from, size, Wrong::Memory),
        );
    }
}
