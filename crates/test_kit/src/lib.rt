//! What the programs of tests share: a report of what was found, and rows of data that are compared.
//!
//! Such a program prints its report, which `rt ci` compares with the program's file `stdout`. Its rows stand in `data/`.
#![tactic(auto)]

mod cells;
mod report;
mod rows;

pub use cells::{Cells, number};
pub use report::Report;
pub use rows::{Subject, compare_file};
