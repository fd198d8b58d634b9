//! One comparison for all tests: it is proved once, each `assert_eq!` anew.
use std::fmt::Debug;
use std::process::Abort;

/// Compares a value with what is due; a failure prints both, and `name`.
pub(crate) fn same<T: Copy + PartialEq + Debug, R: Abort>(rt: &R, name: &str, value: T, due: T) {
    assert_eq!(rt; value, due, "{name}");
}
