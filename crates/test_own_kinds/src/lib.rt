//! Tests of kinds of one's own, as an engineer writes them beside such kinds: tools/new-project copies them. Further values
//! stand in the rows of test_kinds.
#![tactic(auto)]

#[cfg(test)]
mod checks;
#[cfg(test)]
mod own_kinds;
