//! The kinds that a description may use.
use kpn_compute::Both;
use kpn_formula::Formulas;
use kpn_signals::Signals;
use kpn_standard::Standard;

/// The standard kinds, the kinds for signals, and formulas.
pub type AllKinds = Both<Both<Standard, Signals>, Formulas>;

/// The names of all kinds, as a message lists them.
pub const KINDS: &str =
    "abs, add, and, average, clip, constant, copy, copy_flags, count, count_up, counter, decimate, delay, \
difference, div, divides, drain, drain_flags, edge, equal, gain, gate, hold, input, input_flags, left, \
less, low_pass, max, merge, min, mod, mul, noise, not, offset, or, prefix, repeat, scale, select, shift, \
sink, sub, sum, switch, take and weave";
