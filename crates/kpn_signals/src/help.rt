//! Help on the kinds for signals.
use kpn_standard::Help;

/// Explains "signed" in the lines of help.
pub const SIGNED: &str =
    "signed: a word is a number in two's complement, from 2^63 on itself less 2^64";

/// The lines of help, one for each name of a kind in descriptions, in the order of the kinds' numbers.
pub const HELP: [Help; 36] = [
    Help {
        name: "input",
        arguments: "",
        ports: "-> w",
        does: "stops at once; its channel's words come from a file",
    },
    Help {
        name: "input_flags",
        arguments: "",
        ports: "-> f",
        does: "stops at once; its channel's flags come from a file",
    },
    Help {
        name: "drain",
        arguments: "",
        ports: "w ->",
        does: "reads for ever",
    },
    Help {
        name: "drain_flags",
        arguments: "",
        ports: "f ->",
        does: "reads for ever",
    },
    Help {
        name: "constant",
        arguments: "V",
        ports: "-> w",
        does: "writes V for ever",
    },
    Help {
        name: "count_up",
        arguments: "",
        ports: "-> w",
        does: "writes 0, 1, 2, .. modulo 2^64 for ever",
    },
    Help {
        name: "sub",
        arguments: "",
        ports: "w w -> w",
        does: "writes the words of input 0 minus those of input 1, modulo 2^64",
    },
    Help {
        name: "mul",
        arguments: "",
        ports: "w w -> w",
        does: "writes the products modulo 2^64",
    },
    Help {
        name: "shift",
        arguments: "K",
        ports: "w -> w",
        does: "writes each word / 2^K, rounded down, signed; K from 0 to 63",
    },
    Help {
        name: "left",
        arguments: "K",
        ports: "w -> w",
        does: "writes each word * 2^K, modulo 2^64; K from 0 to 63",
    },
    Help {
        name: "less",
        arguments: "",
        ports: "w w -> f",
        does: "writes whether the word of input 0 is less, signed",
    },
    Help {
        name: "equal",
        arguments: "",
        ports: "w w -> f",
        does: "writes whether the two words are equal",
    },
    Help {
        name: "not",
        arguments: "",
        ports: "f -> f",
        does: "writes the other flag",
    },
    Help {
        name: "and",
        arguments: "",
        ports: "f f -> f",
        does: "writes whether both flags are true",
    },
    Help {
        name: "or",
        arguments: "",
        ports: "f f -> f",
        does: "writes whether one of the flags is true",
    },
    Help {
        name: "decimate",
        arguments: "N",
        ports: "w -> w",
        does: "of each N words writes the first; N at least 1",
    },
    Help {
        name: "repeat",
        arguments: "N",
        ports: "w -> w",
        does: "writes each word N times; N at least 1",
    },
    Help {
        name: "hold",
        arguments: "V",
        ports: "w f -> w",
        does: "writes the word if the flag is true, else the one that it wrote last, V at first",
    },
    Help {
        name: "delay",
        arguments: "N",
        ports: "w -> w",
        does: "writes for each word the one N before, 0 at first; N from 1 to 4",
    },
    Help {
        name: "low_pass",
        arguments: "K",
        ports: "w -> w",
        does: "y += (x - y) / 2^K, rounded down, signed, from y = 0: writes y; K from 0 to 63",
    },
    Help {
        name: "clip",
        arguments: "LO HI",
        ports: "w -> w",
        does: "writes the nearest word from LO to HI, signed",
    },
    Help {
        name: "copy_flags",
        arguments: "",
        ports: "f -> f f",
        does: "writes each flag to both outputs",
    },
    Help {
        name: "min",
        arguments: "",
        ports: "w w -> w",
        does: "writes the lesser word, signed",
    },
    Help {
        name: "max",
        arguments: "",
        ports: "w w -> w",
        does: "writes the greater word, signed",
    },
    Help {
        name: "abs",
        arguments: "",
        ports: "w -> w",
        does: "writes the absolute value of each word, signed",
    },
    Help {
        name: "offset",
        arguments: "K",
        ports: "w -> w",
        does: "writes each word plus K, modulo 2^64",
    },
    Help {
        name: "gain",
        arguments: "A B",
        ports: "w -> w",
        does: "writes each word * A / B, rounded down, signed, then modulo 2^64; B at least 1",
    },
    Help {
        name: "div",
        arguments: "",
        ports: "w w -> w",
        does: "writes input 0's word / input 1's, rounded down, signed; 0 if that is 0",
    },
    Help {
        name: "mod",
        arguments: "",
        ports: "w w -> w",
        does: "writes what div leaves of input 0's word, with the sign of input 1's; all if that is 0",
    },
    Help {
        name: "sum",
        arguments: "",
        ports: "w -> w",
        does: "writes the sum of all words so far, modulo 2^64",
    },
    Help {
        name: "difference",
        arguments: "",
        ports: "w -> w",
        does: "writes each word minus the one before, 0 at first",
    },
    Help {
        name: "average",
        arguments: "N",
        ports: "w -> w",
        does: "writes the mean of the last N words, rounded down, signed, 0 before the first; N from 1 to 5",
    },
    Help {
        name: "counter",
        arguments: "",
        ports: "f -> w",
        does: "writes how many flags were true so far",
    },
    Help {
        name: "edge",
        arguments: "",
        ports: "f -> f",
        does: "writes whether the flag is true and the one before is not, false before the first",
    },
    Help {
        name: "noise",
        arguments: "SEED",
        ports: "-> w",
        does: "writes the words of the generator SplitMix64 for ever",
    },
    Help {
        name: "gate",
        arguments: "",
        ports: "w f -> w",
        does: "writes the words whose flag is true",
    },
];
