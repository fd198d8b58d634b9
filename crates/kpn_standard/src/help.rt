//! Help on the standard kinds.

/// A line of help on a kind: name, arguments, sorts of inputs and outputs (w a word, f a flag), what it does.
#[derive(Clone, Copy, Debug)]
pub struct Help {
    pub name: &'static str,
    pub arguments: &'static str,
    pub ports: &'static str,
    pub does: &'static str,
}

/// The lines of help, one for each name of a kind in descriptions, in the order of the kinds' numbers.
pub const HELP: [Help; 12] = [
    Help {
        name: "count",
        arguments: "FROM N",
        ports: "-> w",
        does: "writes FROM, FROM + 1, .. (N words), then stops",
    },
    Help {
        name: "sink",
        arguments: "N",
        ports: "w ->",
        does: "reads N words, then stops",
    },
    Help {
        name: "take",
        arguments: "N",
        ports: "w -> w",
        does: "copies N words, then stops",
    },
    Help {
        name: "copy",
        arguments: "",
        ports: "w -> w w",
        does: "writes each word to both outputs",
    },
    Help {
        name: "prefix",
        arguments: "V",
        ports: "w -> w",
        does: "writes V, then copies",
    },
    Help {
        name: "add",
        arguments: "",
        ports: "w w -> w",
        does: "writes the sums",
    },
    Help {
        name: "scale",
        arguments: "K",
        ports: "w -> w",
        does: "writes the products by K",
    },
    Help {
        name: "weave",
        arguments: "A B",
        ports: "w w -> w",
        does: "copies A words of input 0, then B of input 1, and so on",
    },
    Help {
        name: "merge",
        arguments: "",
        ports: "w w -> w",
        does: "makes one stream in order of two, equal words once",
    },
    Help {
        name: "divides",
        arguments: "M",
        ports: "w -> f",
        does: "writes whether M divides the word",
    },
    Help {
        name: "switch",
        arguments: "",
        ports: "w f -> w w",
        does: "writes to output 1 if the flag is true, else to output 0",
    },
    Help {
        name: "select",
        arguments: "",
        ports: "w w f -> w",
        does: "reads input 1 if the flag is true, else input 0",
    },
];
