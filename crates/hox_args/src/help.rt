//! The ends of help texts.

/// The end of `hox`'s help: an example, and the exit statuses.
pub(crate) const STATUSES: &str = "\
Example, in which channel x gets a token of each line of noisy.txt and channel y is written to smooth.txt:
  hox run low_pass.toml --tokens x=noisy.txt --out y=smooth.txt

Exit status:
  0  the run finished or ran dry, the description is valid, the picture was drawn, or help was asked for
  1  the arguments are wrong, or name an unknown channel
  2  the description or a file of tokens is wrong
  3  the budget of entries is spent: the run was cut
  4  out of memory
  5  processes wait for one another in a circle
  6  a full channel would have to grow past its ceiling
  7  a write failed
  8  internal error: a worker's answer was rejected; the run was abandoned
";

/// What the short help of the subcommands ends with.
pub(crate) const MORE: &str = "\
An option of a CHANNEL may be repeated. The FILE - is standard input or output.
--help tells of files, formats and descriptions; hox kinds lists the kinds.
";

/// The syntax of token files and descriptions, for the long help of the subcommands.
pub(crate) const FILES: &str = "\
A file of tokens has one on each line: a word from -2^63 to 2^64 - 1 in decimal, such as 21 or -21, or in hexadecimal
after 0x; or a flag, true or false. A word has 64 bits in two's complement: -1 and 18446744073709551615 are the same
word, written as -1 (--unsigned CHANNEL, or all, writes the other). The rest of a line after a comma or # is ignored, and so
is a line without a token. A file may have 1,000,000 tokens, 65,535 in version 1 of the description; hox stream
takes any number. The channel's capacity becomes at least their number.

--format CHANNEL=FORMAT[,KEY[=VALUE]..] sets another format for the file of a channel, or of all channels (all).
The formats, and their keys:
  text            digits=N (after the point: with 2, 21.37 is the word 2137), unsigned
  csv             column=N (from 1) or column=NAME, header (a row of names), delimiter=comma, semicolon or tab,
                  digits=N, unsigned
  wav             channel=N (from 1), bits=8, 16, 24 or 32, rate=N (samples a second), clip
  s16le           channel=N, channels=N, clip; also s8, u8, and s16, s24, s32, s64 and u64, with le or be
A file whose name ends in .wav is WAV by default. A word that doesn't fit a sample is an error; with clip the nearest
sample is written. A file that is given for several channels, as in --out left,right=out.wav, has them side by side,
as columns or as channels of samples. Options that name a CHANNEL may be given several times.

The description is TOML. Its keys, with their defaults in brackets:
  version         1 or 2
  budget          how many entries a run may have [1000000, in version 2 2000000]
  step            how much a growth adds to a capacity, in version 2 [1]
  [[process]]
    name, kind    strings; a name has 1 to 16 of a to z, 0 to 9 and _, and begins with a letter
    args          the arguments of the kind, integers [none]
  [[channel]]
    name          like that of a process
    from, to      the names of two processes
    out, in       the port of from and of to [0]
    sort          \"words\" or \"flags\" [that of its two ports]
    capacity      how many tokens it may hold [1]
    tokens        what it holds at the start, in version 2 [nothing]
    delay         how many zeros, or false, it holds before those, in version 2 [0]
Without a budget a run has the greatest one of its version. Several channels may leave an output: each gets all.
";

/// How formulas are written, for `hox kinds formula`.
pub const FORMULA: &str = "\
A process whose kind is a formula, without args, goes in rounds: it reads each of its inputs once, assigns, and writes
each output once, for ever.
  kind = \"y(100) = y + (in - y) / 8; out = y\"
Assignments stand between semicolons and are made in order. Their targets are outputs (out, or out0 to out2) and states
(any other name); the inputs are in, or in0 to in2. A state is 0 at first, or what stands in parentheses behind it at
its first assignment. A state means what was assigned to it last, in this round or before; an output is 0 until the
round assigns it.
  c ? a : b    ||    &&    |    ^    &    == !=    < <= > >=    << >>    + -    * / %    - ~ ! in front
are the operators, the loosest first; beside them min(a, b), max(a, b), abs(a), numbers and parentheses.
Words are signed, modulo 2^64. A quotient is rounded down, and one by 0 is 0; a % b is what it leaves. A shift by 64 or
more gives 0, to the right the sign. Comparisons, !, && and || give 1 or 0, and all but 0 counts as true.
An input that is used just as a condition carries flags, and so does an output that is always a comparison, !, && or
||; all else carries words.
A card has room for 36 digits: a name or an assignment takes one, an operator one to five (-a three, ~a five), a number
up to 31 two, others up to 16383 four (one less where a number is a factor or a shift to the right; a division by 2, 4,
8 .. takes two in all).
";

/// Pictures, for the help of `draw`.
pub(crate) const PICTURES: &str = "\
The picture is a text for Graphviz:
  hox draw --run examples/parks.toml | dot -Tsvg > parks.svg
Unlabelled channels carry words, have capacity 1 and are empty. The exit status is 0 however the run ended.
hox run --help describes descriptions and files of tokens.
";

/// Streams, for the help of `stream`.
pub(crate) const STREAMS: &str = "\
Example, in a pipe:
  generator | hox stream low_pass.toml --in x=- --out y=- | plot
Samples of 16 bits in a pipe:
  sox in.wav -t raw -e signed -b 16 -c 1 - | hox stream low_pass.toml --in x=- --out y=- --format all=s16le | ..
An option of a CHANNEL may be repeated. hox run --help tells of files, formats and descriptions.
";

/// The help of `kinds`.
pub(crate) const NAMES: &str = "\
Example:
  hox kinds low_pass
";
