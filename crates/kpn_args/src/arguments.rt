//! The arguments of the command line.
ghost use Rattle.std.specs.Prelude.{◌≡◌, ◌⊎◌, IfOk, IfErr, Some, false, map, codes, if◌then◌else◌};
ghost use Rattle.clap.specs.Words.{FailsBy, app_of, fault_of, found_of, rows_of, subcommand_of, subcommand_rows_of};
ghost use Rattle.kpn_args.specs.Command.{kpn, bare_command, check_command, run_command};
ghost use Rattle.kpn_args.specs.Made.{IsLocal, Makes, MakesLocal};
ghost use Rattle.kpn_args.specs.Choices.{HasFewWorkers, IsChoice, IsChoiceOf, IsWordsFault, asks_for_help, RefusesWorkers};

use crate::entries::{subcommand_in, text_in, workers_in};
use crate::making::{bare, option, with_arg, with_subcommand};
use clap::error::ErrorKind;
use clap::{ArgMatches, Command};
use kpn_front::ExitStatus;
use std::alloc::{AllocError, Global};
use std::{error, fmt};

/// The greatest number of workers of a run.
pub const MAX_WORKERS: usize = 16;

/// The version of the programs.
pub const VERSION: &str = "0.1.0";

/// The exit statuses, as help lists them.
const STATUSES: &str = "\
Exit status:
  0  the run terminated, the description is valid, or help was asked for
  1  the arguments are wrong, or name an unknown channel
  2  the description is wrong
  3  the budget of entries is spent
  4  out of memory
  5  the run ended in a deadlock
  6  a full channel would have to grow past its ceiling
  7  a write failed
  8  internal error: a worker's answer was rejected; the run was abandoned
";

/// Help on where the description comes from and how to write one.
const INPUT: &str = "\
The description is TOML, read from standard input. Its keys, with their defaults in brackets:
  version         1 or 2
  budget          how many entries a run may have [10000]
  step            how much a growth adds to a capacity, in version 2 [1]
  [[process]]
    name, kind    strings; a name has 1 to 16 of a to z, 0 to 9 and _, and begins with a letter
    args          the arguments of the kind, integers [none]
  [[channel]]
    name          like that of a process
    from, to      the names of two processes
    out, in       the port of from and of to [0]
    sort          \"words\" or \"flags\" [\"words\"]
    capacity      how many tokens it may hold [1]
    tokens        what it holds at the start, in version 2 [nothing]

Kinds of processes, with their arguments and their ports, inputs -> outputs (w a word, f a flag):
  count FROM N    -> w        writes FROM, FROM + 1, .. (N words), then stops
  sink N          w ->        reads N words, then stops
  take N          w -> w      copies N words, then stops
  copy            w -> w w    writes each word to both outputs
  prefix V        w -> w      writes V, then copies
  add             w w -> w    writes the sums
  scale K         w -> w      writes the products by K
  weave A B       w w -> w    copies A words of input 0, then B of input 1, and so on
  merge           w w -> w    makes one stream in order of two, equal words once
  divides M       w -> f      writes whether M divides the word
  switch          w f -> w w  writes to output 1 if the flag is true, else to output 0
  select          w w f -> w  reads input 1 if the flag is true, else input 0

Example:
  version = 1
  process = [
    { name = \"src\", kind = \"count\", args = [1, 3] },
    { name = \"snk\", kind = \"sink\", args = [3] },
  ]
  channel = [{ name = \"c0\", from = \"src\", to = \"snk\" }]
";

/// What the arguments ask for.
#[derive(Debug, Drop)]
pub enum Choice<'a> {
    /// `kpn check`: whether the description is a network.
    Check,
    /// `kpn run`: the number of workers, 1 to `MAX_WORKERS`, and the name of the channel to show.
    Run {
        workers: usize,
        show: Option<&'a str>,
    },
}

/// Why the arguments give no choice. Its `Display` is the text for the user, with a line feed.
#[derive(Debug, Drop)]
pub enum WordsFault {
    /// The command line refuses the arguments, they ask for help or the version, or out of memory.
    Parser(clap::Error),
    /// The text of `--workers` is no number from 1 to `MAX_WORKERS`.
    Workers,
}

impl WordsFault {
    /// Returns whether the arguments ask for help or the version. Their text then goes to standard output,
    /// otherwise to standard error.
    pub fn asks_for_help(&self) -> bool
        ensures { result ≡ asks_for_help self.now }
    {
        match self {
            WordsFault::Parser(error) => matches!(
                error.kind(),
                ErrorKind::DisplayHelp | ErrorKind::DisplayVersion
            ),
            WordsFault::Workers => false,
        }
    }

    /// Returns `Success` if help or the version was asked for, otherwise `WrongArguments`.
    pub fn status(&self) -> ExitStatus
        ensures { result ≡ (if asks_for_help self.now then ExitStatus.Success else ExitStatus.WrongArguments) }
    {
        if self.asks_for_help() {
            ExitStatus::Success
        } else {
            ExitStatus::WrongArguments
        }
    }
}

impl fmt::Display for WordsFault {
    ghost use Rattle.kpn_args.specs.Choices.{text_of};

    ghost output = { text_of };

    fn fmt<W: fmt::Write>(&self, f: &mut fmt::Formatter<W>) -> fmt::Result {
        match self {
            WordsFault::Parser(error) => error.fmt(f),
            WordsFault::Workers => {
                write!(
                    f,
                    "error: --workers takes a number from 1 to {MAX_WORKERS}\n\nFor more information, try 'kpn run --help'.\n"
                )
            }
        }
    }
}

impl error::Error for WordsFault {}

/// Reads what the arguments ask for. The first is the program's name.
///
/// Errors: `Parser`, with clap's kind of error, if the command line refuses the arguments or they ask for
/// help or the version, or if out of memory. Otherwise `Workers`, if the text of `--workers` is not a number
/// from 1 to `MAX_WORKERS`.
pub fn read_words<'a>(alloc: Global, words: &'a [&'a str]) -> Result<Choice<'a>, WordsFault>
    ensures ok { IfOk result (IsChoice (map (λ w. w.now) words.entry.now)) }
    ensures workers { IfOk result HasFewWorkers }
    ensures fault { IfErr result (IsWordsFault (map (λ w. w.now) words.entry.now)) }
{
    let matches = parse(alloc, words).map_err(WordsFault::Parser)?;
    let Some((name, entries)) = subcommand_in(&matches) else {
        unreachable!()
    };
    choice_of(name, entries)
}

fn choice_of<'a>(name: &str, entries: &ArgMatches<'a>) -> Result<Choice<'a>, WordsFault>
    requires { (name.now ≡ codes "check") ⊎ (name.now ≡ codes "run") }
    ensures ok { IfOk result (IsChoiceOf (Some (name.now, rows_of (found_of entries.now)))) }
    ensures workers { IfErr result (RefusesWorkers (rows_of (found_of entries.now))) }
{
    match name {
        "check" => Ok(Choice::Check),
        "run" => {
            let workers = workers_in(text_in(entries, "workers")).ok_or(WordsFault::Workers)?;
            let show = text_in(entries, "show");
            Ok(Choice::Run { workers, show })
        }
        _ => unreachable!(),
    }
}

fn parse<'a>(alloc: Global, words: &'a [&'a str]) -> Result<ArgMatches<'a>, clap::Error>
    ensures matches { IfOk result (λ m. subcommand_rows_of m ≡ subcommand_of kpn (map (λ w. w.now) words.entry.now)) }
    ensures kinds { FailsBy (fault_of kpn (map (λ w. w.now) words.entry.now)) result }
{
    command(alloc)?.try_get_matches_from(words)
}

fn command<'a>(alloc: Global) -> Result<Command<'a>, AllocError>
    ensures { Makes kpn result }
{
    let command = with_subcommand(Ok(bare_command(alloc)), Ok(check(alloc)));
    with_subcommand(command, run(alloc))
}

fn bare_command<'a>(alloc: Global) -> Command<'a>
    ensures { app_of result ≡ bare_command }
{
    Command::new(alloc, "kpn")
        .about("Runs Kahn process networks in bounded memory")
        .after_help(STATUSES)
        .version(VERSION)
        .disable_help_subcommand(true)
        .subcommand_required(true)
}

fn check<'a>(alloc: Global) -> Command<'a>
    ensures { IsLocal check_command result }
{
    let about = "Checks a description, and counts its processes and channels";
    bare(alloc, "check", about, INPUT)
}

fn run<'a>(alloc: Global) -> Result<Command<'a>, AllocError>
    ensures { MakesLocal run_command result }
{
    let about = "Runs the network of a description, and reports its end";
    let workers = "How many workers run the network [default: 1]";
    let show = "Also prints the tokens written to this channel";
    let run = Ok(bare(alloc, "run", about, INPUT));
    let run = with_arg(run, option(alloc, "workers", "N", workers));
    with_arg(run, option(alloc, "show", "NAME", show))
}
