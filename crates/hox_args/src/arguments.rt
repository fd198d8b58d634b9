//! Parses the command line's arguments.
ghost use Rattle.std.specs.Prelude.{◌≡◌, Some, None, IfOk, IfErr, MatchOption, map, option_map, codes, false, if◌then◌else◌};
ghost use Rattle.std.specs.Option.{option_map_or};
ghost use Rattle.std.specs.Str.{bytes_eq};
ghost use Rattle.clap.specs.Words.{FailsBy, fault_of, found_of, rows_of, subcommand_of, subcommand_rows_of};
ghost use Rattle.kpn_picture.specs.declared.looks.Direction.TheVariants.{Right, Down};
ghost use Rattle.hox_args.specs.HoxCommand.{hox};
ghost use Rattle.hox_args.specs.HoxChoices.{BudgetFrom, GivesChoice, HasFewHoxWorkers, IsBudgetFault, IsHoxChoice, IsHoxChoiceOf, IsHoxFault, IsNumber, IsSubcommand, LacksEquals, SplitsAtEquals, asks_for_hox_help, is_given, texts_of};

use crate::command::command_line;
use clap::ArgMatches;
use clap::error::ErrorKind;
use kpn_args::{MAX_WORKERS, subcommand_in, text_in, workers_in};
use kpn_front::ExitStatus;
use kpn_picture::Direction;
use std::alloc::{AllocError, Global};
use std::{error, fmt};

/// The arguments of `hox run`: the description's file (standard input if absent or `-`); the token files and
/// the output files of channels, as `CHANNEL=FILE`; the formats of files, as `CHANNEL=FORMAT`; the channels
/// whose streams the report shows; the channels whose words are unsigned, or `all`; the budget that overrides
/// the description's; the number of workers, 1 to [`MAX_WORKERS`]; whether to show progress even if standard
/// error is no terminal; whether the report is written as JSON; and whether to write no report.
#[derive(Debug, Drop)]
pub struct RunChoice<'a> {
    pub file: Option<&'a str>,
    pub tokens: Vec<&'a str>,
    pub outputs: Vec<&'a str>,
    pub formats: Vec<&'a str>,
    pub show: Vec<&'a str>,
    pub unsigned: Vec<&'a str>,
    pub budget: Option<u64>,
    pub workers: usize,
    pub progress: bool,
    pub json: bool,
    pub quiet: bool,
}

/// The arguments of `hox draw`: the description's file (standard input if absent or `-`); the token files of
/// channels, as `CHANNEL=FILE`, and their formats, as `CHANNEL=FORMAT`; the direction of the channels; and
/// the number of workers, 1 to [`MAX_WORKERS`], if the network is drawn as a run left it.
#[derive(Debug, Drop)]
pub struct DrawChoice<'a> {
    pub file: Option<&'a str>,
    pub tokens: Vec<&'a str>,
    pub formats: Vec<&'a str>,
    pub direction: Direction,
    pub workers: Option<usize>,
}

/// The arguments of `hox check`: the description's file (standard input if absent or `-`); the token files of
/// channels, as `CHANNEL=FILE`, and their formats, as `CHANNEL=FORMAT`; and whether to write the network as a
/// description.
#[derive(Debug, Drop)]
pub struct CheckChoice<'a> {
    pub file: Option<&'a str>,
    pub tokens: Vec<&'a str>,
    pub formats: Vec<&'a str>,
    pub expanded: bool,
}

/// The arguments of `hox stream`: the description's file (standard input if absent or `-`); the input files
/// and output files of channels, as `CHANNEL=FILE`; the formats of files, as `CHANNEL=FORMAT`; the channels
/// whose words are unsigned, or `all`; whether to show progress; whether to show a table of the channels; and
/// whether to write no report.
#[derive(Debug, Drop)]
pub struct StreamChoice<'a> {
    pub file: Option<&'a str>,
    pub inputs: Vec<&'a str>,
    pub outputs: Vec<&'a str>,
    pub formats: Vec<&'a str>,
    pub unsigned: Vec<&'a str>,
    pub progress: bool,
    pub watch: bool,
    pub quiet: bool,
}

/// The argument of `hox kinds`: the kind to tell of, or all.
#[derive(Debug, Drop)]
pub struct KindsChoice<'a> {
    pub name: Option<&'a str>,
}

/// A subcommand and its arguments.
#[derive(Debug, Drop)]
pub enum Choice<'a> {
    /// `hox check`: check that the description, with tokens from files, is a network.
    Check(CheckChoice<'a>),
    /// `hox run`: run the network.
    Run(RunChoice<'a>),
    /// `hox draw`: draw the network.
    Draw(DrawChoice<'a>),
    /// `hox stream`: run the network on tokens as they come.
    Stream(StreamChoice<'a>),
    /// `hox kinds`: list the kinds of processes.
    Kinds(KindsChoice<'a>),
}

/// Why the arguments give no choice. `Display` gives the user's text, which ends a line.
#[derive(Debug, Drop)]
pub enum WordsFault {
    /// The command line rejects the arguments, or they ask for help or the version, or out of memory.
    Parser(clap::Error),
    /// The text of `--workers` is no number from 1 to `MAX_WORKERS`.
    Workers,
    /// The text of `--budget` is no number of 64 bits.
    Budget,
    /// Out of memory.
    Memory,
}

impl WordsFault {
    /// Returns whether the arguments ask for help or the version. That text goes to standard output, all
    /// others to standard error.
    pub fn asks_for_help(&self) -> bool
        ensures { result ≡ asks_for_hox_help self.now }
    {
        match self {
            WordsFault::Parser(error) => matches!(
                error.kind(),
                ErrorKind::DisplayHelp | ErrorKind::DisplayVersion
            ),
            WordsFault::Workers | WordsFault::Budget | WordsFault::Memory => false,
        }
    }

    /// Returns `Success` if the arguments ask for help or the version, else `WrongArguments`.
    pub fn status(&self) -> ExitStatus
        ensures { result ≡ (if asks_for_hox_help self.now then ExitStatus.Success else ExitStatus.WrongArguments) }
    {
        if self.asks_for_help() {
            ExitStatus::Success
        } else {
            ExitStatus::WrongArguments
        }
    }
}

impl fmt::Display for WordsFault {
    ghost use Rattle.hox_args.specs.HoxTexts.{text_of_hox_fault};

    ghost output = { text_of_hox_fault };

    fn fmt<W: fmt::Write>(&self, f: &mut fmt::Formatter<W>) -> fmt::Result {
        match self {
            WordsFault::Parser(error) => error.fmt(f),
            WordsFault::Workers => write!(
                f,
                "error: --workers takes a number from 1 to {MAX_WORKERS}\n\nFor more information, try 'hox run --help'.\n"
            ),
            WordsFault::Budget => f.write_str(
                "error: --budget takes a number\n\nFor more information, try 'hox run --help'.\n",
            ),
            WordsFault::Memory => f.write_str("error: out of memory\n"),
        }
    }
}

impl error::Error for WordsFault {}

impl From<AllocError> for WordsFault {
    ghost use Rattle.hox_args.specs.declared.arguments.WordsFault.{WordsFault};

    ghost from_gives = { λ _ fault. fault ≡ WordsFault.Memory };

    fn from(_error: AllocError) -> WordsFault {
        WordsFault::Memory
    }
}

/// Parses the arguments. The first is the program's name.
///
/// Errors: see [`WordsFault`].
pub fn read_words<'a>(alloc: Global, words: &'a [&'a str]) -> Result<Choice<'a>, WordsFault>
    ensures ok { IfOk result (IsHoxChoice (map (λ w. w.now) words.entry.now)) }
    ensures workers { IfOk result HasFewHoxWorkers }
    ensures fault { IfErr result (IsHoxFault (map (λ w. w.now) words.entry.now)) }
{
    let matches = parse(alloc, words).map_err(WordsFault::Parser)?;
    let Some((name, entries)) = subcommand_in(&matches) else {
        unreachable!()
    };
    choice_of(alloc, name, entries)
}

/// Splits a text `CHANNEL=FILE` at its first `=`; returns `None` if it has none.
pub fn channel_and_file(text: &str) -> Option<(&str, &str)>
    ensures { MatchOption result (LacksEquals text.now) (λ p. SplitsAtEquals text.now p.0.now p.1.now) }
{
    text.split_once('=')
}

fn choice_of<'a>(
    alloc: Global,
    name: &str,
    entries: &ArgMatches<'a>,
) -> Result<Choice<'a>, WordsFault>
    requires { IsSubcommand name.now }
    ensures { GivesChoice name.now (rows_of (found_of entries.now)) result }
{
    match name {
        "check" => Ok(check_choice(alloc, entries)?),
        "run" => run_choice(alloc, entries),
        "draw" => draw_choice(alloc, entries),
        "stream" => Ok(stream_choice(alloc, entries)?),
        "kinds" => Ok(kinds_choice(entries)),
        _ => unreachable!(),
    }
}

fn check_choice<'a>(alloc: Global, entries: &ArgMatches<'a>) -> Result<Choice<'a>, AllocError>
    ensures { IfOk result (IsHoxChoiceOf (Some (codes "check", rows_of (found_of entries.now)))) }
{
    let tokens = texts_in(alloc, entries, "tokens")?;
    let formats = texts_in(alloc, entries, "format")?;
    let file = text_in(entries, "file");
    let expanded = has_flag(entries, "expanded");
    Ok(Choice::Check(CheckChoice {
        file,
        tokens,
        formats,
        expanded,
    }))
}

fn run_choice<'a>(alloc: Global, entries: &ArgMatches<'a>) -> Result<Choice<'a>, WordsFault>
    ensures { GivesChoice (codes "run") (rows_of (found_of entries.now)) result }
{
    let workers = workers_in(text_in(entries, "workers")).ok_or(WordsFault::Workers)?;
    let budget = budget_in(text_in(entries, "budget"))?;
    let tokens = texts_in(alloc, entries, "tokens")?;
    let outputs = texts_in(alloc, entries, "out")?;
    let formats = texts_in(alloc, entries, "format")?;
    let show = texts_in(alloc, entries, "show")?;
    let unsigned = texts_in(alloc, entries, "unsigned")?;
    let file = text_in(entries, "file");
    let progress = has_flag(entries, "progress");
    let json = has_flag(entries, "json");
    let quiet = has_flag(entries, "quiet");
    Ok(Choice::Run(RunChoice {
        file,
        tokens,
        outputs,
        formats,
        show,
        unsigned,
        budget,
        workers,
        progress,
        json,
        quiet,
    }))
}

fn draw_choice<'a>(alloc: Global, entries: &ArgMatches<'a>) -> Result<Choice<'a>, WordsFault>
    ensures { GivesChoice (codes "draw") (rows_of (found_of entries.now)) result }
{
    let count = workers_in(text_in(entries, "workers")).ok_or(WordsFault::Workers)?;
    let tokens = texts_in(alloc, entries, "tokens")?;
    let formats = texts_in(alloc, entries, "format")?;
    let file = text_in(entries, "file");
    let direction = direction_of(has_flag(entries, "down"));
    let workers = asked_for(has_flag(entries, "run"), count);
    Ok(Choice::Draw(DrawChoice {
        file,
        tokens,
        formats,
        direction,
        workers,
    }))
}

fn stream_choice<'a>(alloc: Global, entries: &ArgMatches<'a>) -> Result<Choice<'a>, AllocError>
    ensures { IfOk result (IsHoxChoiceOf (Some (codes "stream", rows_of (found_of entries.now)))) }
{
    let file = text_in(entries, "file");
    let inputs = texts_in(alloc, entries, "in")?;
    let written = texts_in(alloc, entries, "out")?;
    let formats = texts_in(alloc, entries, "format")?;
    Ok(Choice::Stream(StreamChoice {
        file,
        inputs,
        outputs: written,
        formats,
        unsigned: texts_in(alloc, entries, "unsigned")?,
        progress: has_flag(entries, "progress"),
        watch: has_flag(entries, "watch"),
        quiet: has_flag(entries, "quiet"),
    }))
}

fn kinds_choice<'a>(entries: &ArgMatches<'a>) -> Choice<'a>
    ensures { IsHoxChoiceOf (Some (codes "kinds", rows_of (found_of entries.now))) result }
{
    Choice::Kinds(KindsChoice {
        name: text_in(entries, "name"),
    })
}

fn direction_of(is_down: bool) -> Direction
    ensures { result ≡ (if is_down then Down else Right) }
{
    if is_down {
        Direction::Down
    } else {
        Direction::Right
    }
}

fn asked_for(is_run: bool, count: usize) -> Option<usize>
    ensures { result ≡ (if is_run then Some count else None) }
{
    if is_run { Some(count) } else { None }
}

fn has_flag(entries: &ArgMatches<'_>, id: &str) -> bool
    ensures { result ≡ is_given id.now (rows_of (found_of entries.now)) }
{
    is_true(text_in(entries, id))
}

fn is_true(text: Option<&str>) -> bool
    ensures { result ≡ option_map_or (λ t. bytes_eq t.now (codes "true")) text.entry false }
{
    match text {
        Some(text) => text == "true",
        None => false,
    }
}

fn budget_in(text: Option<&str>) -> Result<Option<u64>, WordsFault>
    ensures ok { IfOk result (BudgetFrom (option_map (λ s. s.now) text.entry)) }
    ensures budget { IfErr result (IsBudgetFault (option_map (λ s. s.now) text.entry)) }
{
    match text {
        Some(text) => match number_of(text) {
            Some(budget) => Ok(Some(budget)),
            None => Err(WordsFault::Budget),
        },
        None => Ok(None),
    }
}

fn number_of(text: &str) -> Option<u64>
    ensures { IsNumber text.now result }
{
    text.parse::<u64>().ok()
}

fn texts_in<'a>(
    alloc: Global,
    entries: &ArgMatches<'a>,
    id: &str,
) -> Result<Vec<&'a str>, AllocError>
    ensures { IfOk result (λ v. map (λ s. s.now) v.items ≡ texts_of id.now (rows_of (found_of entries.now))) }
{
    match entries.get_strs(id) {
        Some(texts) => Vec::from_slice(alloc, texts),
        None => Ok(Vec::new(alloc)),
    }
}

fn parse<'a>(alloc: Global, words: &'a [&'a str]) -> Result<ArgMatches<'a>, clap::Error>
    ensures matches { IfOk result (λ m. subcommand_rows_of m ≡ subcommand_of hox (map (λ w. w.now) words.entry.now)) }
    ensures kinds { FailsBy (fault_of hox (map (λ w. w.now) words.entry.now)) result }
{
    command_line(alloc)?.try_get_matches_from(words)
}
