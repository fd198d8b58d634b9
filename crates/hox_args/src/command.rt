//! The command line: its subcommands and their options.
ghost use Rattle.std.specs.Prelude.{◌≡◌, codes};
ghost use Rattle.clap.specs.Words.{app_of, new_app};
ghost use Rattle.kpn_args.specs.Made.{IsLocal, Makes, MakesLocal};
ghost use Rattle.hox_args.specs.HoxCommand.{IsLocalArg, bare_hox, budget_rule, flag_rule, hox, hox_check_command, hox_draw_command, hox_draw_flags, hox_file_rule, hox_four, hox_kinds_command, hox_run_bounds, hox_run_command, hox_run_streams, hox_stream_command, hox_two, list_rule, out_rule, positional_rule, quiet_rule, workers_rule};

use crate::help::{FILES, MORE, NAMES, PICTURES, STATUSES, STREAMS};
use clap::{Arg, ArgAction, Command};
use kpn_args::{VERSION, bare, option, with_arg, with_subcommand};
use std::alloc::{AllocError, Global};

pub(crate) fn command_line<'a>(alloc: Global) -> Result<Command<'a>, AllocError>
    ensures { Makes hox result }
{
    with_subcommand(commands_on_files(alloc), kinds(alloc))
}

/// Adds the subcommands on a description.
fn commands_on_files<'a>(alloc: Global) -> Result<Command<'a>, AllocError>
    ensures { Makes hox_four result }
{
    let command = with_subcommand(check_and_run(alloc), draw(alloc));
    with_subcommand(command, stream(alloc))
}

/// Adds the first two subcommands.
fn check_and_run<'a>(alloc: Global) -> Result<Command<'a>, AllocError>
    ensures { Makes hox_two result }
{
    let command = with_subcommand(Ok(bare_hox(alloc)), check(alloc));
    with_subcommand(command, run(alloc))
}

/// Makes the command line without subcommands.
fn bare_hox<'a>(alloc: Global) -> Command<'a>
    ensures { app_of result ≡ bare_hox }
{
    Command::new(alloc, "hox")
        .about("Runs Kahn process networks on tokens of files")
        .after_help(STATUSES)
        .version(VERSION)
        .subcommand_required(true)
}

fn check<'a>(alloc: Global) -> Result<Command<'a>, AllocError>
    ensures { MakesLocal hox_check_command result }
{
    let about =
        "Checks a description and its files of tokens, and counts its processes and channels";
    let check = Ok(on_files(alloc, "check", about));
    let expanded =
        "Writes the network as a description instead: copies, sorts and tokens of files written out";
    let check = with_arg(check, tokens(alloc));
    let check = with_arg(check, format(alloc));
    let check = with_arg(check, flag(alloc, "expanded", expanded));
    with_arg(check, file(alloc))
}

fn run<'a>(alloc: Global) -> Result<Command<'a>, AllocError>
    ensures { MakesLocal hox_run_command result }
{
    let progress = "Shows progress on standard error in any case";
    let run = with_arg(run_bounds(alloc), flag(alloc, "progress", progress));
    let json = "Writes the report as one JSON object on a line";
    let run = with_arg(run, flag(alloc, "json", json));
    let run = with_arg(run, quiet(alloc));
    with_arg(run, file(alloc))
}

/// Makes `run` with its options on files, streams, the budget and workers.
fn run_bounds<'a>(alloc: Global) -> Result<Command<'a>, AllocError>
    ensures { MakesLocal hox_run_bounds result }
{
    let run = with_arg(run_streams(alloc), budget(alloc));
    with_arg(run, workers(alloc))
}

/// Makes `run` with its options on files and streams.
fn run_streams<'a>(alloc: Global) -> Result<Command<'a>, AllocError>
    ensures { MakesLocal hox_run_streams result }
{
    let about = "Runs the network of a description, reports its end, and writes its streams";
    let run = Ok(on_files(alloc, "run", about));
    let show = "Adds the channel's stream to the report";
    let run = with_arg(run, tokens(alloc));
    let run = with_arg(run, out(alloc));
    let run = with_arg(run, format(alloc));
    let run = with_arg(run, list(alloc, "show", "CHANNEL", show));
    with_arg(run, unsigned(alloc))
}

fn draw<'a>(alloc: Global) -> Result<Command<'a>, AllocError>
    ensures { MakesLocal hox_draw_command result }
{
    let draw = with_arg(draw_flags(alloc), workers(alloc));
    let draw = with_arg(draw, tokens(alloc));
    let draw = with_arg(draw, format(alloc));
    with_arg(draw, file(alloc))
}

/// Makes `draw` with its flags.
fn draw_flags<'a>(alloc: Global) -> Result<Command<'a>, AllocError>
    ensures { MakesLocal hox_draw_flags result }
{
    let draw = Ok(bare(
        alloc,
        "draw",
        "Draws the network of a description, or the end of its run, for Graphviz",
        PICTURES,
    ));
    let is_run = "Runs the network first, and draws the end of the run";
    let down = "Draws from top to bottom instead of left to right";
    let draw = with_arg(draw, flag(alloc, "run", is_run));
    with_arg(draw, flag(alloc, "down", down))
}

fn stream<'a>(alloc: Global) -> Result<Command<'a>, AllocError>
    ensures { MakesLocal hox_stream_command result }
{
    let stream = Ok(bare(
        alloc,
        "stream",
        "Runs a network on tokens as they come, without end and in bounded memory",
        STREAMS,
    ));
    let input = "Feeds the file's tokens to the channel";
    let stream = with_arg(stream, list(alloc, "in", "CHANNEL=FILE", input));
    let stream = with_arg(stream, out(alloc));
    let stream = with_arg(stream, format(alloc));
    let stream = with_arg(stream, unsigned(alloc));
    let progress = "Shows how many tokens came and went";
    let stream = with_arg(stream, flag(alloc, "progress", progress));
    let watch = "Shows how full the channels are, twice a second";
    let stream = with_arg(stream, flag(alloc, "watch", watch));
    let stream = with_arg(stream, quiet(alloc));
    with_arg(stream, file(alloc))
}

fn kinds<'a>(alloc: Global) -> Result<Command<'a>, AllocError>
    ensures { MakesLocal hox_kinds_command result }
{
    let kinds = Ok(bare(
        alloc,
        "kinds",
        "Lists the kinds of processes, with their arguments and ports",
        NAMES,
    ));
    let name = "The kind to tell of [default: all]";
    with_arg(kinds, positional(alloc, "name", "NAME", name))
}

/// Makes a subcommand without arguments, whose long help tells of files.
fn on_files<'a>(alloc: Global, name: &'a str, about: &'a str) -> Command<'a>
    ensures { IsLocal (new_app name.now) result }
{
    bare(alloc, name, about, MORE).after_long_help(FILES)
}

fn tokens<'a>(alloc: Global) -> Arg<'a>
    ensures { IsLocalArg (list_rule (codes "tokens")) result }
{
    let help = "Puts the file's tokens into the channel first";
    list(alloc, "tokens", "CHANNEL=FILE", help)
}

fn out<'a>(alloc: Global) -> Arg<'a>
    ensures { IsLocalArg out_rule result }
{
    let help = "Writes what goes through the channel to a file";
    list(alloc, "out", "CHANNEL=FILE", help).short('o')
}

fn format<'a>(alloc: Global) -> Arg<'a>
    ensures { IsLocalArg (list_rule (codes "format")) result }
{
    let help = "The file's format: text, csv, wav, s16le, ..";
    list(alloc, "format", "CHANNEL=FORMAT", help)
}

fn unsigned<'a>(alloc: Global) -> Arg<'a>
    ensures { IsLocalArg (list_rule (codes "unsigned")) result }
{
    let help = "Writes the channel's words from 0 to 2^64 - 1";
    list(alloc, "unsigned", "CHANNEL", help)
}

fn budget<'a>(alloc: Global) -> Arg<'a>
    ensures { IsLocalArg budget_rule result }
{
    let help = "The most entries [default: the description's]";
    option(alloc, "budget", "N", help).short('n')
}

fn workers<'a>(alloc: Global) -> Arg<'a>
    ensures { IsLocalArg workers_rule result }
{
    let help = "How many workers run the network [default: 1]";
    option(alloc, "workers", "N", help).short('w')
}

fn quiet<'a>(alloc: Global) -> Arg<'a>
    ensures { IsLocalArg quiet_rule result }
{
    flag(alloc, "quiet", "Writes no report").short('q')
}

/// Makes a repeatable option `--name VALUE`.
fn list<'a>(alloc: Global, name: &'a str, value: &'a str, help: &'a str) -> Arg<'a>
    ensures { IsLocalArg (list_rule name.now) result }
{
    Arg::new(alloc, name)
        .long(name)
        .action(ArgAction::Append)
        .value_name(value)
        .help(help)
}

/// Makes a flag `--name`.
fn flag<'a>(alloc: Global, name: &'a str, help: &'a str) -> Arg<'a>
    ensures { IsLocalArg (flag_rule name.now) result }
{
    Arg::new(alloc, name)
        .long(name)
        .action(ArgAction::SetTrue)
        .help(help)
}

fn file<'a>(alloc: Global) -> Arg<'a>
    ensures { IsLocalArg hox_file_rule result }
{
    let help = "The file of the description [default: standard input, as -]";
    positional(alloc, "file", "FILE", help)
}

/// Makes an argument without a name of its own.
fn positional<'a>(alloc: Global, name: &'a str, value: &'a str, help: &'a str) -> Arg<'a>
    ensures { IsLocalArg (positional_rule name.now) result }
{
    Arg::new(alloc, name).value_name(value).help(help)
}
