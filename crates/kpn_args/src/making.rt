//! Makes a command line one argument or subcommand at a time, passing an error on to the end, where the
//! caller sees it.
ghost use Rattle.std.specs.Prelude.{◌≡◌, false};
ghost use Rattle.clap.specs.Words.{new_app, rule_of, with_subcommand};
ghost use Rattle.kpn_args.specs.Command.{option_rule};
ghost use Rattle.kpn_args.specs.Made.{IsLocal, AddsRule, AddsSubcommand};

use clap::{Arg, Command};
use std::alloc::{AllocError, Global};

/// Adds an argument to a command.
///
/// Errors: out of memory, now or before.
pub fn with_arg<'a>(
    command: Result<Command<'a>, AllocError>,
    arg: Arg<'a>,
) -> Result<Command<'a>, AllocError>
    requires { arg.global ≡ false }
    ensures { AddsRule command.entry (rule_of arg.entry) result }
{
    command?.arg(arg)
}

/// Adds a subcommand to a command.
///
/// Errors: out of memory, now or before.
pub fn with_subcommand<'a>(
    command: Result<Command<'a>, AllocError>,
    subcommand: Result<Command<'a>, AllocError>,
) -> Result<Command<'a>, AllocError>
    ensures { AddsSubcommand command.entry subcommand.entry result }
{
    command?.subcommand(subcommand?)
}

/// Makes a subcommand without arguments.
pub fn bare<'a>(alloc: Global, name: &'a str, about: &'a str, after_help: &'a str) -> Command<'a>
    ensures { IsLocal (new_app name.now) result }
{
    Command::new(alloc, name)
        .about(about)
        .after_help(after_help)
}

/// Makes an option `--name VALUE`.
pub fn option<'a>(alloc: Global, name: &'a str, value: &'a str, help: &'a str) -> Arg<'a>
    ensures rule { rule_of result ≡ option_rule name.now }
    ensures local { result.global ≡ false }
{
    Arg::new(alloc, name)
        .long(name)
        .value_name(value)
        .help(help)
}
