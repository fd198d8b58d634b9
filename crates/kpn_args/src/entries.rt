//! What the entries of a command line say.
ghost use Rattle.std.specs.Prelude.{◌≡◌, IfNone, IfSome, option_map};
ghost use Rattle.clap.specs.Words.{first_of, found_of, rows_of, subcommand_rows_of};
ghost use Rattle.kpn_args.specs.Choices.{IsRefusedWorkers, WorkersFrom};

use crate::arguments::MAX_WORKERS;
use clap::ArgMatches;

/// Returns the subcommand's name and its entries, if there is a subcommand.
pub fn subcommand_in<'a, 'b>(matches: &'b ArgMatches<'a>) -> Option<(&'a str, &'b ArgMatches<'a>)>
    ensures { option_map (λ p. (p.0.now, rows_of (found_of p.1.now))) result ≡ subcommand_rows_of matches.now }
{
    matches.subcommand()
}

/// Returns the first text of an argument, if it has one.
pub fn text_in<'a>(entries: &ArgMatches<'a>, id: &str) -> Option<&'a str>
    ensures { option_map (λ s. s.now) result ≡ first_of id.now (rows_of (found_of entries.now)) }
{
    entries.get_str(id)
}

/// Parses the number of workers; 1 if there is no text. Returns `None` if it is none from 1 to `MAX_WORKERS`.
pub fn workers_in(text: Option<&str>) -> Option<usize>
    ensures workers { IfSome result (WorkersFrom (option_map (λ s. s.now) text.entry)) }
    ensures refused { IfNone result (IsRefusedWorkers (option_map (λ s. s.now) text.entry)) }
{
    let Some(text) = text else {
        return Some(1);
    };
    match text.parse::<usize>() {
        Ok(workers) if workers >= 1 && workers <= MAX_WORKERS => Some(workers),
        _ => None,
    }
}
