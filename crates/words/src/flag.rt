//! Options without a value.

ghost use Rattle.std.specs.Prelude.{◌≡◌, false};
ghost use Rattle.clap.specs.Words.{found_of, rows_of, rule_of};
ghost use Rattle.words.specs.Flags.{flag_rule, IsFlagOf};

use clap::{Arg, ArgAction, ArgMatches};
use std::alloc::Global;

/// An option without a value.
pub fn flag_option<'a>(alloc: Global, name: &'a str, help: &'a str) -> Arg<'a>
    ensures rule { rule_of result ≡ flag_rule name.entry.now }
    ensures local { result.global ≡ false }
{
    Arg::new(alloc, name)
        .long(name)
        .action(ArgAction::SetTrue)
        .help(help)
}

/// Whether a flag is set on the line.
pub fn flag_of(matches: &ArgMatches, name: &str) -> bool
    ensures { IsFlagOf (rows_of (found_of matches.now)) name.now result }
{
    matches.get_one::<bool>(name).unwrap_or(false)
}
