//! The command line of `aries_dump`.

ghost use Rattle.std.specs.Prelude.{◌≡◌, ◌^◌, ◌<◌, Some, IfErr, IfOk, codes, is_some, map};
ghost use Rattle.std.specs.Prelude.{OnOk, string_bytes, true, false};
ghost use Rattle.clap.specs.Words.{app_of, first_of, found_of, rows_of, rule_of, shape_of};
ghost use Rattle.dump_command.specs.Job.{AsksFor, GivesNumbers, HasFile, HasNumbers, IsFaultless, NamesFile};
ghost use Rattle.dump_command.specs.Job.{IsGiven};
ghost use Rattle.dump_command.specs.Line.{dump_line, log_line, store_line, path_rule, lsn_rule, number_rule};
ghost use Rattle.words.specs.declared.refusal.Refusal.TheVariants.{Memory};

use clap::error::ErrorKind;
use clap::{Arg, ArgMatches, Command, value_parser};
use page::VERSION;
use std::alloc::{AllocError, Global};
use words::{Refusal, flag_of, flag_option, no_command};

/// The text of `--help` for the flag that asks for JSON.
const JSON: &str = "Print each line as a JSON object";

/// What a command line of `aries_dump` asks for. A number that is `None` was not given.
#[derive(Debug, Drop)]
pub enum Job {
    /// List what the log `file` holds: the records with LSNs of `from` to `to` that are of the
    /// transaction and on the page.
    Log {
        file: String,
        from: Option<u64>,
        to: Option<u64>,
        transaction: Option<u32>,
        page: Option<u32>,
        is_json: bool,
    },
    /// List what the store `file` holds, or only the page.
    Store {
        file: String,
        page: Option<u32>,
        is_json: bool,
    },
}

/// The file, which follows the command.
fn path<'a>(alloc: Global, help: &'a str) -> Arg<'a>
    ensures rule { rule_of result ≡ path_rule }
    ensures local { result.global ≡ false }
{
    Arg::new(alloc, "FILE").required(true).help(help)
}

/// An option with an LSN.
fn lsn_option<'a>(alloc: Global, name: &'a str, help: &'a str) -> Arg<'a>
    ensures rule { rule_of result ≡ lsn_rule name.entry.now }
    ensures local { result.global ≡ false }
{
    Arg::new(alloc, name)
        .long(name)
        .value_name("LSN")
        .value_parser(value_parser!(u64))
        .help(help)
}

/// An option with the number of a transaction or a page; `--help` shows `shown` for the number.
fn number_option<'a>(alloc: Global, name: &'a str, shown: &'a str, help: &'a str) -> Arg<'a>
    ensures rule { rule_of result ≡ number_rule name.entry.now }
    ensures local { result.global ≡ false }
{
    Arg::new(alloc, name)
        .long(name)
        .value_name(shown)
        .value_parser(value_parser!(u32))
        .help(help)
}

/// The command `log`.
fn log_command<'a>(alloc: Global) -> Result<Command<'a>, AllocError>
    ensures { IfOk result (λ c. shape_of c ≡ log_line) }
{
    Command::new(alloc, "log")
        .about("Print what a log holds, up to its end or to the first damage")
        .arg(path(alloc, "The log"))?
        .arg(lsn_option(alloc, "from", "Only records with this LSN or a higher one"))?
        .arg(lsn_option(alloc, "to", "Only records with this LSN or a lower one"))?
        .arg(number_option(
            alloc,
            "transaction",
            "N",
            "Only the records of this transaction",
        ))?
        .arg(number_option(alloc, "page", "P", "Only the updates and CLRs on this page"))?
        .arg(flag_option(alloc, "json", JSON))
}

/// The command `store`.
fn store_command<'a>(alloc: Global) -> Result<Command<'a>, AllocError>
    ensures { IfOk result (λ c. shape_of c ≡ store_line) }
{
    Command::new(alloc, "store")
        .about("Print what a store holds")
        .arg(path(alloc, "The store"))?
        .arg(number_option(alloc, "page", "P", "Only this page"))?
        .arg(flag_option(alloc, "json", JSON))
}

/// The whole command line.
fn dump_command<'a>(alloc: Global) -> Result<Command<'a>, AllocError>
    ensures { IfOk result (λ c. app_of c ≡ dump_line) }
{
    Command::new(alloc, "aries_dump")
        .version(VERSION)
        .about("Print what a log or a store holds, a line for each record or page")
        .subcommand_required(true)
        .subcommand(log_command(alloc)?)?
        .subcommand(store_command(alloc)?)
}

/// The LSN that an option gives.
fn lsn_of(matches: &ArgMatches, name: &str) -> Option<u64>
    ensures { IsGiven (2 ^ 64) (rows_of (found_of matches.now)) name.now result }
{
    matches.get_one::<u64>(name)
}

/// The number that an option gives.
fn number_of(matches: &ArgMatches, name: &str) -> Option<u32>
    ensures { IsGiven (2 ^ 32) (rows_of (found_of matches.now)) name.now result }
{
    matches.get_one::<u32>(name)
}

/// The name that follows the command. It is required, so a line without it was rejected.
fn file_of(alloc: Global, command: &mut Command, matches: &ArgMatches) -> Result<String, Refusal>
    ensures given { IfOk result (λ file.
        first_of (codes "FILE") (rows_of (found_of matches.now)) ≡ Some (string_bytes file)) }
    ensures refused { IfErr result (λ refusal.
        is_some (first_of (codes "FILE") (rows_of (found_of matches.now))) ≡ true
        → refusal ≡ Memory) }
{
    match matches.get_str("FILE") {
        Some(file) => Ok(String::from_str(alloc, file)?),
        None => {
            let error = command.error(ErrorKind::MissingRequiredArgument, "a file is needed")?;
            Err(Refusal::Line(error))
        }
    }
}

/// What the options of `log` ask for.
fn log_job(alloc: Global, command: &mut Command, matches: &ArgMatches) -> Result<Job, Refusal>
    ensures file { IfOk result (NamesFile (codes "log") (rows_of (found_of matches.now))) }
    ensures numbers { IfOk result (GivesNumbers (rows_of (found_of matches.now))) }
    ensures refused { IfErr result (λ refusal. (job : Job)
        → NamesFile (codes "log") (rows_of (found_of matches.now)) job → refusal ≡ Memory) }
{
    Ok(Job::Log {
        file: file_of(alloc, command, matches)?,
        from: lsn_of(matches, "from"),
        to: lsn_of(matches, "to"),
        transaction: number_of(matches, "transaction"),
        page: number_of(matches, "page"),
        is_json: flag_of(matches, "json"),
    })
}

/// What the options of `store` ask for.
fn store_job(alloc: Global, command: &mut Command, matches: &ArgMatches) -> Result<Job, Refusal>
    ensures file { IfOk result (NamesFile (codes "store") (rows_of (found_of matches.now))) }
    ensures numbers { IfOk result (GivesNumbers (rows_of (found_of matches.now))) }
    ensures refused { IfErr result (λ refusal. (job : Job)
        → NamesFile (codes "store") (rows_of (found_of matches.now)) job → refusal ≡ Memory) }
{
    Ok(Job::Store {
        file: file_of(alloc, command, matches)?,
        page: number_of(matches, "page"),
        is_json: flag_of(matches, "json"),
    })
}

/// What a command line of `aries_dump` asks for; the first word is the program's name. The error is
/// [`Refusal::Line`] if the line is wrong or asks for help or the version, and [`Refusal::Memory`]
/// if memory was refused. A line asks for a job if `clap` finds no fault in it and its words give
/// the job's command and file; for such a line the only error is [`Refusal::Memory`]. A number may
/// begin with a `+`, as `clap` takes it.
pub fn dump_of<'a>(alloc: Global, words: &'a [&'a str]) -> Result<Job, Refusal>
    ensures faultless { OnOk result (IsFaultless (map (λ w. w.now) words.now)) }
    ensures file { IfOk result (HasFile (map (λ w. w.now) words.now)) }
    ensures numbers { IfOk result (HasNumbers (map (λ w. w.now) words.now)) }
    ensures refused { IfErr result (λ refusal. (job : Job)
        → AsksFor (map (λ w. w.now) words.now) job → refusal ≡ Memory) }
{
    let mut command = dump_command(alloc)?;
    let matches = command.try_get_matches_from_mut(words)?;
    let Some((name, options)) = matches.subcommand() else {
        return Err(no_command(&mut command));
    };
    match name {
        "log" => log_job(alloc, &mut command, options),
        "store" => store_job(alloc, &mut command, options),
        _ => Err(no_command(&mut command)),
    }
}
