//! The command line.

ghost use Rattle.std.specs.Prelude.{◌≡◌, ◌≤◌, Some, IfErr, IfOk, codes, false, is_some, map, option_map};
ghost use Rattle.std.specs.Prelude.{OnOk, Option, pos, string_bytes, true};
ghost use Rattle.clap.specs.Words.{app_of, first_of, found_of, rows_of, rule_of, shape_of};
ghost use Rattle.clap.specs.declared.builder.value_parser.ValueParser.TheVariants.{Signed};
ghost use Rattle.command.specs.Job.{AsksFor, FileName, GivesNumbers, GivesOptions, HasFiles};
ghost use Rattle.command.specs.Job.{HasFlag, HasNumbers, HasRanges, IsFaultless, IsNumberOf};
ghost use Rattle.command.specs.Job.{NamesFiles, NamesNewStore, RefusesOthers, SaysVerbose};
ghost use Rattle.command.specs.Line.{aries_line, audit_line, file_rule, free_file_rule, number_rule};
ghost use Rattle.command.specs.Line.{recover_line};
ghost use Rattle.command.specs.declared.job.Job.{Job};
ghost use Rattle.restart.specs.Options.{AreInRange};
ghost use Rattle.words.specs.declared.refusal.Refusal.TheVariants.{Memory};

use crate::help;
use clap::builder::ValueParser;
use clap::error::ErrorKind;
use clap::{Arg, ArgMatches, Command, value_parser};
use page::VERSION;
use redo::{PARTS, WORKERS};
use restart::Options;
use std::alloc::{AllocError, Global};
use words::{Refusal, flag_of, flag_option, no_command};

/// What a command line asks for.
#[derive(Debug, Drop)]
pub enum Job {
    /// Recover the store `store` from the log `log`, into two new files.
    Recover {
        log: String,
        store: String,
        out_log: String,
        out_store: String,
        options: Options,
        /// Whether one worker may do all if the log is short: the line gives no number.
        may_be_one: bool,
        /// Whether to print more on standard error: after a fault, which file and which call;
        /// otherwise how long each part took.
        verbose: bool,
    },
    /// Recover the store `store` from the log `log`, which is continued in place. The new store is
    /// written to `out_store`, a new file. If that is `None`, it replaces the old store.
    RecoverInPlace {
        log: String,
        store: String,
        out_store: Option<String>,
        options: Options,
        /// Whether one worker may do all if the log is short: the line gives no number.
        may_be_one: bool,
        /// Whether to print more on standard error, as for [`Job::Recover`].
        verbose: bool,
    },
    /// Report whether the log `log` and the store `store` are lawful: over the pages of the base
    /// store `base` if it is given, otherwise over empty pages.
    Audit {
        log: String,
        store: String,
        base: Option<String>,
        /// Whether to print more on standard error, as for [`Job::Recover`].
        verbose: bool,
    },
}

/// An option that names a file.
fn file_option<'a>(alloc: Global, name: &'a str, help: &'a str) -> Arg<'a>
    ensures rule { rule_of result ≡ file_rule name.entry.now }
    ensures local { result.global ≡ false }
{
    Arg::new(alloc, name)
        .long(name)
        .value_name("FILE")
        .required(true)
        .help(help)
}

/// An option that names a file and may be left out.
fn free_file_option<'a>(alloc: Global, name: &'a str, help: &'a str) -> Arg<'a>
    ensures rule { rule_of result ≡ free_file_rule name.entry.now }
    ensures local { result.global ≡ false }
{
    Arg::new(alloc, name)
        .long(name)
        .value_name("FILE")
        .help(help)
}

/// Reads a number of 1 to `most`.
fn number_parser<'a>(most: u32) -> ValueParser<'a>
    ensures { result ≡ Signed (pos 1) (pos most) }
{
    value_parser!(u32).range(1..=i64::from(most))
}

/// An option with a number of 1 to `most`. It may be left out, and then has its default, if there
/// is one.
fn number_option<'a>(
    alloc: Global,
    name: &'a str,
    most: u32,
    default: Option<&'a str>,
    help: &'a str,
) -> Arg<'a>
    ensures rule { rule_of result
        ≡ number_rule name.entry.now most (option_map (λ text. text.now) default.entry) }
    ensures local { result.global ≡ false }
{
    let option = Arg::new(alloc, name)
        .long(name)
        .value_name("N")
        .value_parser(number_parser(most))
        .help(help);
    match default {
        Some(text) => option.default_value(text),
        None => option,
    }
}

/// The command `recover`.
fn recover_command<'a>(alloc: Global) -> Result<Command<'a>, AllocError>
    ensures { IfOk result (λ c. shape_of c ≡ recover_line) }
{
    let options = vec![in alloc;
        file_option(alloc, "log", "The log"),
        file_option(alloc, "store", "The store to recover"),
        free_file_option(alloc, "out-log", help::OUT_LOG),
        free_file_option(alloc, "out-store", help::OUT_STORE),
        flag_option(alloc, "in-place", help::IN_PLACE),
        flag_option(alloc, "replace", help::REPLACE),
        number_option(
            alloc,
            "workers",
            WORKERS,
            None,
            "How many threads read a log without a checkpoint, or redo one from a pipe, 1 to 64",
        ),
        number_option(
            alloc,
            "parts",
            PARTS,
            Some("16"),
            "Into how many parts the pages are divided, 1 to 4096",
        ),
        flag_option(alloc, "verbose", help::VERBOSE),
    ]?;
    Command::new(alloc, "recover")
        .about("Recover a store and its log after a crash")
        .override_usage(help::RECOVER_USAGE)
        .after_help(help::RECOVER)
        .args(options)
}

/// The command `audit`.
fn audit_command<'a>(alloc: Global) -> Result<Command<'a>, AllocError>
    ensures { IfOk result (λ c. shape_of c ≡ audit_line) }
{
    let options = vec![in alloc;
        file_option(alloc, "log", "The log to check"),
        file_option(alloc, "store", "The store to check"),
        free_file_option(
            alloc,
            "base",
            "The base store: what the pages held before the log's first record (without it, nothing)",
        ),
        flag_option(alloc, "verbose", help::VERBOSE),
    ]?;
    Command::new(alloc, "audit")
        .about(
            "Check whether a log and a store keep the rules; if not, print the first that is broken",
        )
        .after_help(help::AUDIT)
        .args(options)
}

/// The whole command line.
fn aries_command<'a>(alloc: Global) -> Result<Command<'a>, AllocError>
    ensures { IfOk result (λ c. app_of c ≡ aries_line) }
{
    let commands = vec![in alloc; recover_command(alloc)?, audit_command(alloc)?]?;
    Command::new(alloc, "aries")
        .version(VERSION)
        .about("Crash recovery that is proved")
        .after_help(help::ARIES)
        .subcommand_required(true)
        .subcommands(commands)
}

/// The file name that an option gives. Such an option is required, so a line without it was
/// rejected.
fn file_of(
    alloc: Global,
    command: &mut Command,
    matches: &ArgMatches,
    name: &str,
) -> Result<String, Refusal>
    ensures given { IfOk result (λ file.
        first_of name.now (rows_of (found_of matches.now)) ≡ Some (string_bytes file)) }
    ensures refused { IfErr result (λ refusal.
        is_some (first_of name.now (rows_of (found_of matches.now))) ≡ true → refusal ≡ Memory) }
{
    match matches.get_str(name) {
        Some(file) => Ok(String::from_str(alloc, file)?),
        None => {
            let error = command.error(ErrorKind::MissingRequiredArgument, "a file is needed")?;
            Err(Refusal::Line(error))
        }
    }
}

/// The file name that an option gives, if it is there.
fn given_file(alloc: Global, matches: &ArgMatches, name: &str) -> Result<Option<String>, Refusal>
    ensures given { IfOk result (λ file.
        first_of name.now (rows_of (found_of matches.now)) ≡ option_map string_bytes file) }
    ensures refused { IfErr result (λ refusal. refusal ≡ Memory) }
{
    match matches.get_str(name) {
        Some(file) => Ok(Some(String::from_str(alloc, file)?)),
        None => Ok(None),
    }
}

/// The number that an option gives, or its default.
fn number_of(matches: &ArgMatches, name: &str, most: u32, default: u32) -> u32
    requires low { 1 ≤ default }
    requires high { default ≤ most }
    ensures low { 1 ≤ result }
    ensures high { result ≤ most }
    ensures given { IsNumberOf (rows_of (found_of matches.now)) name.now most result }
{
    matches
        .get_one::<u32>(name)
        .unwrap_or(default)
        .clamp(1, most)
}

/// The numbers that the options of `recover` give, and whether one worker may do all.
fn options_of(matches: &ArgMatches) -> (Options, bool)
    ensures given { GivesOptions (rows_of (found_of matches.now)) result.0 result.1 }
    ensures ranges { AreInRange result.0 }
{
    let options = Options {
        workers: number_of(matches, "workers", WORKERS, 4),
        parts: number_of(matches, "parts", PARTS, 16),
    };
    (options, matches.get_str("workers").is_none())
}

/// The error of a line of `recover`.
fn wrong_line(alloc: Global, kind: ErrorKind, message: &str) -> Result<Refusal, AllocError> {
    let mut command = recover_command(alloc)?;
    Ok(Refusal::Line(command.error(kind, message)?))
}

/// The error of a line of `recover` that leaves out an option.
fn missing_option(alloc: Global, message: &str) -> Result<Refusal, AllocError> {
    wrong_line(alloc, ErrorKind::MissingRequiredArgument, message)
}

/// The error of a line of `recover` with two options that exclude each other.
fn option_conflict(alloc: Global, message: &str) -> Result<Refusal, AllocError> {
    wrong_line(alloc, ErrorKind::ArgumentConflict, message)
}

/// The name of the file that the recovered store is written to, or `None` if it replaces the old
/// store. A line that says neither, or both, is an error.
fn new_store_of(alloc: Global, matches: &ArgMatches) -> Result<Option<String>, Refusal>
    ensures given { IfOk result (λ file. NamesNewStore (rows_of (found_of matches.now)) file) }
    ensures refused { IfErr result (λ refusal. (file : Option FileName)
        → NamesNewStore (rows_of (found_of matches.now)) file → refusal ≡ Memory) }
{
    let file = given_file(alloc, matches, "out-store")?;
    match (file.is_some(), flag_of(matches, "replace")) {
        (true, false) | (false, true) => Ok(file),
        (true, true) => Err(option_conflict(alloc, help::TWO_STORES)?),
        (false, false) => Err(missing_option(alloc, help::NO_STORE)?),
    }
}

/// What the options of `recover` ask for.
fn recover_job(alloc: Global, command: &mut Command, matches: &ArgMatches) -> Result<Job, Refusal>
    ensures files { IfOk result (NamesFiles (codes "recover") (rows_of (found_of matches.now))) }
    ensures numbers { IfOk result (GivesNumbers (rows_of (found_of matches.now))) }
    ensures verbose { IfOk result (SaysVerbose (rows_of (found_of matches.now))) }
    ensures ranges { IfOk result HasRanges }
    ensures refused { IfErr result
        (RefusesOthers (codes "recover") (rows_of (found_of matches.now))) }
{
    let log = file_of(alloc, command, matches, "log")?;
    let store = file_of(alloc, command, matches, "store")?;
    let out_log = given_file(alloc, matches, "out-log")?;
    let out_store = new_store_of(alloc, matches)?;
    let (options, may_be_one) = options_of(matches);
    let verbose = flag_of(matches, "verbose");
    match (flag_of(matches, "in-place"), out_log, out_store) {
        (false, Some(out_log), Some(out_store)) => Ok(Job::Recover {
            log,
            store,
            out_log,
            out_store,
            options,
            may_be_one,
            verbose,
        }),
        (true, None, out_store) => Ok(Job::RecoverInPlace {
            log,
            store,
            out_store,
            options,
            may_be_one,
            verbose,
        }),
        (false, None, _) => Err(missing_option(alloc, help::NO_LOG)?),
        (false, Some(_), None) => Err(missing_option(alloc, help::REPLACE_ALONE)?),
        (true, Some(_), _) => Err(option_conflict(alloc, help::TWO_LOGS)?),
    }
}

/// What the options of `audit` ask for.
fn audit_job(alloc: Global, command: &mut Command, matches: &ArgMatches) -> Result<Job, Refusal>
    ensures files { IfOk result (NamesFiles (codes "audit") (rows_of (found_of matches.now))) }
    ensures numbers { IfOk result (GivesNumbers (rows_of (found_of matches.now))) }
    ensures verbose { IfOk result (SaysVerbose (rows_of (found_of matches.now))) }
    ensures ranges { IfOk result HasRanges }
    ensures refused { IfErr result
        (RefusesOthers (codes "audit") (rows_of (found_of matches.now))) }
{
    Ok(Job::Audit {
        log: file_of(alloc, command, matches, "log")?,
        store: file_of(alloc, command, matches, "store")?,
        base: given_file(alloc, matches, "base")?,
        verbose: flag_of(matches, "verbose"),
    })
}

/// What the options of the command with this name ask for. `clap` rejects a line with another name
/// before this is called.
fn job_of(
    alloc: Global,
    command: &mut Command,
    name: &str,
    matches: &ArgMatches,
) -> Result<Job, Refusal>
    ensures files { IfOk result (NamesFiles name.now (rows_of (found_of matches.now))) }
    ensures numbers { IfOk result (GivesNumbers (rows_of (found_of matches.now))) }
    ensures verbose { IfOk result (SaysVerbose (rows_of (found_of matches.now))) }
    ensures ranges { IfOk result HasRanges }
    ensures refused { IfErr result
        (RefusesOthers name.now (rows_of (found_of matches.now))) }
{
    match name {
        "recover" => recover_job(alloc, command, matches),
        "audit" => audit_job(alloc, command, matches),
        _ => Err(no_command(command)),
    }
}

/// What a command line asks for; the first word is the program's name. The error is
/// [`Refusal::Line`] if the line is wrong or asks for help or the version, and [`Refusal::Memory`]
/// if memory was refused. A line asks for a job if `clap` finds no fault in it and its words give
/// the job's command and files; for such a line the only error is [`Refusal::Memory`]. `clap` reads
/// a number as `u32` does, so `+4` is 4; the clause `numbers` covers only digits without a sign.
pub fn command_of<'a>(alloc: Global, words: &'a [&'a str]) -> Result<Job, Refusal>
    ensures faultless { OnOk result (IsFaultless (map (λ w. w.now) words.now)) }
    ensures files { IfOk result (HasFiles (map (λ w. w.now) words.now)) }
    ensures numbers { IfOk result (HasNumbers (map (λ w. w.now) words.now)) }
    ensures verbose { IfOk result (HasFlag (map (λ w. w.now) words.now)) }
    ensures ranges { IfOk result HasRanges }
    ensures refused { IfErr result (λ refusal. (job : Job)
        → AsksFor (map (λ w. w.now) words.now) job → refusal ≡ Memory) }
{
    let mut command = aries_command(alloc)?;
    let matches = command.try_get_matches_from_mut(words)?;
    let Some((name, options)) = matches.subcommand() else {
        return Err(no_command(&mut command));
    };
    job_of(alloc, &mut command, name, options)
}
