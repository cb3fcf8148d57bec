//! Why a command line is rejected.

ghost use Rattle.std.specs.Prelude.{◌≡◌};
ghost use Rattle.clap.specs.Words.{kind_of};
ghost use Rattle.clap.specs.declared.error.kind.ErrorKind.TheVariants.{OutOfMemory};
ghost use Rattle.words.specs.Statuses.{IsLineStatus, IsExitStatusOf};
ghost use Rattle.words.specs.declared.refusal.Refusal.TheVariants.{Memory};

use crate::refuse;
use crate::shown::print_shown;
use clap::Command;
use clap::error::ErrorKind;
use page::Fault;
use std::alloc::AllocError;
use std::io::Write;

/// Why a command line was rejected.
#[derive(Debug, Drop)]
pub enum Refusal {
    /// The line is wrong, or asks for help or the version. This holds the text to print, and the
    /// stream for it.
    Line(clap::Error),
    /// Memory was refused.
    Memory,
}

impl From<AllocError> for Refusal {
    ghost from_gives = { λ _ refusal. refusal ≡ Memory };

    fn from(_e: AllocError) -> Refusal {
        Refusal::Memory
    }
}

impl From<clap::Error> for Refusal {
    ghost from_gives = { λ error refusal. kind_of error ≡ OutOfMemory → refusal ≡ Memory };

    fn from(error: clap::Error) -> Refusal {
        match error.kind() {
            ErrorKind::OutOfMemory => Refusal::Memory,
            _ => Refusal::Line(error),
        }
    }
}

/// Prints what clap reports for a line. In a mistake, characters that a terminal would obey are
/// escaped. Returns the status: 2 for a mistake, 0 if help or the version was asked for, 1 if the
/// print failed.
fn explain_line<O: Write, E: Write>(error: clap::Error, out: &mut O, err: &mut E) -> u8
    ensures { IsLineStatus (kind_of error) result }
{
    let (is_printed, status) = if error.use_stderr() {
        (print_shown(&error, err).is_ok(), 2)
    } else {
        (write!(out, "{error}").is_ok(), 0)
    };
    if is_printed { status } else { 1 }
}

impl Refusal {
    /// Prints the message: to `out` if help or the version was asked for, otherwise to `err`.
    /// Returns the status: 1 if memory was refused or the print failed, 2 for a line that is wrong,
    /// otherwise 0.
    pub fn explain<O: Write, E: Write>(self, out: &mut O, err: &mut E) -> u8
        ensures { IsExitStatusOf self result }
    {
        match self {
            Refusal::Line(error) => explain_line(error, out, err),
            Refusal::Memory => refuse(Fault::NoResource, err),
        }
    }
}

/// The error of a line without a command. `clap` rejects such a line before this is called.
pub fn no_command(command: &mut Command) -> Refusal {
    match command.error(ErrorKind::MissingSubcommand, "a command is needed") {
        Ok(error) => Refusal::Line(error),
        Err(error) => Refusal::from(error),
    }
}
