//! The program `aries_dump`: it lists what a log or a store holds, one record or page a line. It
//! uses no crate of recovery.
//!
//! Entry point: `main`.
//!
//! The promise is that of `dump` for the lines. Which file is read, what is printed before a fault,
//! and the exit status are tested.
//!
//! Its module is `program`: it reads the file, lists it, and prints why it ended.
#![tactic(auto)]

mod program;

use std::fs::File;
use std::io::{BufWriter, Write};
use std::process::ExitCode;
use std::rt::{Clock, Env, Files};
use words::{ERROR_BUFFER_BYTES, NoWords, slices_of, words_of};

/// Runs the program on the words that it was given, and returns its status.
fn run_words<R: Clock + Env + Files<File = File> + AllocGlobal, O: Write, E: Write>(
    rt: &R,
    out: &mut O,
    err: &mut E,
) -> Result<u8, NoWords> {
    let words = words_of(rt)?;
    let slices = slices_of(rt.alloc(), &words)?;
    Ok(program::run(rt, rt.alloc(), &slices, out, err))
}

/// Runs the program and returns its status.
fn status_of<R: Clock + Env + Files<File = File> + AllocGlobal, O: Write, E: Write>(
    rt: &R,
    out: &mut O,
    err: &mut E,
) -> u8 {
    match run_words(rt, out, err) {
        Ok(status) => status,
        // A line that is wrong, whether the message was printed or not.
        Err(why) => why.explain(err).unwrap_or(2),
    }
}

/// Runs the program on the words of the command line. The exit status is that of `status_of`.
fn main(rt: HostRuntime) -> ExitCode {
    let mut out = rt.stdout();
    let mut err = rt.stderr();
    // Lines are buffered, so that runs that share a terminal do not mix theirs.
    let Ok(mut held) = BufWriter::with_capacity(rt.alloc(), ERROR_BUFFER_BYTES, rt.stderr()) else {
        return ExitCode::from(status_of(&rt, &mut out, &mut err));
    };
    let status = status_of(&rt, &mut out, &mut held);
    let _ = held.flush();
    ExitCode::from(status)
}
