//! The program `aries`: it passes its words and streams to [`aries::run`], which does the rest. See
//! `crates/aries/src/program.rt`.
//!
//! Entry point: `main`.
//!
//! It promises nothing: `tests/run.py` tests what it prints and its exit status.
#![tactic(auto)]

use std::fs::File;
use std::io::{BufWriter, Write};
use std::process::ExitCode;
use std::rt::{Clock, Env, Files};
use std::thread::Threads;
use words::{ERROR_BUFFER_BYTES, NoWords, slices_of, words_of};

/// Runs the program on the words that it was given, and returns its status.
fn run_words<
    R: Clock + Env + Files<File = File> + AllocGlobal + Threads + Sync,
    O: Write,
    E: Write,
>(rt: &R, out: &mut O, err: &mut E) -> Result<u8, NoWords> {
    let words = words_of(rt)?;
    let slices = slices_of(rt.alloc(), &words)?;
    Ok(aries::run(rt, rt.alloc(), &slices, out, err))
}

/// Runs the program and returns its status.
fn status_of<
    R: Clock + Env + Files<File = File> + AllocGlobal + Threads + Sync,
    O: Write,
    E: Write,
>(rt: &R, out: &mut O, err: &mut E) -> u8 {
    match run_words(rt, out, err) {
        Ok(status) => status,
        // 1 if the print failed.
        Err(why) => why.explain(err).unwrap_or(1),
    }
}

/// Runs the program on the words of the command line. The exit status is that of `status_of`.
fn main(rt: HostRuntime) -> ExitCode {
    let mut out = rt.stdout();
    let mut err = rt.stderr();
    // Lines are buffered, so that runs that share a terminal do not mix theirs.
    let Ok(mut held) = BufWriter::with_capacity(rt.alloc(), ERROR_BUFFER_BYTES, rt.stderr()) else {
        return ExitCode::from(status_of(&rt, &mut out, &mut err));
    };
    let status = status_of(&rt, &mut out, &mut held);
    let _ = held.flush();
    ExitCode::from(status)
}
