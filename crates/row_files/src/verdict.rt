//! Whether a run of the program does what its row says.

use crate::program::{NEW_LOG, NEW_STORE, Printed, audit, audit_over, recover, remove_new_files};
use anyhow::{Context, Result};
use std::fmt;
use std::fs::{self, File};
use std::rt::{Clock, Files};
use std::thread::Threads;

/// How far a run and its row agree.
#[derive(Clone, Copy, Debug, PartialEq, Eq)]
pub enum Verdict {
    /// The run does what the row says.
    Same,
    /// The output or the status differs from the row.
    AnotherAnswer,
    /// It made another log.
    AnotherLog,
    /// It made another store.
    AnotherStore,
    /// Memory or a thread was refused, and nothing is written.
    NoResource,
}

impl fmt::Display for Verdict {
    fn fmt<W: fmt::Write>(&self, f: &mut fmt::Formatter<W>) -> fmt::Result {
        f.write_str(match self {
            Verdict::Same => "ok",
            Verdict::AnotherAnswer => "another answer",
            Verdict::AnotherLog => "another log",
            Verdict::AnotherStore => "another store",
            Verdict::NoResource => "no resource, and nothing out",
        })
    }
}

/// Whether two files hold the same bytes.
fn are_same<R: Files + AllocGlobal>(rt: &R, one: &str, other: &str) -> Result<bool> {
    let first = fs::read(rt, one).context(format_args!("reading {one}"))?;
    let second = fs::read(rt, other).context(format_args!("reading {other}"))?;
    Ok(first.as_slice() == second.as_slice())
}

/// Whether a run printed this and nothing else: to standard output with status 0 if it succeeds, to
/// standard error with status 1 if it fails.
fn has_printed(printed: &Printed, expected: &[u8]) -> bool {
    match printed.status {
        0 => printed.out.as_slice() == expected && printed.err.is_empty(),
        1 => printed.err.as_slice() == expected && printed.out.is_empty(),
        _ => false,
    }
}

/// Whether the files that a restart made are those of the row.
pub fn of_new_files<R: Files + AllocGlobal>(rt: &R, row: &str) -> Result<Verdict> {
    let log = format!(in rt.alloc(); "{row}/out-log")?;
    if !are_same(rt, NEW_LOG, log.as_str())? {
        return Ok(Verdict::AnotherLog);
    }
    let store = format!(in rt.alloc(); "{row}/out-store")?;
    if !are_same(rt, NEW_STORE, store.as_str())? {
        return Ok(Verdict::AnotherStore);
    }
    Ok(Verdict::Same)
}

/// Whether a restart that printed this and made the new files did what the row says.
fn of_printed<R: Files + AllocGlobal>(rt: &R, row: &str, printed: &Printed) -> Result<Verdict> {
    let expected = fs::read(rt, format!(in rt.alloc(); "{row}/printed")?)?;
    if !has_printed(printed, &expected) {
        return Ok(Verdict::AnotherAnswer);
    }
    if printed.status != 0 {
        return Ok(Verdict::Same);
    }
    of_new_files(rt, row)
}

/// Whether a restart on the row's log and store prints what the row says and, if it succeeds, makes
/// the row's files. The new files are removed afterwards.
pub fn of_restart<R: Files<File = File> + Clock + AllocGlobal + Threads + Sync>(
    rt: &R,
    row: &str,
    workers: &str,
    parts: &str,
) -> Result<Verdict> {
    let log = format!(in rt.alloc(); "{row}/log")?;
    let store = format!(in rt.alloc(); "{row}/store")?;
    let printed = recover(rt, log.as_str(), store.as_str(), workers, parts);
    let verdict = of_printed(rt, row, &printed)?;
    remove_new_files(rt)?;
    Ok(verdict)
}

/// Whether an audit printed what the row says.
fn of_audited<R: Files + AllocGlobal>(rt: &R, row: &str, printed: &Printed) -> Result<Verdict> {
    let expected = fs::read(rt, format!(in rt.alloc(); "{row}/audited")?)?;
    Ok(if has_printed(printed, &expected) {
        Verdict::Same
    } else {
        Verdict::AnotherAnswer
    })
}

/// Whether an audit of the row's log and store prints what the row says.
pub fn of_audit<R: Files<File = File> + Clock + AllocGlobal + Threads + Sync>(
    rt: &R,
    row: &str,
) -> Result<Verdict> {
    let log = format!(in rt.alloc(); "{row}/log")?;
    let store = format!(in rt.alloc(); "{row}/store")?;
    of_audited(rt, row, &audit(rt, log.as_str(), store.as_str()))
}

/// Whether an audit of them over the row's base store does.
pub fn of_audit_over<R: Files<File = File> + Clock + AllocGlobal + Threads + Sync>(
    rt: &R,
    row: &str,
) -> Result<Verdict> {
    let log = format!(in rt.alloc(); "{row}/log")?;
    let store = format!(in rt.alloc(); "{row}/store")?;
    let base = format!(in rt.alloc(); "{row}/base")?;
    of_audited(
        rt,
        row,
        &audit_over(rt, log.as_str(), store.as_str(), base.as_str()),
    )
}
