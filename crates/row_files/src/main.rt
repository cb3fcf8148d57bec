//! The worked rows as files: runs `aries` on each row that `data/index` names, and compares what it
//! prints and the files it makes with those of the row. Restarts are run over devices in memory,
//! too.
#![tactic(auto)]

mod cuts;
mod each;
mod memory;
mod program;
mod verdict;

use anyhow::{Context, Result};
use aries::Options;
use cuts::Cuts;
use std::fs::{self, File};
use std::rt::{Clock, Files};
use std::str::SplitWhitespace;
use std::thread::Threads;
use verdict::Verdict;

/// Prints whether the audit of a row is as the row says.
fn run_audit<R: Files<File = File> + Clock + Print + AllocGlobal + Threads + Sync>(
    rt: &R,
    row: &str,
) -> Result<()> {
    let verdict = verdict::of_audit(rt, row).context(format_args!("audit of {row}"))?;
    println!(rt; "{row}, audit: {verdict}")?;
    Ok(())
}

/// Prints whether the audit of a row over its base store is as the row says.
fn run_audit_over<R: Files<File = File> + Clock + Print + AllocGlobal + Threads + Sync>(
    rt: &R,
    row: &str,
) -> Result<()> {
    let verdict = verdict::of_audit_over(rt, row).context(format_args!("audit of {row}"))?;
    println!(rt; "{row}, audit over its base: {verdict}")?;
    Ok(())
}

/// Prints whether a restart of a row is as the row says, over files and over memory.
fn run_restart<R: Files<File = File> + Clock + Print + AllocGlobal + Threads + Sync>(
    rt: &R,
    row: &str,
    workers: &str,
    parts: &str,
) -> Result<()> {
    let mut verdict = verdict::of_restart(rt, row, workers, parts).context(format_args!(
        "row {row}"
    ))?;
    if verdict == Verdict::Same {
        let options = Options {
            workers: workers.parse::<u32>()?,
            parts: parts.parse::<u32>()?,
        };
        verdict = memory::of_recovery(rt, row, &options).context(format_args!(
            "row {row} in memory"
        ))?;
    }
    println!(rt; "{row}, {workers} workers, {parts} parts: {verdict}")?;
    Ok(())
}

/// Prints whether a restart of a row over slow devices is as the row says.
fn run_slow<R: Files + Print + AllocGlobal + Threads + Sync>(rt: &R, row: &str) -> Result<()> {
    let options = Options {
        workers: 2,
        parts: 3,
    };
    let verdict = memory::of_slow_recovery(rt, row, &options).context(format_args!(
        "row {row}, slow"
    ))?;
    println!(rt; "{row}, slow devices: {verdict}")?;
    Ok(())
}

/// Prints whether each record of a row's log is found by its LSN.
fn run_each<R: Files + Print + AllocGlobal>(rt: &R, row: &str) -> Result<()> {
    let verdict = each::of_each_record(rt, row).context(format_args!("records of {row}"))?;
    println!(rt; "{row}, each record: {verdict}")?;
    Ok(())
}

/// Prints whether the restarts of a row whose log was cut are as the row says.
fn run_cuts<R: Files<File = File> + Clock + Print + AllocGlobal + Threads + Sync>(
    rt: &R,
    row: &str,
    over_base: bool,
    words: &mut SplitWhitespace,
) -> Result<()> {
    let page = words.next().context("a row without the LSN of its page")?;
    let first = words.next().context("a row without its shortest log")?;
    let last = words.next().context("a row without its longest log")?;
    let cuts = Cuts {
        row,
        page,
        first: first.parse::<usize>()?,
        last: last.parse::<usize>()?,
        over_base,
    };
    let verdict = cuts::of_cuts(rt, &cuts).context(format_args!("cuts of {row}"))?;
    println!(rt; "{row}, page at {page}, cut to {first} up to {last} bytes: {verdict}")?;
    Ok(())
}

/// Runs what a line says of a row: the folder, and then `audit`; or `audit-over`; or `slow`; or
/// `each`, its records by their LSNs; or `cuts`, the PageLSN of the page and the sizes of the
/// shortest and the longest log; or `cuts-over` and the same; or the workers and the parts of a
/// restart.
fn run_line<R: Files<File = File> + Clock + Print + AllocGlobal + Threads + Sync>(
    rt: &R,
    line: &str,
) -> Result<()> {
    let mut words = line.split_whitespace();
    let row = words.next().context("a row without a name")?;
    let command = words.next().context("a row without a command")?;
    if command == "audit" {
        return run_audit(rt, row);
    }
    if command == "audit-over" {
        return run_audit_over(rt, row);
    }
    if command == "slow" {
        return run_slow(rt, row);
    }
    if command == "each" {
        return run_each(rt, row);
    }
    if command == "cuts" {
        return run_cuts(rt, row, false, &mut words);
    }
    if command == "cuts-over" {
        return run_cuts(rt, row, true, &mut words);
    }
    let parts = words.next().context("a row without parts")?;
    run_restart(rt, row, command, parts)
}

/// Runs the lines of the index.
fn run_rows<R: Files<File = File> + Clock + Print + AllocGlobal + Threads + Sync>(
    rt: &R,
    index: &str,
) -> Result<()> {
    for line in index.lines() {
        run_line(rt, line)?;
    }
    Ok(())
}

fn main(rt: HostRuntime) -> Result<()> {
    let index = fs::read_to_string(&rt, "index")?;
    run_rows(&rt, index.as_str())
}
