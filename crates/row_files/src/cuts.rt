//! Restarts that were interrupted: the log that a restart makes, cut at each byte, and a page that
//! was written out on the way.

use crate::program::{Printed, audit, audit_over, recover, remove_new_files};
use crate::verdict::{Verdict, of_new_files};
use anyhow::{Context, Result};
use std::fs::{self, File};
use std::rt::{Clock, Files};
use std::thread::Threads;

/// The file of a log that was cut.
const CUT_LOG: &str = "cut-log";

/// The cuts of a row.
#[derive(Clone, Copy, Debug)]
pub struct Cuts<'a> {
    /// The folder of the row.
    pub row: &'a str,
    /// The PageLSN of the page in the store: the store is in `store-` and this number.
    pub page: &'a str,
    /// The size of the shortest log.
    pub first: usize,
    /// The size of the longest log.
    pub last: usize,
    /// Whether the row began over a base store, which is in `base`.
    pub over_base: bool,
}

/// What does not change from cut to cut.
#[derive(Drop)]
struct Whole {
    /// The row's new log.
    log: Vec<u8>,
    /// The lines with which each report ends: the pages, and what is in doubt.
    last_lines: Vec<u8>,
    /// The file of the base store, if the row began over one.
    base: Option<String>,
}

/// An audit of the cut log and this store, over the base store if there is one.
fn audit_cut<R: Files<File = File> + Clock + AllocGlobal + Threads + Sync>(
    rt: &R,
    whole: &Whole,
    store: &str,
) -> Printed {
    match &whole.base {
        None => audit(rt, CUT_LOG, store),
        Some(base) => audit_over(rt, CUT_LOG, store, base.as_str()),
    }
}

/// Whether an audit of the cut log and this store finds them lawful, and a restart on them reports
/// the last lines of the whole and makes the row's files.
fn of_cut<R: Files<File = File> + Clock + AllocGlobal + Threads + Sync>(
    rt: &R,
    row: &str,
    whole: &Whole,
    store: &str,
) -> Result<Verdict> {
    let audited = audit_cut(rt, whole, store);
    if audited.status != 0 {
        return Ok(Verdict::AnotherAnswer);
    }
    let printed = recover(rt, CUT_LOG, store, "2", "2");
    let verdict = if printed.status == 0 && printed.out.ends_with(&whole.last_lines) {
        of_new_files(rt, row)?
    } else {
        Verdict::AnotherAnswer
    };
    remove_new_files(rt)?;
    Ok(verdict)
}

/// Whether the log, cut to each of the sizes, leads with this store to the row's files; otherwise
/// the verdict on the shortest cut that does not.
fn of_sizes<R: Files<File = File> + Clock + AllocGlobal + Threads + Sync>(
    rt: &R,
    cuts: &Cuts,
    whole: &Whole,
    store: &str,
) -> Result<Verdict> {
    for size in cuts.first..=cuts.last {
        let bytes = whole.log.get(..size).context("a cut past the log's end")?;
        fs::write(rt, CUT_LOG, bytes)?;
        let verdict = of_cut(rt, cuts.row, whole, store)?;
        if verdict != Verdict::Same {
            return Ok(verdict);
        }
    }
    Ok(Verdict::Same)
}

/// Whether all cuts of the row's new log lead to its files.
pub fn of_cuts<R: Files<File = File> + Clock + AllocGlobal + Threads + Sync>(
    rt: &R,
    cuts: &Cuts,
) -> Result<Verdict> {
    let Cuts { row, page, .. } = cuts;
    let base = if cuts.over_base {
        Some(format!(in rt.alloc(); "{row}/base")?)
    } else {
        None
    };
    let whole = Whole {
        base,
        log: fs::read(rt, format!(in rt.alloc(); "{row}/out-log")?)?,
        last_lines: fs::read(rt, format!(in rt.alloc(); "{row}/last-lines")?)?,
    };
    let store = format!(in rt.alloc(); "{row}/store-{page}")?;
    let verdict = of_sizes(rt, cuts, &whole, store.as_str())?;
    fs::remove_file(rt, CUT_LOG)?;
    Ok(verdict)
}
