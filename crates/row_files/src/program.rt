//! Runs of the program `aries`.

use anyhow::Result;
use std::fs::{self, File};
use std::rt::{Clock, Files};
use std::thread::Threads;

/// Where a restart writes the new log.
pub const NEW_LOG: &str = "new-log";

/// Where a restart writes the new store.
pub const NEW_STORE: &str = "new-store";

/// What a run of the program leaves behind, besides files.
#[derive(Drop)]
pub struct Printed {
    pub status: u8,
    pub out: Vec<u8>,
    pub err: Vec<u8>,
}

/// Runs the program with these words.
fn run<R: Files<File = File> + Clock + AllocGlobal + Threads + Sync>(
    rt: &R,
    words: &[&str],
) -> Printed {
    let mut out = Vec::new(rt.alloc());
    let mut err = Vec::new(rt.alloc());
    let status = aries::run(rt, rt.alloc(), words, &mut out, &mut err);
    Printed { status, out, err }
}

/// Restarts on a log and a store, into `NEW_LOG` and `NEW_STORE`.
pub fn recover<R: Files<File = File> + Clock + AllocGlobal + Threads + Sync>(
    rt: &R,
    log: &str,
    store: &str,
    workers: &str,
    parts: &str,
) -> Printed {
    let words = [
        "aries",
        "recover",
        "--log",
        log,
        "--store",
        store,
        "--out-log",
        NEW_LOG,
        "--out-store",
        NEW_STORE,
        "--workers",
        workers,
        "--parts",
        parts,
    ];
    run(rt, &words)
}

/// Removes the files that a restart made.
pub fn remove_new_files<R: Files>(rt: &R) -> Result<()> {
    fs::remove_file(rt, NEW_LOG)?;
    fs::remove_file(rt, NEW_STORE)?;
    Ok(())
}

/// Audits a log and a store.
pub fn audit<R: Files<File = File> + Clock + AllocGlobal + Threads + Sync>(
    rt: &R,
    log: &str,
    store: &str,
) -> Printed {
    run(rt, &["aries", "audit", "--log", log, "--store", store])
}

/// Audits a log and a store over a base store.
pub fn audit_over<R: Files<File = File> + Clock + AllocGlobal + Threads + Sync>(
    rt: &R,
    log: &str,
    store: &str,
    base: &str,
) -> Printed {
    let words = [
        "aries", "audit", "--log", log, "--store", store, "--base", base,
    ];
    run(rt, &words)
}
