//! Recovery over devices in memory, fast and slow.

use crate::verdict::Verdict;
use anyhow::{Context, Result};
use aries::{
    Fault, MemorySink, MemorySource, OpenGate, Options, Report, Sink, Source, recover,
    recovery_alone, report_text,
};
use device::{Pace, SlowSink, SlowSource};
use std::fs;
use std::io::Write;
use std::rt::Files;
use std::thread::Threads;

/// A row: what is read, and what is made of it.
#[derive(Drop)]
struct Row {
    log: Vec<u8>,
    store: Vec<u8>,
    /// The report, or the line of a fault.
    printed: Vec<u8>,
    /// The new log; nothing after a fault.
    new_log: Vec<u8>,
    /// The new store; nothing after a fault.
    new_store: Vec<u8>,
}

/// The bytes of a row's file.
pub fn file_of<R: Files + AllocGlobal>(rt: &R, row: &str, file: &str) -> Result<Vec<u8>> {
    let path = format!(in rt.alloc(); "{row}/{file}")?;
    let bytes = fs::read(rt, path.as_str()).context(format_args!("reading {row}/{file}"))?;
    Ok(bytes)
}

impl Row {
    fn read<R: Files + AllocGlobal>(rt: &R, row: &str) -> Result<Row> {
        let printed = file_of(rt, row, "printed")?;
        let (new_log, new_store) = if printed.starts_with(b"fault ") {
            (Vec::new(rt.alloc()), Vec::new(rt.alloc()))
        } else {
            (file_of(rt, row, "out-log")?, file_of(rt, row, "out-store")?)
        };
        Ok(Row {
            log: file_of(rt, row, "log")?,
            store: file_of(rt, row, "store")?,
            printed,
            new_log,
            new_store,
        })
    }

    /// Whether a result, and what the sinks took, are the row's.
    fn verdict_on<R: AllocGlobal>(
        &self,
        rt: &R,
        answer: Result<Report, Fault>,
        log: &[u8],
        store: &[u8],
    ) -> Result<Verdict> {
        if matches!(answer, Err(Fault::NoResource)) && log.is_empty() && store.is_empty() {
            return Ok(Verdict::NoResource);
        }
        if printed_of(rt, answer)? != self.printed {
            return Ok(Verdict::AnotherAnswer);
        }
        if log != self.new_log.as_slice() {
            return Ok(Verdict::AnotherLog);
        }
        if store != self.new_store.as_slice() {
            return Ok(Verdict::AnotherStore);
        }
        Ok(Verdict::Same)
    }
}

/// What the program prints for a result.
fn printed_of<R: AllocGlobal>(rt: &R, answer: Result<Report, Fault>) -> Result<Vec<u8>> {
    match answer {
        Ok(report) => Ok(report_text(rt.alloc(), &report)?),
        Err(fault) => {
            let mut line = Vec::new(rt.alloc());
            writeln!(line, "fault {}: {fault}", fault.number())?;
            Ok(line)
        }
    }
}

/// Whether a recovery of a row without threads does what the row says.
fn of_recovery_alone<R: AllocGlobal>(rt: &R, row: &Row) -> Result<Verdict> {
    let store = Vec::from_slice(rt.alloc(), &row.store)?;
    match recovery_alone(rt.alloc(), &row.log, store) {
        Err(fault) => row.verdict_on(rt, Err(fault), &[], &[]),
        Ok(recovery) => {
            let mut log = Vec::from_slice(rt.alloc(), recovery.kept)?;
            log.extend_from_slice(&recovery.frames)?;
            row.verdict_on(rt, Ok(recovery.report), &log, &recovery.store)
        }
    }
}

/// The result of a recovery over devices.
fn recovered<LR: Source, SR: Source, LW: Sink, SW: Sink, R: AllocGlobal + Threads + Sync>(
    rt: &R,
    log: &mut LR,
    store: &mut SR,
    out_log: &mut LW,
    out_store: &mut SW,
    options: &Options,
) -> Result<Report, Fault> {
    recover(
        rt,
        rt.alloc(),
        log,
        store,
        out_log,
        out_store,
        options,
        &OpenGate,
    )
}

/// Whether a recovery of a row over memory, and one without threads, do what the row says.
pub fn of_recovery<R: Files + AllocGlobal + Threads + Sync>(
    rt: &R,
    row: &str,
    options: &Options,
) -> Result<Verdict> {
    let row = Row::read(rt, row)?;
    let mut out_log = MemorySink::new(rt.alloc());
    let mut out_store = MemorySink::new(rt.alloc());
    let answer = recovered(
        rt,
        &mut MemorySource::new(&row.log),
        &mut MemorySource::new(&row.store),
        &mut out_log,
        &mut out_store,
        options,
    );
    let verdict = row.verdict_on(rt, answer, out_log.bytes(), out_store.bytes())?;
    if verdict != Verdict::Same {
        return Ok(verdict);
    }
    of_recovery_alone(rt, &row)
}

/// How many bytes a slow device passes a call.
const STEP: usize = 7;

/// Whether a recovery of a row over slow devices does what the row says. The sinks have their room
/// before it starts.
pub fn of_slow_recovery<R: Files + AllocGlobal + Threads + Sync>(
    rt: &R,
    row: &str,
    options: &Options,
) -> Result<Verdict> {
    let row = Row::read(rt, row)?;
    let pace = Pace::of_step(STEP);
    let mut out_log = SlowSink::new(rt.alloc(), row.new_log.len(), pace)?;
    let mut out_store = SlowSink::new(rt.alloc(), row.new_store.len(), pace)?;
    let answer = recovered(
        rt,
        &mut SlowSource::new(&row.log, pace),
        &mut SlowSource::new(&row.store, pace),
        &mut out_log,
        &mut out_store,
        options,
    );
    row.verdict_on(rt, answer, out_log.bytes(), out_store.bytes())
}
