//! Recovery in memory, as an engine would embed it; and for the tests.

use aries::{Fault, Gate, MemorySink, MemorySource, Options, Report, recover};
use std::alloc::Global;
use std::thread::Threads;

/// Recovers from bytes to bytes: the new log, the new store and the report.
pub fn recover_in_memory<G: Gate, R: Threads + Sync>(
    rt: &R,
    alloc: Global,
    log: &[u8],
    store: &[u8],
    options: &Options,
    gate: &G,
) -> Result<(Vec<u8>, Vec<u8>, Report), Fault> {
    let mut log_source = MemorySource::new(log);
    let mut store_source = MemorySource::new(store);
    let mut out_log = MemorySink::new(alloc);
    let mut out_store = MemorySink::new(alloc);
    let report = recover(
        rt,
        alloc,
        &mut log_source,
        &mut store_source,
        &mut out_log,
        &mut out_store,
        options,
        gate,
    )?;
    let new_log = Vec::from_slice(alloc, out_log.bytes())?;
    let new_store = Vec::from_slice(alloc, out_store.bytes())?;
    Ok((new_log, new_store, report))
}
