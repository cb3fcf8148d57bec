//! How a journal is opened.

ghost use Rattle.std.specs.Prelude.{◌≡◌, ◌≢◌, IfOk, IfErr, OnErr};
ghost use Rattle.wal.specs.Headers.{FitsStart};
ghost use Rattle.aries_c.specs.Fault.{OnDone, OnFailed, not_writable};
ghost use Rattle.aries_c.specs.LogHeader.{NamesStart};
ghost use Rattle.aries_c.specs.Journaling.{IsNewJournal, NamesNoStart, NewFails, ContinuesLog, OpenFails, FailsToOpen};

use crate::Fault;
use journal::{Head, PageEntry, PendingEntry, TransactionEntry};
use page::decode_store;
use std::alloc::Global;
use wal::{LARGEST_BASE, LogStart, read_log};

/// How the log with this version and this base LSN begins.
fn start_named(version: u32, base_lsn: u64) -> Result<LogStart, Fault>
    ensures named { IfOk result (NamesStart version base_lsn) }
    ensures fits { IfOk result FitsStart }
    ensures err { IfErr result (λ e. e ≡ not_writable) }
    ensures none { OnErr result (NamesNoStart version base_lsn) }
{
    if version == 1 && base_lsn == 0 {
        return Ok(LogStart::Version1);
    }
    if version == 2 && base_lsn <= LARGEST_BASE {
        return Ok(LogStart::Version2 { base: base_lsn });
    }
    Err(Fault::not_writable())
}

/// The journal of a new log over the pages of the store in these bytes.
fn new_in(
    alloc: Global,
    version: u32,
    base_lsn: u64,
    store: &[u8],
    pages: &mut [PageEntry],
) -> Result<Head, Fault>
    ensures new { IfOk result (λ head. IsNewJournal version base_lsn store.now head pages.new) }
    ensures kept { OnErr result (pages.new ≡ pages.old) }
    ensures fails { IfErr result (NewFails version base_lsn store.now pages.old) }
    ensures number { IfErr result (λ e. e.number ≢ 0) }
{
    let begins = start_named(version, base_lsn)?;
    let store = decode_store(alloc, store)?;
    let head = journal::new(begins, &store, pages)?;
    Ok(head)
}

/// Opens the journal of a new log over the pages of a store, as [`journal::new`] does. 65: no log
/// has this version and this base LSN; 10 to 12: the bytes are not a store; 1: memory was refused.
/// Unless the number is 0 `journal` and `pages` are as before.
#[unsafe(no_mangle)]
pub extern "C" fn aries_journal_new(
    alloc: Global,
    version: u32,
    base_lsn: u64,
    store: &[u8],
    journal: &mut Head,
    pages: &mut [PageEntry],
) -> Fault
    ensures new { OnDone result
        (IsNewJournal version base_lsn store.now journal.new pages.new) }
    ensures journal { OnFailed result (journal.new ≡ journal.old) }
    ensures pages { OnFailed result (pages.new ≡ pages.old) }
    ensures fails { OnFailed result (NewFails version base_lsn store.now pages.old result) }
{
    match new_in(alloc, version, base_lsn, store, pages) {
        Ok(head) => {
            *journal = head;
            Fault::none()
        }
        Err(fault) => fault,
    }
}

/// The journal that continues the log in these bytes, over the store in these bytes.
fn open_in(
    alloc: Global,
    log: &[u8],
    store: &[u8],
    transactions: &mut [TransactionEntry],
    pages: &mut [PageEntry],
    pending: &mut [PendingEntry],
) -> Result<Head, Fault>
    ensures open { IfOk result (ContinuesLog log.now store.now
        transactions.new pages.new pending.new) }
    ensures fails { IfErr result (OpenFails log.now store.now transactions.old pages.old pending.old) }
    ensures number { IfErr result (λ e. e.number ≢ 0) }
{
    let (log, torn) = read_log(alloc, log)?;
    if torn != 0 {
        return Err(Fault::not_writable());
    }
    let store = decode_store(alloc, store)?;
    let head = journal::open(&log, &store, transactions, pages, pending)?;
    Ok(head)
}

/// Opens the journal that continues a log, as [`journal::open`] does. 6 to 9: the bytes are not a
/// log; 65: it has a torn tail; 10 to 12: the bytes are not a store; 1: memory was refused. Unless
/// the number is 0 `journal` is as before, and the arrays must not be used.
#[unsafe(no_mangle)]
pub extern "C" fn aries_journal_open(
    alloc: Global,
    log: &[u8],
    store: &[u8],
    journal: &mut Head,
    transactions: &mut [TransactionEntry],
    pages: &mut [PageEntry],
    pending: &mut [PendingEntry],
) -> Fault
    ensures continues { OnDone result (ContinuesLog log.now store.now
        transactions.new pages.new pending.new journal.new) }
    ensures journal { OnFailed result (journal.new ≡ journal.old) }
    ensures fails { FailsToOpen log.now store.now transactions.old pages.old pending.old result }
{
    match open_in(alloc, log, store, transactions, pages, pending) {
        Ok(head) => {
            *journal = head;
            Fault::none()
        }
        Err(fault) => fault,
    }
}
