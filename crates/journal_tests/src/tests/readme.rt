//! The code on the journal in README.

use audit::audit;
use checks::check_all;
use journal::{Journal, Refusal};
use page::{Fault, Page, Store, Value, decode_store, encode_page, store_header};
use std::alloc::Global;
use std::test::Fail;
use wal::{LogStart, plain_header, read_log};

/// Commits a value in a slot of a page. Returns the page, which the engine may then write.
fn commit_one(alloc: Global, store: &Store, log: &mut Vec<u8>) -> Result<Page, Refusal> {
    let mut journal = Journal::new(alloc, LogStart::Version1, store)?;
    let tx = journal.begin()?;
    journal.update(tx, 0, 3, Value::new(b"seven"))?; // slot 3 of page 0
    journal.commit(tx)?;
    log.extend_from_slice(journal.frames())?; // in an engine: to the log's file, then sync it
    journal.frames_taken();
    let last = journal.last_lsn();
    journal.log_written(last)?; // now the commit is durable
    journal.page_to_write(0) // refused before that
}

/// Whether a slot holds "seven".
fn is_seven(slot: Option<Value>) -> bool {
    match slot {
        Some(value) => value.as_slice() == b"seven".as_slice(),
        None => false,
    }
}

/// A store of this page.
fn store_of(alloc: Global, page: &Page) -> Result<Store, Fault> {
    let mut bytes = Vec::from_slice(alloc, &store_header(1, 0))?;
    bytes.extend_from_slice(&encode_page(page))?;
    decode_store(alloc, &bytes)
}

#[test]
fn commits_one(rt: HostRuntime) -> Result<(), Fail> {
    let alloc = rt.alloc();
    let store = store_of(alloc, &Page::empty(0))?;
    let mut bytes = Vec::from_slice(alloc, &plain_header())?;
    let Ok(page) = commit_one(alloc, &store, &mut bytes) else {
        return Err(Fail::new("the journal refused an operation"));
    };
    let (log, torn) = read_log(alloc, &bytes)?;
    audit(alloc, &log, &store_of(alloc, &page)?)?;
    check_all(&[
        (log.len() == 2 && torn == 0, "an update and a commit"),
        (page.lsn == 1, "PageLSN"),
        (is_seven(page.slots[3]), "value"),
    ])
}
