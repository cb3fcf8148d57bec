//! Restarts of a row on values: with the log in memory, and with the log in pieces and the pages or
//! only their changes in memory. All have the same result.

ghost use Rattle.undo.specs.Appended.{HaveUpdates};

use super::with_appended;
use changes::Pages;
use device::MemorySource;
use page::{Fault, Page, Store, decode_store, encode_store};
use passes::{PassFault, Restarted, restart_in_pieces};
use redo::{OpenGate, Parting};
use restart::{Outcome, restart};
use std::alloc::Global;
use std::thread::Threads;
use undo::{Looked, Place, records_of};
use wal::{BASED_HEADER_BYTES, LONGEST_FRAME, Record, read_log};
use worked_rows::held::{Held, change_all, no_changes};
use worked_rows::written::{Row, Text, page_with, store_of};

/// The numbers that a restart reports.
#[derive(Clone, Copy, PartialEq, Eq)]
pub struct Numbers {
    pub redo_from: u64,
    pub redone: u64,
    pub losers: u64,
    pub compensated: u64,
    pub ended: u64,
}

/// What a restart makes of a log and a store of one page.
#[derive(Drop)]
struct Answer {
    /// The log with what is appended.
    log: Vec<u8>,
    store: Vec<u8>,
    numbers: Numbers,
    in_doubt: Vec<u32>,
}

/// What a restart must make of a row and an empty page.
#[derive(Clone, Copy)]
pub struct Expected<'a> {
    /// The page, under the same master.
    pub page: Page,
    pub numbers: Numbers,
    pub in_doubt: &'a [u32],
}

/// How a restart is run: the pages of its store, and its workers.
#[derive(Clone, Copy)]
pub struct Manner {
    pub pages: u32,
    pub workers: u32,
}

/// How a restart is run that succeeds.
pub const GOOD: Manner = Manner {
    pages: 1,
    workers: 2,
};

/// A restart on a log and a store, of three parts.
pub fn outcome_of<R: Threads + Sync>(
    rt: &R,
    alloc: Global,
    log: &[u8],
    store: &Store,
    manner: Manner,
) -> Result<Outcome, Fault> {
    let (log, _) = read_log(alloc, log)?;
    let parting = Parting::by_number(alloc, manner.pages, 3)?;
    restart(rt, alloc, &log, store, &parting, manner.workers, &OpenGate)
}

/// Restarts on a log and the bytes of a store.
fn restarted<R: Threads + Sync>(
    rt: &R,
    alloc: Global,
    text: &Text,
    store: &[u8],
    manner: Manner,
) -> Result<Answer, Fault> {
    let before = decode_store(alloc, store)?;
    let outcome = outcome_of(rt, alloc, &text.bytes, &before, manner)?;
    answer_of(alloc, text, outcome)
}

/// The result of an outcome, with the log and the store that it makes.
fn answer_of(alloc: Global, text: &Text, outcome: Outcome) -> Result<Answer, Fault> {
    Ok(Answer {
        log: with_appended(text, &outcome.appended)?,
        store: encode_store(alloc, &outcome.store)?,
        numbers: Numbers {
            redo_from: outcome.redo_from,
            redone: outcome.redone,
            losers: outcome.losers,
            compensated: outcome.compensated,
            ended: outcome.ended,
        },
        in_doubt: outcome.in_doubt,
    })
}

/// What a restart makes besides the pages.
#[derive(Drop)]
pub struct Besides {
    pub appended: Vec<Record>,
    pub numbers: Numbers,
    pub in_doubt: Vec<u32>,
}

/// A restart on a log that is read in pieces, and on the pages of a store with this master.
fn restart_on<R: Threads + Sync, P: Pages>(
    rt: &R,
    alloc: Global,
    log: &[u8],
    master: u64,
    pages: &mut P,
) -> Result<Besides, Fault> {
    let mut room = vec![in alloc; 0; BASED_HEADER_BYTES + LONGEST_FRAME]?;
    let mut source = MemorySource::new(log);
    let workers = GOOD.workers;
    let restarted = match restart_in_pieces(
        rt,
        alloc,
        &mut source,
        &mut room,
        workers,
        master,
        pages,
    ) {
        Ok(restarted) => restarted,
        Err(PassFault::Fault(fault)) => return Err(fault),
        Err(PassFault::Failed) => return Err(Fault::ReadLog),
    };
    in_full(alloc, restarted)
}

/// What a restart in pieces makes, with the records to append in full.
fn in_full(alloc: Global, restarted: Restarted) -> Result<Besides, Fault>
    requires { HaveUpdates restarted.gathered restarted.outcome.appended.items }
{
    let Restarted {
        kept: _,
        torn: _,
        gathered,
        redo_from,
        redone,
        outcome,
    } = restarted;
    let looked = Looked {
        place: Place::Gathered(&gathered),
    };
    let appended = records_of(alloc, &looked, &outcome.appended)?;
    Ok(Besides {
        appended,
        numbers: Numbers {
            redo_from,
            redone,
            losers: outcome.losers,
            compensated: outcome.compensated,
            ended: outcome.ended,
        },
        in_doubt: outcome.in_doubt,
    })
}

/// The pages that a restart in pieces makes of those of a store, and what it makes besides.
pub fn by_pieces<R: Threads + Sync>(
    rt: &R,
    alloc: Global,
    log: &[u8],
    store: Store,
    held: Held,
) -> Result<(Vec<Page>, Besides), Fault> {
    let master = store.master;
    let mut pages = store.pages;
    let besides = match held {
        Held::Pages => restart_on(rt, alloc, log, master, &mut pages)?,
        Held::Changes => {
            let mut changes = no_changes(alloc, &pages)?;
            let besides = restart_on(rt, alloc, log, master, &mut changes)?;
            change_all(&changes, &mut pages);
            besides
        }
    };
    Ok((pages, besides))
}

/// The bytes of a store of one page with this master.
fn store_with(alloc: Global, master: u64, pages: &[Page]) -> Result<Vec<u8>, Fault> {
    match pages {
        [page] => store_of(alloc, master, page),
        _ => Err(Fault::StoreSize),
    }
}

/// Restarts on a log that is read in pieces, and on the bytes of a store of one page.
fn restarted_by_pieces<R: Threads + Sync>(
    rt: &R,
    alloc: Global,
    text: &Text,
    store: &[u8],
    held: Held,
) -> Result<Answer, Fault> {
    let before = decode_store(alloc, store)?;
    let master = before.master;
    let (pages, besides) = by_pieces(rt, alloc, &text.bytes, before, held)?;
    Ok(Answer {
        log: with_appended(text, &besides.appended)?,
        store: store_with(alloc, master, &pages)?,
        numbers: besides.numbers,
        in_doubt: besides.in_doubt,
    })
}

/// Whether a result is the row's new log, and what is expected.
fn is_expected(answer: &Answer, row: &Row, after: &[u8], expected: &Expected) -> bool {
    answer.log.as_slice() == row.made.bytes.as_slice()
        && answer.store.as_slice() == after
        && answer.numbers == expected.numbers
        && answer.in_doubt.as_slice() == expected.in_doubt
}

/// Whether a restart of a row on this page makes the row's new log, and what is expected: with the
/// log in memory, and with the log in pieces, where the page is in memory or only its changes are.
pub fn is_restarted_on<R: Threads + Sync>(
    rt: &R,
    alloc: Global,
    row: &Row,
    master: u64,
    page: &Page,
    expected: &Expected,
) -> Result<bool, Fault> {
    let before = store_of(alloc, master, page)?;
    let after = store_of(alloc, master, &expected.page)?;
    let answer = restarted(rt, alloc, &row.given, &before, GOOD)?;
    let by_pieces = restarted_by_pieces(rt, alloc, &row.given, &before, Held::Pages)?;
    let on_changes = restarted_by_pieces(rt, alloc, &row.given, &before, Held::Changes)?;
    Ok(
        is_expected(&answer, row, &after, expected)
            && is_expected(&by_pieces, row, &after, expected)
            && is_expected(&on_changes, row, &after, expected),
    )
}

/// [`is_restarted_on`] an empty page.
pub fn is_restarted<R: Threads + Sync>(
    rt: &R,
    alloc: Global,
    row: &Row,
    master: u64,
    expected: &Expected,
) -> Result<bool, Fault> {
    is_restarted_on(rt, alloc, row, master, &Page::empty(0), expected)
}

/// What a restart must make of a row whose transactions are all losers: the page with this PageLSN
/// and nothing in slots 0 and 1.
pub fn rolled_back(lsn: u64, [redone, losers, compensated, ended]: [u64; 4]) -> Expected<'static> {
    Expected {
        page: page_with(lsn, None, None),
        numbers: Numbers {
            redo_from: 1,
            redone,
            losers,
            compensated,
            ended,
        },
        in_doubt: &[],
    }
}

/// The fault of a restart on an empty page with this PageLSN. `None` if a log that is read in
/// pieces has another; that way has no settings.
pub fn refused<R: Threads + Sync>(
    rt: &R,
    alloc: Global,
    text: &Text,
    master: u64,
    lsn: u64,
    manner: Manner,
) -> Option<Fault> {
    let page = page_with(lsn, None, None);
    let store = match store_of(alloc, master, &page) {
        Ok(store) => store,
        Err(fault) => return Some(fault),
    };
    let refusal = restarted(rt, alloc, text, &store, manner).err();
    if matches!(refusal, Some(Fault::BadWorkers | Fault::BadParting)) {
        return refusal;
    }
    let by_pieces = restarted_by_pieces(rt, alloc, text, &store, Held::Pages).err();
    let on_changes = restarted_by_pieces(rt, alloc, text, &store, Held::Changes).err();
    if by_pieces == refusal && on_changes == refusal {
        refusal
    } else {
        None
    }
}
