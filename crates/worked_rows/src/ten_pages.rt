//! Ten pages, each changed once, and a gate that holds the workers that redo them. So it is known
//! which worker draws which part.

use page::{Fault, Page, Value, encode_page};
use redo::Gate;
use std::alloc::Global;
use std::sync::atomic::{AtomicU64, Ordering};
use wal::{Record, write_frame};

/// The bytes of a log: page p set to "a" in slot 0 by LSN p + 1, for p from 0 to 9, by one
/// transaction, which commits.
pub fn ten_updates(alloc: Global) -> Result<Vec<u8>, Fault> {
    let mut log = Vec::from_slice(alloc, b"ARIESLG1")?;
    for page in 0..10 {
        let logged = Record::Update {
            tx: 1,
            prev: page as u64,
            page,
            slot: 0,
            before: None,
            after: Value::new(b"a"),
        };
        write_frame(&logged, page as u64 + 1, &mut log)?;
    }
    write_frame(&Record::Commit { tx: 1, prev: 10 }, 11, &mut log)?;
    Ok(log)
}

/// The bytes of a store of ten empty pages.
pub fn ten_pages(alloc: Global) -> Result<Vec<u8>, Fault> {
    let mut store = Vec::from_slice(
        alloc,
        b"ARIESPG1\x00\x00\x00\x0a\x00\x00\x00\x00\x00\x00\x00\x00\x00\x00\x00\x00",
    )?;
    for number in 0..10 {
        store.extend_from_slice(&encode_page(&Page::empty(number)))?;
    }
    Ok(store)
}

/// Whether each of ten pages holds "a" in slot 0 by the record of its number.
pub fn are_all_changed(pages: &[Page]) -> bool {
    for (place, page) in pages.iter().enumerate() {
        let is_set = match page.slots[0] {
            Some(value) => value.as_slice() == b"a".as_slice(),
            None => false,
        };
        if page.lsn != place as u64 + 1 || !is_set {
            return false;
        }
    }
    pages.len() == 10
}

/// Holds workers at ten parts: each at its first part until all have come, and then all but worker
/// 1, so that worker 1 draws the others. A worker that is held too long is late.
#[derive(Drop)]
pub struct HeldGate {
    workers: u64,
    entered: AtomicU64,
    late: AtomicU64,
    /// For each entry, in the order in which they came: 100 times the worker, plus the part.
    told: Vec<AtomicU64>,
}

impl HeldGate {
    /// A gate for this number of workers.
    pub fn new(alloc: Global, workers: u64) -> Result<HeldGate, Fault> {
        let mut told = Vec::new(alloc);
        for _ in 0..10 {
            told.push(AtomicU64::new(0))?;
        }
        Ok(HeldGate {
            workers,
            entered: AtomicU64::new(0),
            late: AtomicU64::new(0),
            told,
        })
    }

    /// How often a part was entered.
    pub fn entered(&self) -> u64 {
        self.entered.load(Ordering::SeqCst)
    }

    /// 1 if a worker was held too long, otherwise 0.
    pub fn late(&self) -> u64 {
        self.late.load(Ordering::SeqCst)
    }

    /// The first ten entries, each as 100 times the worker, plus the part.
    pub fn all_told(&self) -> [u64; 10] {
        let mut all = [0; 10];
        for (turn, told) in self.told.iter().enumerate() {
            if turn < 10 {
                all[turn] = told.load(Ordering::SeqCst);
            }
        }
        all
    }

    fn hold(&self, entries: u64) {
        for _ in 0..100_000_000 {
            if self.entered() >= entries {
                return;
            }
        }
        self.late.store(1, Ordering::SeqCst);
    }
}

impl Gate for HeldGate {
    fn enter(&self, worker: u32, part: u32) {
        let turn = self.entered.fetch_add(1, Ordering::SeqCst);
        if let Some(told) = self.told.get(turn as usize) {
            told.store(100 * worker as u64 + part as u64, Ordering::SeqCst);
        }
        self.hold(if worker == 1 { self.workers } else { 10 });
    }
}
