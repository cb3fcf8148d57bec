//! The gate, seen through a whole recovery: it hears which of two workers draws which part.

use crate::in_memory::recover_in_memory;
use aries::Options;
use checks::{check, check_all};
use page::{Fault, Page, decode_store, encode_page};
use redo::{Gate, OpenGate};
use std::alloc::Global;
use std::sync::atomic::{AtomicU64, Ordering};
use std::test::Fail;
use std::thread::Threads;
use worked_rows::ten_pages::{HeldGate, are_all_changed, ten_pages, ten_updates};

/// What a recovery of ten updates finds.
#[derive(Clone, Copy)]
struct Found {
    are_changed: bool,
    redo_from: u64,
    redone: u64,
}

/// Recovers ten pages through a gate.
fn recover_ten<G: Gate, R: Threads + Sync>(
    rt: &R,
    alloc: Global,
    workers: u32,
    parts: u32,
    gate: &G,
) -> Result<Found, Fault> {
    let log = ten_updates(alloc)?;
    let store = ten_pages(alloc)?;
    let options = Options { workers, parts };
    let (_, new_store, report) = recover_in_memory(rt, alloc, &log, &store, &options, gate)?;
    let after = decode_store(alloc, &new_store)?;
    Ok(Found {
        are_changed: are_all_changed(&after.pages),
        redo_from: report.redo_from,
        redone: report.redone,
    })
}

/// Whether one of the first two entries is this.
fn is_first(told: &[u64; 10], entry: u64) -> bool {
    told[0] == entry || told[1] == entry
}

/// The parts that worker 1 draws after its first one.
const OTHERS: [u64; 8] = [106, 107, 108, 109, 101, 102, 103, 104];

/// Whether the others follow the first two entries, in their order.
fn are_others_behind(told: &[u64; 10]) -> bool {
    told[2..] == OTHERS[..]
}

#[test]
fn the_gate_hears_who_draws_what(rt: HostRuntime) -> Result<(), Fail> {
    let gate = HeldGate::new(rt.alloc(), 2)?;
    let found = recover_ten(&rt, rt.alloc(), 2, 10, &gate)?;
    let told = gate.all_told();
    check_all(&[
        (found.are_changed, "pages"),
        (found.redo_from == 1 && found.redone == 10, "what is redone"),
        (gate.late() == 0, "late"),
        (gate.entered() == 10, "entered"),
        (is_first(&told, 0), "no first part as 0"),
        (is_first(&told, 105), "no first part as 105"),
        (are_others_behind(&told), "the other parts"),
    ])
}

/// Counts the workers that enter.
#[derive(Drop)]
struct CountingGate {
    entered: AtomicU64,
}

impl Gate for CountingGate {
    fn enter(&self, _worker: u32, _part: u32) {
        self.entered.fetch_add(1, Ordering::SeqCst);
    }
}

/// Whether three workers enter each of this number of parts.
fn are_entered<R: Threads + Sync>(rt: &R, alloc: Global, parts: u32) -> Result<bool, Fault> {
    let gate = CountingGate {
        entered: AtomicU64::new(0),
    };
    recover_ten(rt, alloc, 3, parts, &gate)?;
    Ok(gate.entered.load(Ordering::SeqCst) == parts as u64)
}

#[test]
fn the_gate_hears_of_each_part(rt: HostRuntime) -> Result<(), Fail> {
    let alloc = rt.alloc();
    check_all(&[
        (are_entered(&rt, alloc, 1)?, "1 part"),
        (are_entered(&rt, alloc, 12)?, "12 parts"),
        (are_entered(&rt, alloc, 4096)?, "4096 parts"),
    ])
}

/// Notes how often any part is entered, and which parts below 64 worker 0 enters.
#[derive(Drop)]
struct NotingGate {
    entered: AtomicU64,
    parts: AtomicU64,
}

impl NotingGate {
    /// No part is entered yet.
    fn new() -> NotingGate {
        NotingGate {
            entered: AtomicU64::new(0),
            parts: AtomicU64::new(0),
        }
    }

    /// Whether worker 0 entered these parts, a bit each, and each once, and no other part was
    /// entered.
    fn has_noted(&self, parts: u64) -> bool {
        self.parts.load(Ordering::SeqCst) == parts
            && self.entered.load(Ordering::SeqCst) == parts.count_ones() as u64
    }
}

impl Gate for NotingGate {
    fn enter(&self, worker: u32, part: u32) {
        self.entered.fetch_add(1, Ordering::SeqCst);
        if worker == 0 && part < 64 {
            self.parts.fetch_or(1 << part, Ordering::SeqCst);
        }
    }
}

#[test]
fn one_worker_enters_each_part_once(rt: HostRuntime) -> Result<(), Fail> {
    for (name, parts, bits) in [
        ("1 part", 1, 1),
        ("3 parts", 3, 7),
        ("10 parts", 10, 1023),
        ("20 parts", 20, 1_048_575),
    ] {
        let gate = NotingGate::new();
        let found = recover_ten(&rt, rt.alloc(), 1, parts, &gate)?;
        check(found.are_changed && gate.has_noted(bits), name)?;
    }
    Ok(())
}

/// A store that lacks the last of the pages of ten updates.
fn nine_pages(alloc: Global) -> Result<Vec<u8>, Fault> {
    let mut store = Vec::from_slice(
        alloc,
        b"ARIESPG1\x00\x00\x00\x09\x00\x00\x00\x00\x00\x00\x00\x00\x00\x00\x00\x00",
    )?;
    for number in 0..9 {
        store.extend_from_slice(&encode_page(&Page::empty(number)))?;
    }
    Ok(store)
}

/// The fault of a recovery of ten updates with nine pages.
fn fault_of_nine<G: Gate, R: Threads + Sync>(
    rt: &R,
    alloc: Global,
    gate: &G,
) -> Result<Option<Fault>, Fault> {
    let log = ten_updates(alloc)?;
    let store = nine_pages(alloc)?;
    let options = Options {
        workers: 1,
        parts: 10,
    };
    match recover_in_memory(rt, alloc, &log, &store, &options, gate) {
        Ok(_) => Ok(None),
        Err(fault) => Ok(Some(fault)),
    }
}

#[test]
fn one_worker_enters_no_part_where_a_page_is_missing(rt: HostRuntime) -> Result<(), Fail> {
    let gate = NotingGate::new();
    let fault = fault_of_nine(&rt, rt.alloc(), &gate)?;
    check(fault == Some(Fault::NoSuchPage(10)), "the fault")?;
    check(gate.has_noted(0), "the parts")
}

/// Workers and parts.
const OPTIONS: [(&str, u32, u32); 9] = [
    ("1 workers, 1 parts", 1, 1),
    ("1 workers, 10 parts", 1, 10),
    ("1 workers, 4096 parts", 1, 4096),
    ("2 workers, 1 parts", 2, 1),
    ("2 workers, 10 parts", 2, 10),
    ("2 workers, 4096 parts", 2, 4096),
    ("64 workers, 1 parts", 64, 1),
    ("64 workers, 10 parts", 64, 10),
    ("64 workers, 4096 parts", 64, 4096),
];

#[test]
fn any_options_give_the_same(rt: HostRuntime) -> Result<(), Fail> {
    for (name, workers, parts) in OPTIONS {
        let found = recover_ten(&rt, rt.alloc(), workers, parts, &OpenGate)?;
        check(found.are_changed, name)?;
    }
    Ok(())
}
