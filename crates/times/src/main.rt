//! What `bench/audit.py` and `bench/journal.py` time: audits of a log of short transactions, and an
//! engine at work with the journal.
//!
//! usage: times audit TRANSACTIONS NUMBERING AUDITS, times journal UPDATES PENDING, or times alone
//!
//! `audit` makes a log of this many transactions and audits it this often. Their numbers are in
//! order (0), multiples of one number (1), or at random (2). `journal` makes this many updates in
//! transactions that work in turn, while this many of one more transaction are pending. With no
//! word the program does a little of both.
#![tactic(auto)]

mod audits;
mod store;
mod updates;

use anyhow::{Context, Error, Result};
use std::rt::Env;
use words::{slices_of, words_of};

/// The number in this place of the words.
fn number_of(slices: &[&str], place: usize) -> Result<u32> {
    let word = slices.get(place).context("a number is missing")?;
    word.parse::<u32>().context("a number is expected")
}

/// Makes a log and audits it, and prints how many bytes it has.
fn time_audits<R: Print + AllocGlobal>(
    rt: &R,
    transactions: u32,
    numbering: u32,
    count: u32,
) -> Result<()> {
    let bytes = audits::log_of(rt.alloc(), transactions, numbering)?;
    for _ in 0..count {
        audits::audited(rt.alloc(), &bytes)?;
    }
    let length = bytes.len();
    println!(rt; "audit {transactions} {numbering} {count}: {length} bytes")?;
    Ok(())
}

/// Works with a journal, and prints how many bytes of frames and how many records the log has.
fn time_updates<R: Print + AllocGlobal>(rt: &R, updates: u32, pending: u32) -> Result<()> {
    let (bytes, last) = updates::done(rt.alloc(), updates as usize, pending as usize)?;
    println!(rt; "journal {updates} {pending}: {bytes} bytes, {last} records")?;
    Ok(())
}

/// Does what the words ask for.
fn run<R: Print + Env + AllocGlobal>(rt: &R) -> Result<()> {
    let words = words_of(rt).map_err(|_| Error::msg("no words"))?;
    let slices = slices_of(rt.alloc(), &words).map_err(|_| Error::msg("no words"))?;
    match slices.get(1) {
        None => {
            time_audits(rt, 8192, 2, 1)?;
            time_updates(rt, 8192, 1024)
        }
        Some(&"audit") => time_audits(
            rt,
            number_of(&slices, 2)?,
            number_of(&slices, 3)?,
            number_of(&slices, 4)?,
        ),
        Some(&"journal") => time_updates(rt, number_of(&slices, 2)?, number_of(&slices, 3)?),
        Some(_) => Err(Error::msg("audit or journal is expected")),
    }
}

fn main(rt: HostRuntime) -> Result<()> {
    run(&rt)
}
