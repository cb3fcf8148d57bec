//! The third round: the pages of the store, with the values of the records that they lacked.

ghost use Rattle.std.specs.Prelude.{◌≡◌, ℕ, None, ◌<◌, ◌^◌, length, slice_index_or};
ghost use Rattle.std.specs.List.{sum_by};
ghost use Rattle.page.specs.declared.page.Page.{Page};
ghost use Rattle.log_laws.specs.Records.{history, record_at};
ghost use Rattle.redo.specs.Changes.{slots_after, finished_page};
ghost use Rattle.redo.specs.declared.tally.Tally.{Tally};
ghost use Rattle.page.specs.declared.profile.TheConstants.{SLOTS};

use crate::tally::Tally;
use page::{Page, SLOTS, Value};
use std::thread::Threads;
use std::{array, thread};
use wal::{Body, Log};

/// The bodies of the records at these LSNs, none for an LSN of 0. All are found before the first is
/// looked at. They can be anywhere in the log, so the processor waits for all of them together.
fn bodies<'a>(log: &Log<'a>, lasts: &[u64; SLOTS]) -> [Body<'a>; SLOTS]
    ensures count { length result ≡ SLOTS }
    ensures each { (slot : ℕ) → slot < SLOTS → slice_index_or result slot None
        ≡ record_at (history log.now) (slice_index_or lasts.now slot 0) }
{
    let mut bodies: [Body; SLOTS] = array::from_fn(|_| log.body(0));
    for slot in 0..SLOTS {
        bodies[slot] = log.body(lasts[slot]);
    }
    bodies
}

/// Puts the values of the last records into their slots. An LSN of 0 says that a slot has no such
/// record; the slot stays as it is.
fn fill(log: &Log, lasts: &[u64; SLOTS], slots: &mut [Option<Value>; SLOTS])
    ensures { slots.new ≡ slots_after (history log.now) lasts.now slots.old }
{
    let bodies = bodies(log, lasts);
    for slot in 0..SLOTS {
        if lasts[slot] != 0 {
            slots[slot] = bodies[slot].image();
        }
    }
}

/// Changes a page's image in the store to the page that a tally describes. For each slot, only the
/// value of the last record is fetched.
fn finish_page(log: &Log, tally: &Tally, page: &mut Page)
    ensures { page.new ≡ finished_page (history log.now) tally.now page.old }
{
    page.number = tally.number;
    page.lsn = tally.lsn;
    fill(log, &tally.lasts, &mut page.slots);
}

/// Changes the pages of the store to those that their tallies describe, in the thread of the
/// caller.
pub fn finish_alone(log: &Log, tallies: &[Tally], pages: &mut [Page])
    requires count { length tallies.now ≡ length pages.old }
    ensures count { length pages.new ≡ length pages.old }
    ensures each { (number : ℕ) (t : Tally) (image : Page) → number < length pages.old
        → slice_index_or pages.new number image ≡ finished_page
        (history log.now) (slice_index_or tallies.now number t) (slice_index_or pages.old number image) }
{
    for number in 0..pages.len() {
        finish_page(log, &tallies[number], &mut pages[number]);
    }
}

/// Changes the pages of the store to those that their tallies describe, in this number of threads.
pub fn finish_pages<R: Threads + Sync>(
    rt: &R,
    log: &Log,
    tallies: &[Tally],
    pages: &mut [Page],
    threads: usize,
)
    requires count { length tallies.now ≡ length pages.old }
    requires threads { 0 < threads }
    ensures count { length pages.new ≡ length pages.old }
    ensures each { (number : ℕ) (t : Tally) (image : Page) → number < length pages.old
        → slice_index_or pages.new number image ≡ finished_page
        (history log.now) (slice_index_or tallies.now number t) (slice_index_or pages.old number image) }
{
    let finish = |number: usize, page: &mut Page|
        requires { number < length tallies.now }
        ensures { (t : Tally) → page.exit.now ≡ finished_page (history log.entry.now)
            (slice_index_or tallies.entry.now number t) page.entry.now }
    { finish_page(log, &tallies[number], page) };
    thread::for_each_mut(rt, pages, threads, &finish);
}

/// How many records were applied to all pages together.
pub fn total(tallies: &[Tally]) -> u64
    requires { sum_by (λ t. t.applied) tallies.now < 2 ^ 64 }
    ensures { result ≡ sum_by (λ t. t.applied) tallies.now }
{
    let mut total = 0;
    for tally in tallies {
        total += tally.applied;
    }
    total
}
