//! A log of which only the records are kept that undo looks at.

ghost use Rattle.std.specs.Prelude.{◌≡◌, ◌+◌, ◌*◌, ◌-◌, ◌<◌, ◌≤◌, ◌^◌, length, option_map, ℕ, Some, None, OnOk, OnErr, IfSome, IsOkUnless, IsTrue, ◌↔◌};
ghost use Rattle.page.specs.declared.fault.Fault.TheVariants.{NoResource};
ghost use Rattle.wal.specs.Content.{content, shown};
ghost use Rattle.log_laws.specs.Records.{history, record_at, last_lsn, base_lsn};
ghost use Rattle.wal.specs.Spelling.{Fits};
ghost use Rattle.wal.specs.declared.sizes.TheConstants.{HEADER_BYTES, LARGEST_BASE, SMALLEST_FRAME};
ghost use Rattle.undo.specs.Gathered.{link_in, IsPassedOver, HasLsn, KeepsLink};

use page::{Fault, Value};
use std::alloc::Global;
use std::collections::BTreeMap;
use std::marker::Model;
use wal::{Record, RecordView};

/// The bytes of a value that may be absent.
#[inline(always)]
fn bytes_of(value: &Option<Value>) -> Option<&[u8]>
    ensures { option_map (λ s. s.now) result ≡ value.now }
{
    match value {
        Some(value) => Some(value.as_slice()),
        None => None,
    }
}

/// An update or a CLR as a log shows it. A checkpoint begin is shown for any other record.
#[inline(always)]
fn view_of(kept: &Record) -> RecordView<'_>
    ensures { shown result ≡ link_in (content kept.now) }
{
    match kept {
        Record::Update {
            tx,
            prev,
            page,
            slot,
            before,
            after,
        } => RecordView::Update {
            tx: *tx,
            prev: *prev,
            page: *page,
            slot: *slot,
            before: bytes_of(before),
            after: bytes_of(after),
        },
        Record::Compensation {
            tx,
            prev,
            page,
            slot,
            undo_next,
            image,
        } => RecordView::Compensation {
            tx: *tx,
            prev: *prev,
            page: *page,
            slot: *slot,
            undo_next: *undo_next,
            image: bytes_of(image),
        },
        Record::Commit { .. }
        | Record::Abort { .. }
        | Record::End { .. }
        | Record::Prepare { .. }
        | Record::CheckpointBegin
        | Record::CheckpointEnd { .. } => RecordView::CheckpointBegin,
    }
}

/// The records of a log that were gathered: those in the chains of the transactions that are rolled
/// back. Contracts see a log with as many records as the whole one. It has a checkpoint begin
/// instead of each record that was not gathered: undo passes over it.
#[derive(Drop)]
pub struct Gathered {
    base: u64,
    count: u64,
    places: BTreeMap<u64, usize>,
    records: Vec<Record>,
}

impl Model for Gathered {
    ghost use Rattle.std.specs.Prelude.{map};
    ghost use Rattle.wal.specs.Content.{content};
    ghost use Rattle.log_laws.specs.Records.{LogContent};
    ghost use Rattle.undo.specs.Gathered.{gathered_log, IsGathered};

    ghost Value = { LogContent };

    ghost view = { λ g. gathered_log g.base g.count g.places.entries (map content g.records.items) };

    ghost invariant = { λ g. IsGathered g.base g.count g.places.entries (map content g.records.items) };
}

impl Gathered {
    /// No records yet of a log that begins after the LSN `base` and has `count` records.
    pub fn none(alloc: Global, base: u64, count: u64) -> Gathered
        requires low { base ≤ LARGEST_BASE }
        requires room { HEADER_BYTES + SMALLEST_FRAME * count < 2 ^ 63 }
        ensures base { base_lsn (history result) ≡ base }
        ensures last { last_lsn (history result) ≡ base + count }
        ensures none { (lsn : ℕ) → IsPassedOver (record_at (history result) lsn) }
    {
        Gathered {
            base,
            count,
            places: BTreeMap::new(alloc),
            records: Vec::new(alloc),
        }
    }

    /// Keeps an update or a CLR, which is at this LSN of the log. It replaces one that was kept
    /// there before. Any other record has no effect.
    ///
    /// The only error is `NoResource`, if memory was refused; then nothing changes.
    pub fn keep(&mut self, lsn: u64, link: Record) -> Result<(), Fault>
        requires from { base_lsn (history self.old) < lsn }
        requires to { lsn ≤ last_lsn (history self.old) }
        requires fits { Fits (content link) }
        ensures base { base_lsn (history self.new) ≡ base_lsn (history self.old) }
        ensures last { last_lsn (history self.new) ≡ last_lsn (history self.old) }
        ensures kept { OnOk result (KeepsLink lsn (content link) self.old self.new) }
        ensures unchanged { OnErr result (self.new ≡ self.old) }
        ensures err { IsOkUnless result NoResource }
    {
        let place = self.records.len();
        self.records.push(link)?;
        self.places.insert(lsn, place)?;
        Ok(())
    }

    /// Whether the log has a record at an LSN.
    pub fn has(&self, lsn: u64) -> bool
        ensures { IsTrue result ↔ HasLsn (history self.now) lsn }
    {
        let last = self.base + self.count;
        if lsn <= self.base || last < lsn {
            return false;
        }
        true
    }

    /// How many records the log has.
    pub fn len(&self) -> u64
        ensures { result ≡ length self.now.records }
    {
        self.count
    }

    /// The LSN of the record that would follow the last one.
    pub fn next_lsn(&self) -> u64
        ensures next { result ≡ last_lsn (history self.now) + 1 }
        ensures low { base_lsn (history self.now) ≤ LARGEST_BASE }
        ensures room { HEADER_BYTES + SMALLEST_FRAME * length self.now.records < 2 ^ 63 }
    {
        self.base + 1 + self.count
    }

    /// The record at an LSN. `None` if the LSN is not above the base LSN, or is above the last one.
    /// If the record was not gathered, it is a checkpoint begin.
    // Inlined with what it calls, so that a caller that looks at a few fields of a view makes no
    // others.
    #[inline(always)]
    pub fn get(&self, lsn: u64) -> Option<RecordView<'_>>
        ensures found { option_map shown result ≡ record_at (history self.now) lsn }
        ensures fits { IfSome result (λ view. Fits (shown view)) }
    {
        if lsn <= self.base || lsn - self.base > self.count {
            return None;
        }
        match self.places.get(&lsn) {
            Some(place) => Some(view_of(&self.records[*place])),
            None => Some(RecordView::CheckpointBegin),
        }
    }
}
