//! The records that undo looks at, gathered while a log is read in pieces, from its end to its
//! beginning.

ghost use Rattle.std.specs.Prelude.{◌≡◌, ◌+◌, ◌*◌, ◌<◌, ◌≤◌, ◌^◌, ℕ, Some, IfOk, OnOk, IsOkUnless};
ghost use Rattle.page.specs.declared.fault.Fault.TheVariants.{NoResource};
ghost use Rattle.wal.specs.Content.{shown};
ghost use Rattle.log_laws.specs.Records.{history, base_lsn};
ghost use Rattle.wal.specs.declared.sizes.TheConstants.{HEADER_BYTES, LARGEST_BASE, SMALLEST_FRAME};
ghost use Rattle.tables.specs.Tables.{losers_in};
ghost use Rattle.undo.specs.Enough.{sends};
ghost use Rattle.undo.specs.Wants.{WantUpTo, AddsBelow};
ghost use Rattle.undo.specs.Gathering.{wants_of, MayWant, BeginsGathering, GathersAt, GathersPiece, EndsGathering};

use crate::gathered::Gathered;
use crate::losers::is_lost;
use crate::want::{Want, Wants};
use page::Fault;
use std::alloc::Global;
use tables::Tables;
use wal::{Log, RecordView};

/// What undo looks at in a log that is read in pieces, from its end to its beginning: the records
/// that are gathered, and the LSNs at which the transactions that are rolled back continue.
#[derive(Drop)]
pub struct Gathering {
    pub gathered: Gathered,
    pub wants: Wants,
}

/// The LSN to which a record sends the walk of a transaction: an update of it to its PrevLSN, a CLR
/// of it to its UndoNxtLSN. `None` if it is neither.
fn next_of(view: &RecordView, tx: u32) -> Option<u64>
    ensures { result ≡ sends tx (Some (shown view.now)) }
{
    match view {
        RecordView::Update {
            tx: owner,
            prev,
            ..
        } => (*owner == tx).then_some(*prev),
        RecordView::Compensation {
            tx: owner,
            undo_next,
            ..
        } => (*owner == tx).then_some(*undo_next),
        RecordView::Commit { .. }
        | RecordView::Abort { .. }
        | RecordView::End { .. }
        | RecordView::Prepare { .. }
        | RecordView::CheckpointBegin
        | RecordView::CheckpointEnd { .. } => None,
    }
}

impl Gathering {
    /// Nothing is gathered yet of a log that begins after the LSN `base` and has `count` records.
    /// The losers of its tables continue at their UndoNxtLSNs.
    ///
    /// The only error is `NoResource`, if memory was refused.
    pub fn begin(alloc: Global, base: u64, count: u64, tables: &Tables) -> Result<Gathering, Fault>
        requires low { base ≤ LARGEST_BASE }
        requires room { HEADER_BYTES + SMALLEST_FRAME * count < 2 ^ 63 }
        ensures begun { IfOk result (BeginsGathering base count (losers_in tables.now)) }
        ensures before { IfOk result (λ gathering. WantUpTo (base + count) (wants_of gathering)) }
        ensures err { IsOkUnless result NoResource }
    {
        let mut gathering = Gathering {
            gathered: Gathered::none(alloc, base, count),
            wants: Wants::new(alloc),
        };
        let end = gathering.gathered.next_lsn();
        for (tx, entry) in &tables.transactions {
            if is_lost(*entry) {
                gathering.go_on(*tx, end, entry.undo_next)?;
            }
        }
        Ok(gathering)
    }

    /// What is gathered after the whole log was read: enough to roll the losers back.
    pub fn finish(self) -> Gathered
        ensures { EndsGathering self result }
    {
        self.gathered
    }

    /// The highest LSN at which a transaction continues; 0 if none does. No record after it is
    /// looked at.
    pub fn upto(&self) -> u64
        ensures up_to { WantUpTo result (wants_of self.now) }
        ensures least { (n : ℕ) → WantUpTo n (wants_of self.now) → result ≤ n }
    {
        self.wants.highest()
    }

    /// Notes that undo looks at the record at `lsn` next for a transaction, if that is below the
    /// record at `from`, which names it. If it is not, the log is not lawful, and if it is 0, no
    /// more records of the transaction are to be undone: then nothing is noted. The only error is
    /// `NoResource`.
    fn go_on(&mut self, tx: u32, from: u64, lsn: u64) -> Result<(), Fault>
        ensures same { self.new.gathered ≡ self.old.gathered }
        ensures wants { OnOk result (MayWant tx from lsn (wants_of self.old) (wants_of self.new)) }
        ensures below { OnOk result (AddsBelow from (wants_of self.old) (wants_of self.new)) }
        ensures err { IsOkUnless result NoResource }
    {
        if lsn < from && lsn != 0 {
            self.wants.put(Want { lsn, tx })?;
        }
        Ok(())
    }

    /// Keeps the record at which a transaction continues, if it is an update or a CLR of the
    /// transaction, and lets the transaction continue from there. The only error is `NoResource`.
    fn gather_at(&mut self, alloc: Global, piece: &Log, want: Want) -> Result<(), Fault>
        ensures gathered { OnOk result (GathersAt (history piece.now) want self.old self.new) }
        ensures below { OnOk result
            (AddsBelow (want.lsn + 1) (wants_of self.old) (wants_of self.new)) }
        ensures err { IsOkUnless result NoResource }
    {
        let Some(view) = piece.get(want.lsn) else {
            return Ok(());
        };
        let Some(next) = next_of(&view, want.tx) else {
            return Ok(());
        };
        if !self.gathered.has(want.lsn) {
            return Ok(());
        }
        let link = view.to_record(alloc)?;
        self.gathered.keep(want.lsn, link)?;
        self.go_on(want.tx, want.lsn, next)
    }

    /// Gathers what undo looks at in a piece. Before the call all transactions continue at or below
    /// the last LSN of the piece; after it they continue before the piece. A piece that ends before
    /// the highest LSN at which a transaction continues is not the next piece.
    ///
    /// The only error is `NoResource`, if memory was refused. What is gathered must then not be
    /// used.
    pub fn take(&mut self, alloc: Global, piece: &Log) -> Result<(), Fault>
        ensures gathered { OnOk result (GathersPiece (history piece.now) self.old self.new) }
        ensures before { OnOk result (WantUpTo (base_lsn (history piece.now)) (wants_of self.new)) }
        ensures err { IsOkUnless result NoResource }
    {
        let base = piece.base();
        for _ in 0..u64::MAX {
            let Some(want) = self.wants.take_above(base) else {
                return Ok(());
            };
            self.gather_at(alloc, piece, want)?;
        }
        // No log has this many records.
        Err(Fault::NoResource)
    }
}
