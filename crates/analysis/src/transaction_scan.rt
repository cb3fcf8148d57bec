//! The transaction table while a log is read, piece after piece.

ghost use Rattle.std.specs.Prelude.{◌≡◌, ℕ, Option, None, IfOk, OnOk, IsOkUnless};
ghost use Rattle.page.specs.declared.fault.Fault.TheVariants.{NoResource};
ghost use Rattle.log_laws.specs.Records.{TableEntry, History, history, last_lsn, base_lsn, ◌▸▸◌};
ghost use Rattle.analysis.specs.Tables.{entry_at, analysed_entry};
ghost use Rattle.analysis.specs.Steps.{entry_seen};

use crate::kept::{PLACES, highest_in, put_back};
use crate::scan::note_transaction;
use page::Fault;
use std::collections::BTreeMap;
use std::marker::Model;
use wal::{Entry, Glance, Log};

/// The transaction table while a log is read. The log comes in pieces, from its first record to its
/// last: each piece is a log whose base LSN is the last LSN of the one before it, and no record is
/// looked at twice. Contracts see a list of entries. If it has two entries of a transaction, the
/// first one counts.
#[derive(Drop)]
pub struct TransactionScan {
    pub(crate) transactions: BTreeMap<u32, Entry>,
    pub(crate) kept: [Option<(u32, Entry)>; PLACES],
    pub(crate) highest: u32,
}

impl Model for TransactionScan {
    ghost use Rattle.std.specs.Prelude.{ℕ, List, ◌++◌};
    ghost use Rattle.wal.specs.declared.record.Entry.{Entry};
    ghost use Rattle.analysis.specs.Steps.{those_kept, AreKept, HasNoneAbove};

    ghost Value = { List (ℕ × Entry) };

    ghost view = { λ s. those_kept s.kept ++ s.transactions.entries };

    ghost invariant = { λ s. AreKept s.kept × HasNoneAbove s.highest s.transactions.entries };
}

impl TransactionScan {
    /// The scan before the first piece, with these entries to begin from.
    #[inline(always)]
    pub fn begin(transactions: BTreeMap<u32, Entry>) -> TransactionScan
        ensures { result ≡ transactions.entries }
    {
        let highest = highest_in(&transactions);
        TransactionScan {
            transactions,
            kept: [None; PLACES],
            highest,
        }
    }

    /// Notes in the table what the record at an LSN does to it. The record is given at a glance.
    ///
    /// The only error is `NoResource`, if memory was refused.
    #[inline(always)]
    pub fn note(&mut self, glance: Glance, lsn: u64) -> Result<(), Fault>
        ensures entries { OnOk result ((t : ℕ) → entry_at t self.new
            ≡ entry_seen lsn glance t (entry_at t self.old)) }
        ensures err { IsOkUnless result NoResource }
    {
        note_transaction(
            &mut self.transactions,
            &mut self.kept,
            &mut self.highest,
            glance,
            lsn,
        )?;
        Ok(())
    }

    /// Looks at the records of the next piece for what they do to the table. `master` is the LSN of
    /// the checkpoint's begin record, 0 for none, and the same for all pieces: records up to it do
    /// nothing to the table.
    ///
    /// The only error is `NoResource`, if memory was refused. The table then has what some of the
    /// piece's records do to it, and the scan must be begun again.
    pub fn pass(&mut self, piece: &Log, master: u64) -> Result<(), Fault>
        ensures entries { OnOk result ((t : ℕ) → entry_at t self.new
            ≡ analysed_entry t master (entry_at t self.old) (history piece.now)) }
        // The same of the log that was read.
        ensures goes_on { OnOk result ((t : ℕ) (base : Option TableEntry) (log : History)
            → last_lsn log ≡ base_lsn (history piece.now)
            → entry_at t self.old ≡ analysed_entry t master base log
            → entry_at t self.new ≡ analysed_entry t master base (log ▸▸ piece.now.records)) }
        ensures no_transaction_0 { OnOk result (entry_at 0 self.old ≡ None
            → entry_at 0 self.new ≡ None) }
        ensures err { IsOkUnless result NoResource }
    {
        let from = master.max(piece.base());
        for lsn in from..piece.last() {
            let glance = piece.glance_after(lsn);
            note_transaction(
                &mut self.transactions,
                &mut self.kept,
                &mut self.highest,
                glance,
                lsn + 1,
            )?;
        }
        Ok(())
    }

    /// The table after the log that was read. The only error is `NoResource`, if memory was
    /// refused.
    #[inline(always)]
    pub fn finish(self) -> Result<BTreeMap<u32, Entry>, Fault>
        ensures entries { IfOk result (λ found. (t : ℕ) → entry_at t found.entries
            ≡ entry_at t self) }
        ensures err { IsOkUnless result NoResource }
    {
        let TransactionScan {
            mut transactions,
            kept,
            highest: _,
        } = self;
        put_back(&mut transactions, &kept)?;
        Ok(transactions)
    }
}
