//! The dirty page table while a log is read, piece after piece.

ghost use Rattle.std.specs.Prelude.{◌≡◌, ℕ, Option, IfOk, OnOk, IsOkUnless};
ghost use Rattle.page.specs.declared.fault.Fault.TheVariants.{NoResource};
ghost use Rattle.log_laws.specs.Records.{LogRecord, History, history, last_lsn, base_lsn, ◌▸▸◌};
ghost use Rattle.wal.specs.Glances.{glance_of};
ghost use Rattle.log_laws.specs.Redo.{rec_lsn_of};
ghost use Rattle.analysis.specs.Tables.{analysed_rec_lsn};
ghost use Rattle.analysis.specs.Steps.{rec_lsn_after};

use crate::dirty::{no_page_known, scan_pages};
use crate::scan::note_page;
use page::Fault;
use std::alloc::Global;
use std::collections::BTreeMap;
use std::marker::Model;
use wal::{Glance, Log};

/// The dirty page table while a log is read. The log comes in pieces, from its first record to its
/// last: each piece is a log whose base LSN is the last LSN of the one before it, and no record is
/// looked at twice. Contracts see the list of its entries, each a page and its RecLSN.
#[derive(Drop)]
pub struct PageScan {
    dirty: BTreeMap<u32, u64>,
    known: Vec<bool>,
}

impl Model for PageScan {
    ghost use Rattle.std.specs.Prelude.{ℕ, List};
    ghost use Rattle.analysis.specs.Steps.{AreListed};

    ghost Value = { List (ℕ × ℕ) };

    ghost view = { λ s. s.dirty.entries };

    ghost invariant = { λ s. AreListed s.known.items s.dirty.entries };
}

impl PageScan {
    /// The scan before the first piece, with these pages to begin from. The only error is
    /// `NoResource`, if memory was refused.
    pub fn begin(alloc: Global, dirty: BTreeMap<u32, u64>) -> Result<PageScan, Fault>
        ensures ok { IfOk result (λ scan. scan ≡ dirty.entries) }
        ensures err { IsOkUnless result NoResource }
    {
        let known = no_page_known(alloc)?;
        Ok(PageScan { dirty, known })
    }

    /// Notes in the table what the record at an LSN does to it. The record is given at a glance.
    ///
    /// The only error is `NoResource`, if memory was refused.
    #[inline(always)]
    pub fn note(&mut self, glance: Glance, lsn: u64) -> Result<(), Fault>
        ensures pages { OnOk result ((r : LogRecord) → glance ≡ glance_of r → (page : ℕ)
            → rec_lsn_of page self.new ≡ rec_lsn_after lsn r page (rec_lsn_of page self.old)) }
        ensures err { IsOkUnless result NoResource }
    {
        note_page(&mut self.dirty, &mut self.known, glance, lsn)
    }

    /// Looks at the records of the next piece for what they do to the table. `master` is the LSN of
    /// the checkpoint's begin record, 0 for none, and the same for all pieces: records up to it do
    /// nothing to the table.
    ///
    /// The only error is `NoResource`, if memory was refused. The table then has what some of the
    /// piece's records do to it, and the scan must be begun again.
    pub fn pass(&mut self, piece: &Log, master: u64) -> Result<(), Fault>
        ensures pages { OnOk result ((page : ℕ) → rec_lsn_of page self.new
            ≡ analysed_rec_lsn page master (rec_lsn_of page self.old) (history piece.now)) }
        // The same of the log that was read.
        ensures goes_on { OnOk result ((page : ℕ) (base : Option ℕ) (log : History)
            → last_lsn log ≡ base_lsn (history piece.now)
            → rec_lsn_of page self.old ≡ analysed_rec_lsn page master base log
            → rec_lsn_of page self.new
            ≡ analysed_rec_lsn page master base (log ▸▸ piece.now.records)) }
        ensures err { IsOkUnless result NoResource }
    {
        let from = master.max(piece.base());
        scan_pages(piece, from, None, &mut self.dirty, &mut self.known)?;
        Ok(())
    }

    /// The table after the log that was read.
    #[inline(always)]
    pub fn finish(self) -> BTreeMap<u32, u64>
        ensures { result.entries ≡ self }
    {
        let PageScan { dirty, known: _ } = self;
        dirty
    }
}
