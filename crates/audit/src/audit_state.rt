//! What is kept while the records are read.

ghost use Rattle.std.specs.Prelude.{◌≡◌, ◌+◌, ◌≤◌, ℕ, length, IfOk, OnOk, IsOkUnless};
ghost use Rattle.page.specs.declared.fault.Fault.TheVariants.{NoResource};
ghost use Rattle.log_laws.specs.Records.{History, start, ◌▸◌, last_lsn};
ghost use Rattle.log_laws.specs.Pages.{base_pages};
ghost use Rattle.log_laws.specs.Meaning.{BasePages};
ghost use Rattle.log_laws.specs.Laws.{FinishLaw};
ghost use Rattle.log_laws.specs.Store.{NamesPages};
ghost use Rattle.wal.specs.Spelling.{Fits};
ghost use Rattle.wal.specs.Content.{shown};
ghost use Rattle.log_laws.specs.Tail.{tx_of};
ghost use Rattle.audit.specs.Statuses.{IsTop};
ghost use Rattle.audit.specs.Standings.{newest_of, standing_in};
ghost use Rattle.audit.specs.Cells.{HasCell};
ghost use Rattle.audit.specs.Passing.{IsAuditStateOf};
ghost use Rattle.page.specs.declared.profile.TheConstants.{PAGES};

use crate::cell::{Cell, note_cell, start_cells};
use crate::standing::Standing;
use crate::standings::Standings;
use crate::status::below_top;
use page::{Fault, Page};
use std::alloc::Global;
use wal::RecordView;

/// What the records so far say: a link of 8 bytes for each record, the standings of the
/// transactions, and what the cells hold.
#[derive(Drop)]
pub struct AuditState {
    /// The standing of each transaction.
    pub standings: Standings,
    /// The base LSN of the log.
    pub base: u64,
    /// For each record, the top of its transaction's stack of pending updates before it: an LSN, 0
    /// for none.
    pub links: Vec<u64>,
    /// What is kept of each cell; a page has as many cells as slots.
    pub cells: Vec<Cell>,
}

impl AuditState {
    /// The state before the first record of a log with this base LSN, over the base pages, for
    /// `count` pages. The only error is `NoResource`.
    pub fn start(alloc: Global, lsn: u64, base: &[Page], count: usize) -> Result<AuditState, Fault>
        requires { count ≤ PAGES }
        ensures ok { IfOk result (IsAuditStateOf (base_pages base.now) count (start lsn)) }
        ensures err { IsOkUnless result NoResource }
    {
        let cells = start_cells(alloc, base, count)?;
        Ok(AuditState {
            standings: Standings::start(alloc),
            base: lsn,
            links: Vec::new(alloc),
            cells,
        })
    }

    /// Takes in the record at an LSN. `standing` is that of its transaction before it. The only
    /// error is `NoResource`.
    pub fn note(&mut self, view: &RecordView, lsn: u64, standing: Standing) -> Result<(), Fault>
        requires cell { HasCell (length self.old.cells.items) (shown view.now) }
        requires fits { Fits (shown view.now) }
        requires top { IsTop self.old.base self.old.links.items (newest_of standing) }
        requires standing { standing ≡ standing_in self.old.standings (tx_of (shown view.now)) }
        ensures ok { OnOk result ((base : BasePages) (count : ℕ) (log : History)
            → last_lsn log + 1 ≡ lsn
            → NamesPages count (shown view.now)
            → FinishLaw log (shown view.now)
            → IsAuditStateOf base count log self.old
            → IsAuditStateOf base count (log ▸ shown view.now) self.new) }
        ensures err { IsOkUnless result NoResource }
    {
        let newest = standing.newest();
        let below = below_top(self.base, &self.links, newest);
        self.standings.note(view, lsn, standing, below)?;
        self.links.push(newest)?;
        note_cell(&mut self.cells, view);
        Ok(())
    }
}
