//! The checkpoints of a journal, and what it gets to know of the disk.

ghost use Rattle.std.specs.Prelude.{◌≡◌, ◌≤◌, ◌+◌, length};
ghost use Rattle.journal.specs.Arrays.{Reaches, IsNoted};
ghost use Rattle.journal.specs.declared.checkpoints.TheConstants.{LONGEST_CHECKPOINT};
ghost use Rattle.journal.specs.State.{with_written};
ghost use Rattle.journal.specs.Outcomes.{LeavesRest, StaysHead, Takes};
ghost use Rattle.aries_c.specs.Fault.{OnDone, OnFailed};
ghost use Rattle.aries_c.specs.JournalCalls.{CheckpointFails, LogWrittenFails, IsLogAhead, PageToWriteFails, Reports, ReportFails};

use crate::Fault;
use crate::refusal::{answer, frame_answer};
use journal::{Head, PageEntry, TransactionEntry};

/// Takes a checkpoint, as [`journal::checkpoint`] does: its begin record has the LSN before
/// `journal.last`, and its end record has `journal.last`. Writes both frames to the front of `out`,
/// and their length in bytes to `told`. 64: `out` is too short; `told` gets the length all the same.
#[unsafe(no_mangle)]
pub extern "C" fn aries_journal_checkpoint(
    journal: &mut Head,
    transactions: &[TransactionEntry],
    pages: &[PageEntry],
    out: &mut [u8],
    told: &mut usize,
) -> Fault
    ensures ok { OnDone result (Takes journal.old journal.new transactions.now pages.now
        out.old out.new told.new) }
    ensures short { OnDone result (told.new ≤ LONGEST_CHECKPOINT) }
    ensures lsn { OnDone result (journal.new.last ≡ journal.old.last + 2) }
    ensures rest { LeavesRest journal.old journal.new }
    ensures count { journal.new.transactions ≡ journal.old.transactions }
    ensures updates { journal.new.pending ≡ journal.old.pending }
    ensures journal { OnFailed result (journal.new ≡ journal.old) }
    ensures out { OnFailed result (out.new ≡ out.old) }
    ensures refused { CheckpointFails journal.old transactions.now pages.now (length out.old)
        told.old told.new result }
{
    let written = journal::checkpoint(journal, transactions, pages, out);
    frame_answer(written, told)
}

/// Reports that the log is on the disk up to this LSN, as [`journal::log_written`] does.
#[unsafe(no_mangle)]
pub extern "C" fn aries_journal_log_written(journal: &mut Head, lsn: u64) -> Fault
    ensures ok { StaysHead journal.old journal.new }
    ensures known { OnDone result (lsn ≤ journal.old.last) }
    ensures written { OnDone result (journal.new ≡ with_written lsn journal.old) }
    ensures journal { OnFailed result (journal.new ≡ journal.old) }
    ensures refused { LogWrittenFails journal.old lsn result }
{
    answer(journal::log_written(journal, lsn))
}

/// Checks that a page, as it is now, may be written to the store, as [`journal::page_to_write`]
/// does.
#[unsafe(no_mangle)]
pub extern "C" fn aries_journal_page_to_write(
    journal: &Head,
    pages: &[PageEntry],
    page: u32,
) -> Fault
    ensures ahead { IsLogAhead journal.now pages.now page result }
    ensures refused { PageToWriteFails journal.now pages.now page result }
{
    answer(journal::page_to_write(journal, pages, page))
}

/// Reports that the image of a page with this PageLSN was written to the store, as
/// [`journal::page_written`] does. It need not be the newest image. The next checkpoint leaves out
/// what the image has, so the store has to be synced before that checkpoint becomes the master.
/// 72: there is no such page; 79: the LSN is above the PageLSN of the page.
#[unsafe(no_mangle)]
pub extern "C" fn aries_journal_page_written(
    pages: &mut [PageEntry],
    page: u32,
    page_lsn: u64,
) -> Fault
    ensures ok { Reports pages.old pages.new page page_lsn result }
    ensures known { OnDone result (Reaches pages.old page page_lsn) }
    ensures noted { OnDone result (IsNoted pages.old pages.new page page_lsn) }
    ensures pages { OnFailed result (pages.new ≡ pages.old) }
    ensures refused { ReportFails pages.old page page_lsn result }
{
    answer(journal::page_written(pages, page, page_lsn))
}
