//! What an engine reports about the disk, and which pages it may write.

ghost use Rattle.std.specs.Prelude.{◌≡◌, ◌≤◌, OnOk, OnErr, IfErr};
ghost use Rattle.journal.specs.Arrays.{Reaches, IsNoted};
ghost use Rattle.journal.specs.State.{with_written};
ghost use Rattle.journal.specs.Outcomes.{StaysHead, RefusesLogWritten, IsLogAhead, RefusesPageToWrite, Reports, RefusesReport};

use crate::entries::{Head, PageEntry};
use crate::refusal::Refusal;

/// Reports that the log is on the disk up to this LSN: its file was synced. The LSN need not be the
/// last one; one below an earlier report changes nothing. The only error is `NoSuchLsn`, if the LSN
/// is above that of the log's last record. Then nothing changes.
pub fn log_written(head: &mut Head, lsn: u64) -> Result<(), Refusal>
    ensures ok { StaysHead head.old head.new }
    ensures known { OnOk result (lsn ≤ head.old.last) }
    ensures written { OnOk result (head.new ≡ with_written lsn head.old) }
    ensures err { OnErr result (head.new ≡ head.old) }
    ensures refused { IfErr result (RefusesLogWritten head.old lsn) }
{
    if lsn > head.last {
        return Err(Refusal::NoSuchLsn);
    }
    head.written = head.written.max(lsn);
    Ok(())
}

/// Checks that a page, as it is now, may be written to the store: the log is known to be on the
/// disk up to its PageLSN (write-ahead logging). Errors: `NoSuchPage`; `LogNotWritten` with the
/// PageLSN, if the log has to be written first.
pub fn page_to_write(head: &Head, pages: &[PageEntry], number: u32) -> Result<(), Refusal>
    ensures ahead { OnOk result (IsLogAhead head.now pages.now number) }
    ensures refused { IfErr result (RefusesPageToWrite head.now pages.now number) }
{
    if number as usize >= pages.len() {
        return Err(Refusal::NoSuchPage);
    }
    let lsn = pages[number as usize].page.lsn;
    if lsn > head.written {
        return Err(Refusal::LogNotWritten(lsn));
    }
    Ok(())
}

/// Reports that the image of a page with this PageLSN was written to the store. It need not be the
/// newest image. The next checkpoint then leaves out what the image has, so the store has to be
/// synced before that checkpoint becomes the master. Errors, after which nothing changes:
/// `NoSuchPage`; `NoSuchLsn`, if the LSN is above the PageLSN of the page.
pub fn page_written(pages: &mut [PageEntry], number: u32, lsn: u64) -> Result<(), Refusal>
    ensures ok { OnOk result (Reports pages.old pages.new number lsn) }
    ensures known { OnOk result (Reaches pages.old number lsn) }
    ensures noted { OnOk result (IsNoted pages.old pages.new number lsn) }
    ensures err { OnErr result (pages.new ≡ pages.old) }
    ensures refused { IfErr result (RefusesReport pages.old number lsn) }
{
    if number as usize >= pages.len() {
        return Err(Refusal::NoSuchPage);
    }
    if lsn > pages[number as usize].page.lsn {
        return Err(Refusal::NoSuchLsn);
    }
    pages[number as usize].mark_written(lsn);
    Ok(())
}
