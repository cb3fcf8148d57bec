//! The undo pass: the updates of all losers are undone, the newest first.

ghost use Rattle.std.specs.Prelude.{◌≡◌, ◌≤◌, ◌<◌, ◌+◌, ◌*◌, ◌^◌, length, OnOk, IfOk, IfErr, IsOkUnless, vec_len};
ghost use Rattle.page.specs.declared.fault.Fault.TheVariants.{NoResource};
ghost use Rattle.page.specs.Store.{AreNumbered};
ghost use Rattle.log_laws.specs.Records.{history, record_at, last_lsn};
ghost use Rattle.tables.specs.Tables.{losers_in};
ghost use Rattle.undo.specs.Undone.{UndoesLosers, AppendsTail, most_appended, IsLawfulCrash, RollbackFault, HasNoTransaction0, AreWritable};
ghost use Rattle.undo.specs.Appended.{IsUpdate, HaveUpdates, AreFit, UndoesInBrief, HasTailInBrief, UndoesOn};
ghost use Rattle.undo.specs.Rollback.{Preserves, loser_at, ForUpdateAt, ExistsAt, IsUpdateAt, Undoes, PutsBack, PutsAllBack, KeepsUpdates, CompensationFault, WaitBelow, AreOthers, WaitOnce, AreUpdates, UndoesAt, HasUndoneAll, AppendsAtMost, StayTold, StayFit, ShowsUndone, StopsUndo, StopsRollback, FaultOn};

use crate::appended::{Appended, records_of};
use crate::looked::{Looked, Place};
use crate::losers::{Loser, Rollback};
use changes::Pages;
use page::{Fault, Page};
use std::alloc::Global;
use tables::Tables;
use wal::{Log, Record, RecordView, value_of};

/// Undoes the update at an LSN: appends its CLR, which has this LSN, and puts the before image back
/// into the page. `last` is the LSN of its transaction's last record. Returns the update's PrevLSN.
fn compensate<P: Pages>(
    log: &Looked,
    update_lsn: u64,
    last: u64,
    lsn: u64,
    appended: &mut Vec<Appended>,
    pages: &mut P,
) -> Result<u64, Fault>
    requires update { IsUpdate (record_at (history log.now) update_lsn) }
    requires lsn { lsn ≡ last_lsn (history log.now) + vec_len appended.old + 1 }
    ensures ok { IfOk result (Undoes log.now update_lsn last appended.old appended.new) }
    ensures exists { OnOk result (ExistsAt (history log.now) update_lsn (P.count pages.old)) }
    ensures put { OnOk result
        (PutsBack P.Pages log.now appended.old pages.old appended.new pages.new) }
    ensures count { P.count pages.new ≡ P.count pages.old }
    ensures updates { OnOk result (KeepsUpdates log.now appended.old appended.new) }
    ensures writable { OnOk result
        (Preserves (AreFit log.now) appended.old.items appended.new.items) }
    ensures counted { ForUpdateAt (history log.now) update_lsn (λ u. 0 < u.tx) }
    ensures fault { IfErr result
        (CompensationFault (history log.now) update_lsn (P.count pages.old)) }
{
    let Some(
        RecordView::Update {
            prev,
            page,
            slot,
            before,
            ..
        },
    ) = log.get(update_lsn)
    else {
        unreachable!()
    };
    if page as usize >= pages.len() {
        return Err(Fault::NoSuchPage(update_lsn));
    }
    appended.push(Appended::Compensation {
        update: update_lsn,
        prev: last,
    })?;
    pages.put(page as usize, slot as usize, value_of(before), lsn)?;
    Ok(prev)
}

impl Rollback {
    /// Undoes the newest update, at which this loser waited, and resolves the loser again.
    fn undo_at<P: Pages>(
        &mut self,
        log: &Looked,
        update: u64,
        loser: Loser,
        pages: &mut P,
    ) -> Result<(), Fault>
        requires update { IsUpdateAt (history log.now) loser.tx update }
        requires room { vec_len self.old.appended ≤ 2 * length log.now.records + 2 ^ 32 }
        requires updates { AreUpdates log.now self.old }
        requires others { AreOthers loser.tx (loser_at self.old) }
        ensures undoes { OnOk result
            (UndoesAt log.now (P.count pages.old) update loser self.old self.new) }
        ensures put { OnOk result
            (PutsAllBack P.Pages log.now self.old pages.old self.new pages.new) }
        ensures count { P.count pages.new ≡ P.count pages.old }
        ensures updates { OnOk result (Preserves (AreUpdates log.now) self.old self.new) }
        ensures once { OnOk result (Preserves WaitOnce (loser_at self.old) (loser_at self.new)) }
        ensures falls { OnOk result
            (Preserves (WaitBelow update) (loser_at self.old) (loser_at self.new)) }
        ensures few { OnOk result (AppendsAtMost 2 self.old self.new) }
        ensures told { OnOk result (StayTold log.now self.old self.new) }
        ensures writable { OnOk result (StayFit log.now self.old self.new) }
        ensures fault { IfErr result
            (StopsUndo log.now (P.count pages.old) update loser self.old) }
    {
        let lsn = log.next_lsn() + self.appended.len() as u64;
        let prev = compensate(log, update, loser.last, lsn, &mut self.appended, pages)?;
        let rest = Loser {
            tx: loser.tx,
            last: lsn,
        };
        self.resolve(log, rest, update, prev)
    }

    /// Undoes all that is left, the newest update first.
    fn undo_all<P: Pages>(&mut self, log: &Looked, pages: &mut P) -> Result<(), Fault>
        requires updates { AreUpdates log.now self.old }
        requires once { WaitOnce (loser_at self.old) }
        requires room { vec_len self.old.appended ≤ 2 ^ 32 }
        ensures undoes { OnOk result
            (HasUndoneAll log.now (P.count pages.old) self.old self.new) }
        ensures put { OnOk result
            (PutsAllBack P.Pages log.now self.old pages.old self.new pages.new) }
        ensures count { P.count pages.new ≡ P.count pages.old }
        ensures few { OnOk result (AppendsAtMost (2 * length log.now.records) self.old self.new) }
        ensures told { OnOk result (StayTold log.now self.old self.new) }
        ensures writable { OnOk result (StayFit log.now self.old self.new) }
        ensures fault { IfErr result (StopsRollback log.now (P.count pages.old) self.old) }
    {
        while let Some((update_lsn, loser)) = self.waiting.take_newest() {
            self.undo_at(log, update_lsn, loser, pages)?;
        }
        Ok(())
    }
}

/// Rolls the losers back on pages that are in memory, or on their changes, as [`undo_in_brief`]
/// does. Returns the appended records in compact form. After an error the pages are not specified.
pub fn undo_on<P: Pages>(
    alloc: Global,
    log: &Looked,
    tables: &Tables,
    pages: &mut P,
) -> Result<Vec<Appended>, Fault>
    // The losers are rolled back: these records are appended, and the pages have their effects.
    ensures rolled_back { IfOk result (UndoesOn log.now tables.now (P.count pages.old)) }
    ensures pages { IfOk result (ShowsUndone P.Pages log.now pages.old pages.new) }

    // Each update that is named is in the log, and each appended record has an encoding, if no
    // loser has the number 0.
    ensures told { IfOk result (λ x. HaveUpdates log.now x.items) }
    ensures writable { HasNoTransaction0 tables.now → IfOk result (λ x. AreFit log.now x.items) }

    // At most two records are appended for each record of the log, and one for each loser; losers
    // have numbers of 32 bits.
    ensures few { IfOk result (λ x. length x.items ≤ most_appended log.now tables.now) }
    ensures numbers { OnOk result (length (losers_in tables.now) ≤ 2 ^ 32) }

    // On an error, its condition holds: a bad hop or a missing page, whichever comes first, memory
    // aside.
    ensures fault { IfErr result (FaultOn log.now tables.now (P.count pages.old)) }
{
    let mut rollback = Rollback::of_losers(alloc, log, tables)?;
    rollback.undo_all(log, pages)?;
    Ok(rollback.appended)
}

/// [`undo`] with the appended records in compact form, which takes 24 to 48 bytes for each: what
/// else they hold is in the log.
pub fn undo_in_brief(
    alloc: Global,
    log: &Looked,
    tables: &Tables,
    mut pages: Vec<Page>,
) -> Result<(Vec<Page>, Vec<Appended>), Fault>
    requires { AreNumbered pages.items }
    // The losers are rolled back on the pages. Each update that is named is in the log, and each
    // appended record has an encoding, if no loser has the number 0.
    ensures rolled_back { IfOk result (UndoesInBrief log.now tables.now pages.items) }

    // At most two records are appended for each record of the log, and one for each loser; losers
    // have numbers of 32 bits.
    ensures few { IfOk result (λ x. length x.1.items ≤ most_appended log.now tables.now) }
    ensures numbers { OnOk result (length (losers_in tables.now) ≤ 2 ^ 32) }

    // On an error, its condition holds: a bad hop or a missing page, whichever comes first, memory
    // aside.
    ensures fault { IfErr result (RollbackFault log.now tables.now pages.items) }

    // For a lawful log and its store, with true tables: the log's tail, unless memory runs out.
    ensures tail { IsLawfulCrash log.now tables.now pages.items
        → IfOk result (HasTailInBrief log.now) }
    ensures lawful { IsLawfulCrash log.now tables.now pages.items → IsOkUnless result NoResource }
{
    let appended = undo_on(alloc, log, tables, &mut pages)?;
    Ok((pages, appended))
}

/// [`undo`] of a log that is looked at.
fn undo_looked(
    alloc: Global,
    log: &Looked,
    tables: &Tables,
    pages: Vec<Page>,
) -> Result<(Vec<Page>, Vec<Record>), Fault>
    requires { AreNumbered pages.items }
    // The losers are rolled back on the pages; each appended record has an encoding, if no loser
    // has the number 0.
    ensures rolled_back { IfOk result (UndoesLosers log.now tables.now pages.items) }
    ensures writable { IfOk result (λ x. HasNoTransaction0 tables.now → AreWritable x.1.items) }

    // At most two records are appended for each record of the log, and one for each loser; losers
    // have numbers of 32 bits.
    ensures few { IfOk result (λ x. length x.1.items ≤ most_appended log.now tables.now) }
    ensures numbers { OnOk result (length (losers_in tables.now) ≤ 2 ^ 32) }

    // On an error, its condition holds: a bad hop or a missing page, whichever comes first, memory
    // aside.
    ensures fault { IfErr result (RollbackFault log.now tables.now pages.items) }

    // For a lawful log and its store, with true tables: the log's tail, unless memory runs out.
    ensures tail { IsLawfulCrash log.now tables.now pages.items
        → IfOk result (AppendsTail log.now) }
    ensures lawful { IsLawfulCrash log.now tables.now pages.items → IsOkUnless result NoResource }
{
    let (pages, appended) = undo_in_brief(alloc, log, tables, pages)?;
    let records = records_of(alloc, log, &appended)?;
    Ok((pages, records))
}

/// Undoes the losers, which are the entries of the transaction table (ARIES, section 6.3). Returns
/// the pages, changed in place, and the records that a restart appends to the log, which take the
/// LSNs after its last one.
///
/// First each loser, in ascending order of number, is resolved from its UndoNxtLSN: at an update it
/// waits; at a CLR it continues at the CLR's UndoNxtLSN; at 0 nothing is left, and its end is
/// appended. Then the update with the largest LSN at which a loser waits is undone, again and
/// again: its CLR is appended, the slot and the PageLSN of its page are set, and the loser is
/// resolved again from the update's PrevLSN. Time is near linear in the records met. Memory is the
/// records appended, 24 to 48 bytes more for each of them, and 24 to 48 bytes for each loser, at
/// least 96 if there is one. What the losers take is requested before the first update is undone.
///
/// Errors. The first one met in this order is returned, and the page of an update comes before the
/// walk from it:
/// - BrokenChain(n): a loser is sent to an LSN n, not 0, but no update or CLR of it is at n, or n
///   is not below the record that sends it.
/// - NoSuchPage(n): the update at the LSN n, which must be undone, is on a page that is not given.
/// - NoResource: memory was refused. It may come instead of any other result.
///
/// On an error the pages are lost.
pub fn undo(
    alloc: Global,
    log: &Log,
    tables: &Tables,
    pages: Vec<Page>,
) -> Result<(Vec<Page>, Vec<Record>), Fault>
    requires { AreNumbered pages.items }
    // The losers are rolled back on the pages; each appended record has an encoding, if no loser
    // has the number 0.
    ensures rolled_back { IfOk result (UndoesLosers log.now tables.now pages.items) }
    ensures writable { IfOk result (λ x. HasNoTransaction0 tables.now → AreWritable x.1.items) }

    // At most two records are appended for each record of the log, and one for each loser; losers
    // have numbers of 32 bits.
    ensures few { IfOk result (λ x. length x.1.items ≤ most_appended log.now tables.now) }
    ensures numbers { OnOk result (length (losers_in tables.now) ≤ 2 ^ 32) }

    // On an error, its condition holds: a bad hop or a missing page, whichever comes first, memory
    // aside.
    ensures fault { IfErr result (RollbackFault log.now tables.now pages.items) }

    // For a lawful log and its store, with true tables: the log's tail, unless memory runs out.
    ensures tail { IsLawfulCrash log.now tables.now pages.items
        → IfOk result (AppendsTail log.now) }
    ensures lawful { IsLawfulCrash log.now tables.now pages.items → IsOkUnless result NoResource }
{
    let looked = Looked {
        place: Place::Log(log),
    };
    undo_looked(alloc, &looked, tables, pages)
}
