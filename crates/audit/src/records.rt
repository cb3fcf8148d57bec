//! The laws of the records, in LSN order.

ghost use Rattle.std.specs.Prelude.{◌≡◌, ℕ, ◌+◌, ◌*◌, ◌≤◌, ◌<◌, ◌↔◌, IsTrue, length, map, OnOk, IfOk, IfErr, IfSome, if◌then◌else◌};
ghost use Rattle.page.specs.declared.fault.Fault.TheVariants.{WrongCompensation, EndTooEarly};
ghost use Rattle.log_laws.specs.Records.{History, last_lsn, history, base_lsn, tx_in, first};
ghost use Rattle.log_laws.specs.Meaning.{BasePages};
ghost use Rattle.log_laws.specs.Laws.{IsLawful, Obeys};
ghost use Rattle.log_laws.specs.Tail.{is_end, tx_of};
ghost use Rattle.log_laws.specs.Checkpoint.{true_table};
ghost use Rattle.log_laws.specs.Pages.{base_pages};
ghost use Rattle.log_laws.specs.Store.{NamesPages};
ghost use Rattle.wal.specs.Spelling.{Fits};
ghost use Rattle.log_laws.specs.Checkpoint.{IsRising};
ghost use Rattle.wal.specs.Content.{shown};
ghost use Rattle.audit.specs.Statuses.{IsTop};
ghost use Rattle.audit.specs.Standings.{newest_of, standing_in};
ghost use Rattle.audit.specs.Passing.{IsAuditStateOf, Begins};
ghost use Rattle.audit.specs.FirstFault.{BrokenAt, AreSound, RecordFault};
ghost use Rattle.page.specs.declared.profile.TheConstants.{PAGES, SLOTS};

use crate::audit_state::AuditState;
use crate::cell::{AHEAD, look_ahead};
use crate::decide::{
    keeps_before, keeps_chain, keeps_compensation, keeps_finish, keeps_strictness, names_pages,
};
use crate::standing::Standing;
use crate::status::transaction_of;
use crate::table::is_true_if_any;
use page::{Fault, Page};
use std::alloc::Global;
use wal::{Log, RecordView, TransactionTable};

/// The fault of a record that breaks the law of compensation.
fn wrong_compensation(view: &RecordView, lsn: u64) -> Fault
    ensures { result ≡
        (if is_end (shown view.now) then EndTooEarly lsn else WrongCompensation lsn) }
{
    match view {
        RecordView::End { .. } => Fault::EndTooEarly(lsn),
        _ => Fault::WrongCompensation(lsn),
    }
}

/// Checks the laws for the record at an LSN, after the log before it. `standing` is that of its
/// transaction there. The error is that of the first law that the record breaks.
fn check_record(
    log: &Log,
    audit_state: &AuditState,
    count: usize,
    view: &RecordView,
    standing: Standing,
    lsn: u64,
) -> Result<(), Fault>
    requires size { length audit_state.now.cells.items ≡ SLOTS * count }
    requires fits { Fits (shown view.now) }
    requires standing { standing
        ≡ standing_in audit_state.now.standings (tx_of (shown view.now)) }
    ensures named { OnOk result (NamesPages count (shown view.now)) }
    ensures ok { OnOk result ((base : BasePages) (so_far : History) → last_lsn so_far + 1 ≡ lsn
        → Begins so_far log.now → IsLawful base so_far
        → IsAuditStateOf base count so_far audit_state.now
        → Obeys base so_far (shown view.now)) }
    ensures err { IfErr result (λ e. (base : BasePages) (so_far : History)
        → last_lsn so_far + 1 ≡ lsn → Begins so_far log.now → IsLawful base so_far
        → IsAuditStateOf base count so_far audit_state.now
        → BrokenAt base count so_far (shown view.now) e) }
{
    if !names_pages(view, count) {
        return Err(Fault::NoSuchPage(lsn));
    }
    if !keeps_chain(log, view, standing, lsn) {
        return Err(Fault::Chain(lsn));
    }
    if !keeps_finish(view, standing) {
        return Err(Fault::AfterFinish(lsn));
    }
    if !keeps_compensation(log, view, standing) {
        return Err(wrong_compensation(view, lsn));
    }
    if !keeps_strictness(&audit_state.standings, &audit_state.cells, view) {
        return Err(Fault::DirtyWrite(lsn));
    }
    if !keeps_before(&audit_state.cells, view) {
        return Err(Fault::BeforeImage(lsn));
    }
    Ok(())
}

/// Takes in the record after an LSN, if it breaks no law. The error is that of the first law that
/// it breaks. `NoResource`, if memory was refused, can come instead of any other result.
fn check_next(log: &Log, audit_state: &mut AuditState, count: usize, lsn: u64) -> Result<(), Fault>
    requires from { base_lsn (history log.now) ≤ lsn }
    requires to { lsn < last_lsn (history log.now) }
    requires size { length audit_state.old.cells.items ≡ SLOTS * count }
    requires top { (t : ℕ) → IsTop audit_state.old.base audit_state.old.links.items
        (newest_of (standing_in audit_state.old.standings t)) }
    ensures ok { OnOk result ((base : BasePages) → AreSound base count (first lsn (history log.now))
        → IsAuditStateOf base count (first lsn (history log.now)) audit_state.old
        → AreSound base count (first (lsn + 1) (history log.now))
        × IsAuditStateOf base count (first (lsn + 1) (history log.now)) audit_state.new) }
    ensures err { IfErr result (λ e. (base : BasePages)
        → AreSound base count (first lsn (history log.now))
        → IsAuditStateOf base count (first lsn (history log.now)) audit_state.old
        → RecordFault base count (history log.now) e) }
{
    // For the proof: how large the last LSN can be.
    let _last = log.last();
    let view = log.after(lsn);
    let standing = audit_state.standings.get(transaction_of(&view));
    if let Err(fault) = check_record(log, audit_state, count, &view, standing, lsn + 1) {
        return Err(fault);
    }
    audit_state.note(&view, lsn + 1, standing)
}

/// Checks the laws of the records over these base pages. The error names the first record that
/// breaks a law, and the law. Otherwise returns whether the transaction table, if there is one, is
/// that of the unfinished transactions at the LSN `master`. `NoResource`, if memory was refused,
/// can come instead of any other result.
pub fn check_records(
    alloc: Global,
    log: &Log,
    base: &[Page],
    count: usize,
    master: u64,
    transactions: Option<&TransactionTable>,
) -> Result<bool, Fault>
    requires few { count ≤ PAGES }
    requires begins { IfSome transactions (λ t. (base_lsn (history log.now) < master)
        × (master ≤ last_lsn (history log.now)) × IsRising (map tx_in t.now)) }
    ensures ok { OnOk result (AreSound (base_pages base.now) count (history log.now)) }
    ensures table { IfOk result (λ yes. IfSome transactions.entry (λ t. IsTrue yes
        ↔ t.now ≡ true_table (first master (history log.now)))) }
    ensures err { IfErr result (RecordFault (base_pages base.now) count (history log.now)) }
{
    let begins = log.base();
    let mut audit_state = AuditState::start(alloc, begins, base, count)?;
    let mut seen = vec![in alloc; 0; AHEAD]?;
    let mut is_true = true;
    for lsn in begins..log.last() {
        if lsn % AHEAD as u64 == 0 {
            look_ahead(log, &audit_state.cells, lsn, &mut seen);
        }
        if let Err(fault) = check_next(log, &mut audit_state, count, lsn) {
            return Err(fault);
        }
        if lsn + 1 == master {
            is_true = is_true_if_any(alloc, &audit_state.standings, transactions)?;
        }
    }
    Ok(is_true)
}
