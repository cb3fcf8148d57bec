//! The walk of a transaction through the log, by which the transaction is undone.

ghost use Rattle.std.specs.Prelude.{◌≡◌, ◌≤◌, ◌<◌, ◌+◌, IfOk, IfErr};
ghost use Rattle.log_laws.specs.Records.{history, record_at, last_lsn};
ghost use Rattle.undo.specs.Rollback.{hop_of, walk_from, FirstMet, WalkFault};

use crate::looked::Looked;
use page::Fault;
use wal::RecordView;

/// What a record means for the walk that was sent to it.
#[derive(Clone, Copy, Debug, PartialEq, Eq)]
pub enum Hop {
    /// It is an update of the transaction.
    Update,
    /// It is a CLR of the transaction: the walk continues at its UndoNxtLSN, which is this one.
    On(u64),
}

/// What the record at an LSN means for the walk of a transaction. `None` if it is not an update or
/// a CLR of the transaction, and at 0 and past the log's end.
fn hop_at(log: &Looked, tx: u32, lsn: u64) -> Option<Hop>
    ensures { result ≡ hop_of tx (record_at (history log.now) lsn) }
{
    match log.get(lsn)? {
        RecordView::Update { tx: owner, .. } => (owner == tx).then_some(Hop::Update),
        RecordView::Compensation {
            tx: owner,
            undo_next,
            ..
        } => (owner == tx).then_some(Hop::On(undo_next)),
        RecordView::Commit { .. }
        | RecordView::Abort { .. }
        | RecordView::End { .. }
        | RecordView::Prepare { .. }
        | RecordView::CheckpointBegin
        | RecordView::CheckpointEnd { .. } => None,
    }
}

/// The first update that a transaction meets if the record at the LSN `from` sends it to `lsn`: at
/// a CLR it continues at the UndoNxtLSN at once. `None` if it comes to 0.
///
/// BrokenChain(n) if it is sent to an LSN n, not 0, but no update or CLR of the transaction is at
/// n, or n is not below the record that sends it.
pub fn next_update(log: &Looked, tx: u32, from: u64, lsn: u64) -> Result<Option<u64>, Fault>
    requires positive { 0 < from }
    requires within { from ≤ last_lsn (history log.now) + 1 }
    ensures found { IfOk result (FirstMet (history log.now) tx from lsn) }
    ensures fault { IfErr result (WalkFault (walk_from (history log.now) tx from lsn)) }
{
    let mut above = from;
    let mut next = lsn;
    while next != 0 {
        if next >= above {
            return Err(Fault::BrokenChain(next));
        }
        match hop_at(log, tx, next) {
            Some(Hop::Update) => return Ok(Some(next)),
            Some(Hop::On(undo_next)) => {
                above = next;
                next = undo_next;
            }
            None => return Err(Fault::BrokenChain(next)),
        }
    }
    Ok(None)
}
