//! The status of an unfinished transaction after the records so far.

ghost use Rattle.std.specs.Prelude.{◌≡◌};
ghost use Rattle.log_laws.specs.Tail.{tx_of};
ghost use Rattle.wal.specs.Content.{shown};
ghost use Rattle.audit.specs.Statuses.{under, unknown, after, IsTop};

use wal::RecordView;

/// The status of an unfinished transaction: what its records so far say. LSNs are 0 for none.
#[derive(Clone, Copy)]
pub struct Status {
    /// The LSN of its last record.
    pub last: u64,
    /// The raw undo-next, by its last update or CLR: the LSN of an update, the UndoNxtLSN of a CLR.
    pub undo_next: u64,
    /// The LSN of its newest pending update.
    pub newest: u64,
    pub aborted: bool,
    pub prepared: bool,
}

impl Status {
    /// The status of a transaction that has no record.
    pub fn unknown() -> Status
        ensures { result ≡ unknown }
    {
        Status {
            last: 0,
            undo_next: 0,
            newest: 0,
            aborted: false,
            prepared: false,
        }
    }
}

/// The transaction of a record, 0 if it has none.
pub fn transaction_of(view: &RecordView) -> u32
    ensures { result ≡ tx_of (shown view.now) }
{
    match view.tx() {
        Some(tx) => tx,
        None => 0,
    }
}

/// The LSN below this one on its stack of pending updates, 0 for none. There is a link for each LSN
/// after the base LSN.
pub fn below_top(base: u64, links: &[u64], top: u64) -> u64
    requires { IsTop base links.now top }
    ensures { result ≡ under base links.now top }
{
    if top == 0 {
        return 0;
    }
    links[(top - base - 1) as usize]
}

/// The status of a record's unfinished transaction after the record, which does not finish it.
/// `below` is the LSN below its newest pending update.
pub fn status_after(status: Status, view: &RecordView, lsn: u64, below: u64) -> Status
    ensures { result ≡ after (shown view.now) lsn below status }
{
    match view {
        RecordView::Update { .. } => Status {
            last: lsn,
            undo_next: lsn,
            newest: lsn,
            ..status
        },
        RecordView::Compensation { undo_next, .. } => Status {
            last: lsn,
            undo_next: *undo_next,
            newest: below,
            ..status
        },
        RecordView::Abort { .. } => Status {
            last: lsn,
            aborted: true,
            ..status
        },
        RecordView::Prepare { .. } => Status {
            last: lsn,
            prepared: true,
            ..status
        },
        RecordView::Commit { .. }
        | RecordView::End { .. }
        | RecordView::CheckpointBegin
        | RecordView::CheckpointEnd { .. } => status,
    }
}
