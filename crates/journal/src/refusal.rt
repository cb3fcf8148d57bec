//! Why a journal refuses an operation.

use std::alloc::{AllocError, AllocFailed};
use wal::State;

/// Why an operation was refused. A refused operation changes nothing, except [`open`](crate::open),
/// whose arrays must not be used then.
#[derive(Clone, Copy, Debug, PartialEq, Eq)]
pub enum Refusal {
    /// No transaction with this number has begun and not finished.
    UnknownTransaction,
    /// The transaction is in this state, which forbids the operation.
    Forbidden(State),
    /// The transaction has a record in the log: roll it back, or commit it.
    HasRecords,
    /// The store has no page with this number.
    NoSuchPage,
    /// The slot is above 15.
    NoSuchSlot,
    /// Another unfinished transaction, with this number, has an update or a CLR in the cell.
    Held(u32),
    /// The transaction has no pending update.
    NothingToUndo,
    /// The transaction has pending updates, and cannot end.
    StillPending,
    /// 1,024 transactions are unfinished, which is as many as a checkpoint can list; or the array
    /// of transactions is full.
    TooManyTransactions,
    /// The transaction numbers are used up. The largest that a transaction gets is 2^32 - 2.
    NoNumber,
    /// The reported LSN is above that of the log's last record, or above the PageLSN of the page.
    NoSuchLsn,
    /// The page must not be written yet: the log is not known to be on the disk up to its PageLSN,
    /// which is this LSN.
    LogNotWritten(u64),
    /// The store has a master, so it belongs to a log that it needs. Set it to 0 first.
    HasMaster,
    /// A page of the store has a PageLSN above the log's base LSN.
    PageAhead,
    /// The PageLSN of the page of this number is not the LSN of the last record on it. Run a
    /// recovery first.
    PageBehind(u32),
    /// The length of the image is 49 to 254.
    BadImage,
    /// The buffer is too short: what would be written takes this many bytes.
    NoFrameRoom(usize),
    /// The array of pending updates is full, and each of them may still be undone.
    NoPendingRoom,
    /// The arrays are not those of a journal: one is shorter than it must be, or the array of pages
    /// has not as many entries as the store has pages.
    BadArrays,
    /// The LSNs that are left are reserved for the rollback of the unfinished transactions; or a new
    /// log's base LSN is larger than that of a log can be.
    LogFull,
    /// Memory was refused.
    NoResource,
}

impl<T: Drop> From<AllocFailed<T>> for Refusal {
    ghost use Rattle.std.specs.Prelude.{◌≡◌};
    ghost use Rattle.journal.specs.declared.refusal.Refusal.TheVariants.{NoResource};

    ghost from_gives = { λ _ e. e ≡ NoResource };

    fn from(_e: AllocFailed<T>) -> Refusal {
        Refusal::NoResource
    }
}

impl From<AllocError> for Refusal {
    ghost use Rattle.std.specs.Prelude.{◌≡◌};
    ghost use Rattle.journal.specs.declared.refusal.Refusal.TheVariants.{NoResource};

    ghost from_gives = { λ _ e. e ≡ NoResource };

    fn from(_e: AllocError) -> Refusal {
        Refusal::NoResource
    }
}
