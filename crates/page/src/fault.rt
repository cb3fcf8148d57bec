//! The errors of calls.

ghost use Rattle.std.specs.Prelude.{◌≡◌};
ghost use Rattle.page.specs.Fault.{number_of};

use std::alloc::{AllocError, AllocFailed};
use thiserror::Error;

/// Why a call failed. A variant carries the place of the error: the offset in bytes of a frame's
/// length field in the log file, an LSN, or a page number.
#[derive(Clone, Copy, Debug, PartialEq, Eq, Error)]
pub enum Fault {
    /// The call was refused memory or a thread.
    #[error("no resource")]
    NoResource,
    /// The reader of the log failed.
    #[error("reading the log failed")]
    ReadLog,
    /// The reader of the store failed.
    #[error("reading the store failed")]
    ReadStore,
    /// The writer of the log failed.
    #[error("writing the log failed")]
    WriteLog,
    /// The writer of the store failed.
    #[error("writing the store failed")]
    WriteStore,
    /// The log does not begin with the magic of version 1 or 2, [`LOG_MAGIC`](crate::LOG_MAGIC) or
    /// [`BASED_LOG_MAGIC`](crate::BASED_LOG_MAGIC); or it has the second, but not all bytes of a
    /// base LSN, or a base LSN above 9,223,372,036,854,775,807.
    #[error("bad log header")]
    BadLogHeader,
    /// The length field of the frame at this offset is below 9, or above the length of a checkpoint
    /// end with full tables.
    #[error("bad length at byte {0}")]
    BadLength(u64),
    /// The body of the frame at this offset does not encode a record with any LSN.
    #[error("bad record at byte {0}")]
    BadRecord(u64),
    /// The body of the frame at this offset encodes a record, but its LSN is not the sum of the
    /// log's base LSN and the frame's number.
    #[error("bad LSN at byte {0}")]
    BadLsn(u64),
    /// The store has fewer bytes than a header, another magic than
    /// [`STORE_MAGIC`](crate::STORE_MAGIC), a page count outside 1 to [`PAGES`](crate::PAGES), or
    /// a reserved byte that is not zero.
    #[error("bad store header")]
    BadStoreHeader,
    /// The store's length is not that of a header and as many images as its page count says.
    #[error("bad store size")]
    StoreSize,
    /// The image at this page's place does not encode a page with this number. This is the lowest
    /// such page.
    #[error("bad image of page {0}")]
    BadPage(u32),
    /// The master is not 0, and the record at the master is not a checkpoint begin, or no later end
    /// record names it.
    #[error("bad master")]
    BadMaster,
    /// The record at this LSN names a page that the store does not have.
    #[error("no such page at LSN {0}")]
    NoSuchPage(u64),
    /// The PageLSN of this page is above the log's last LSN. This is the lowest such page.
    #[error("page {0} is ahead of the log")]
    PageAheadOfLog(u32),
    /// Undo was sent to this LSN, but no update or CLR of the transaction is there, or this LSN is
    /// not below the record that sent undo here.
    #[error("broken chain at LSN {0}")]
    BrokenChain(u64),
    /// The number of pages or of parts is out of its range, or the partition does not give each
    /// page one of its parts.
    #[error("bad parting")]
    BadParting,
    /// The number of workers is out of its range.
    #[error("bad worker count")]
    BadWorkers,
    /// The PrevLSN of the record at this LSN is not the last record of its transaction.
    #[error("wrong previous LSN at LSN {0}")]
    Chain(u64),
    /// An earlier commit, abort, end or prepare of its transaction forbids the record at this LSN.
    #[error("record after finish at LSN {0}")]
    AfterFinish(u64),
    /// The CLR at this LSN does not compensate the latest pending update of its transaction.
    #[error("wrong compensation at LSN {0}")]
    WrongCompensation(u64),
    /// The before image of the update at this LSN is not the value of its cell.
    #[error("wrong before image at LSN {0}")]
    BeforeImage(u64),
    /// The update at this LSN changes a cell of another unfinished transaction.
    #[error("dirty write at LSN {0}")]
    DirtyWrite(u64),
    /// The end at this LSN has no commit before it, but its transaction still has updates to undo.
    #[error("end too early at LSN {0}")]
    EndTooEarly(u64),
    /// The image of this page differs from what the log gives the page at its PageLSN.
    #[error("wrong content of page {0}")]
    PageImage(u32),
    /// The checkpoint's transaction table is not exactly the table of the transactions that are
    /// unfinished at its begin record.
    #[error("wrong transaction table")]
    TransactionTable,
    /// The checkpoint's dirty page table leaves out a record that this page's image lacks, or it
    /// lists a RecLSN that is not above the log's base LSN or is above the master. This is the
    /// lowest such page.
    #[error("wrong dirty page table at page {0}")]
    DirtyTable(u32),
    /// The base store has another page count than the store, or a page whose PageLSN is above the
    /// log's base LSN.
    #[error("bad base store")]
    BadBase,
}

impl Fault {
    /// The number of the fault as the program prints it: 1 to 29, without 19.
    pub fn number(self) -> u8
        ensures { result ≡ number_of self }
    {
        match self {
            Fault::NoResource => 1,
            Fault::ReadLog => 2,
            Fault::ReadStore => 3,
            Fault::WriteLog => 4,
            Fault::WriteStore => 5,
            Fault::BadLogHeader => 6,
            Fault::BadLength(_) => 7,
            Fault::BadRecord(_) => 8,
            Fault::BadLsn(_) => 9,
            Fault::BadStoreHeader => 10,
            Fault::StoreSize => 11,
            Fault::BadPage(_) => 12,
            Fault::BadMaster => 13,
            Fault::NoSuchPage(_) => 14,
            Fault::PageAheadOfLog(_) => 15,
            Fault::BrokenChain(_) => 16,
            Fault::BadParting => 17,
            Fault::BadWorkers => 18,
            Fault::Chain(_) => 20,
            Fault::AfterFinish(_) => 21,
            Fault::WrongCompensation(_) => 22,
            Fault::BeforeImage(_) => 23,
            Fault::DirtyWrite(_) => 24,
            Fault::EndTooEarly(_) => 25,
            Fault::PageImage(_) => 26,
            Fault::TransactionTable => 27,
            Fault::DirtyTable(_) => 28,
            Fault::BadBase => 29,
        }
    }
}

impl From<AllocError> for Fault {
    ghost use Rattle.std.specs.Prelude.{◌≡◌};
    ghost use Rattle.page.specs.declared.fault.Fault.TheVariants.{NoResource};

    ghost from_gives = { λ _ e. e ≡ NoResource };

    fn from(_e: AllocError) -> Fault {
        Fault::NoResource
    }
}

impl<T: Drop> From<AllocFailed<T>> for Fault {
    ghost use Rattle.std.specs.Prelude.{◌≡◌};
    ghost use Rattle.page.specs.declared.fault.Fault.TheVariants.{NoResource};

    ghost from_gives = { λ _ e. e ≡ NoResource };

    fn from(_e: AllocFailed<T>) -> Fault {
        Fault::NoResource
    }
}
