//! The entries of a journal's arrays.

ghost use Rattle.std.specs.Prelude.{◌≡◌};
ghost use Rattle.journal.specs.Arrays.{entry_in};

use crate::image::Image;
use crate::table::state_named;
use page::SLOTS;
use wal::Entry;

/// What a journal keeps besides its arrays.
#[repr(C)]
#[derive(Clone, Copy)]
pub struct Head {
    /// The LSN of the log's last record; the base LSN if the log has no record.
    pub last: u64,
    /// The log is known to be on the disk up to this LSN: that of its last record at the opening,
    /// or a larger one that [`log_written`](crate::log_written) reported.
    pub written: u64,
    /// How many transactions have begun and not finished. Their entries are the first ones of the
    /// array.
    pub transactions: usize,
    /// How many entries of the array of pending updates are in use, from the first one on. Entries
    /// that are not needed any more are in use until [`update`](crate::update) removes them.
    pub pending: usize,
    /// The number that the next transaction gets.
    pub next: u32,
}

/// A transaction that has begun and not finished. The entries are in ascending order of number.
#[repr(C)]
#[derive(Clone, Copy)]
pub struct TransactionEntry {
    /// LastLSN: the LSN of its last record, 0 if it has none.
    pub last: u64,
    /// UndoNxtLSN, as in the transaction table of a checkpoint; 0 for none.
    pub undo_next: u64,
    /// Its pending updates are in the array of pending updates, before this place.
    pub below: usize,
    /// Its number, from 1.
    pub tx: u32,
    /// Its state: 0 active, 1 aborting, 2 prepared.
    pub state: u8,
}

/// A pending update, which no CLR has undone, with what its CLR will contain. An entry of
/// transaction 0, or of a finished transaction, is not needed any more.
#[repr(C)]
#[derive(Clone, Copy)]
pub struct PendingEntry {
    /// Its LSN.
    pub lsn: u64,
    /// Its PrevLSN, which is the UndoNxtLSN of its CLR.
    pub prev: u64,
    /// Its transaction; 0 after it was undone.
    pub tx: u32,
    /// The page that it changed.
    pub page: u32,
    /// The slot that it changed.
    pub slot: u8,
    /// What the slot held before.
    pub before: Image,
}

/// A page as plain data.
#[repr(C)]
#[derive(Clone, Copy)]
pub struct PageImage {
    /// PageLSN: the LSN of the last change that it has, or that of its base page.
    pub lsn: u64,
    /// Its number, from 0.
    pub number: u32,
    /// What its slots hold.
    pub slots: [Image; SLOTS],
}

/// What a journal keeps of a page.
#[repr(C)]
#[derive(Clone, Copy)]
pub struct PageEntry {
    /// RecLSN: the disk is known to have all changes of the page before this LSN. 0 if it is known
    /// to have all of them.
    pub rec_lsn: u64,
    /// For each slot, the transaction of its last update or CLR in the log; 0 if there is none.
    pub writers: [u32; SLOTS],
    /// The page as the log has made it so far. It comes last: so its PageLSN and the other fields, which
    /// an update changes, are in two lines of the processor's cache.
    pub page: PageImage,
}

impl TransactionEntry {
    /// Its entry in the transaction table of a checkpoint.
    pub fn entry(&self) -> Entry
        ensures { result ≡ entry_in self.now }
    {
        Entry {
            state: state_named(self.state),
            last: self.last,
            undo_next: self.undo_next,
        }
    }

    /// An entry that is not in use.
    pub fn blank() -> TransactionEntry {
        TransactionEntry {
            last: 0,
            undo_next: 0,
            below: 0,
            tx: 0,
            state: 0,
        }
    }
}

impl PendingEntry {
    /// An entry that is not in use.
    pub fn blank() -> PendingEntry {
        PendingEntry {
            lsn: 0,
            prev: 0,
            tx: 0,
            page: 0,
            slot: 0,
            before: Image::absent(),
        }
    }
}

impl PageEntry {
    /// An entry for a page that is filled in later, by [`new`](crate::new) or
    /// [`open`](crate::open).
    pub fn blank() -> PageEntry {
        PageEntry {
            rec_lsn: 0,
            writers: [0; SLOTS],
            page: PageImage {
                lsn: 0,
                number: 0,
                slots: [Image::absent(); SLOTS],
            },
        }
    }
}
