//! The error of a call, as C gets it.

ghost use Rattle.std.specs.Prelude.{◌≡◌};
ghost use Rattle.aries_c.specs.Fault.{place_of, told_of, done, no_memory, no_room, not_writable};

use std::alloc::{AllocError, AllocFailed};

/// The number for a buffer that is too short.
pub const NO_ROOM: u32 = 64;

/// The number for what has no encoding, or is not where it is asked for.
pub const NOT_WRITABLE: u32 = 65;

/// What a call returns: the number of a fault, 0 if there is none, and the place of the fault, 0 if
/// it has none: an offset in the log in bytes (7 to 9), an LSN (14, 16, 20 to 25) or a page (12,
/// 15, 26, 28).
#[repr(C)]
#[derive(Clone, Copy)]
pub struct Fault {
    pub number: u32,
    pub place: u64,
}

impl Fault {
    /// No fault: the call succeeded.
    pub fn none() -> Fault
        ensures { result ≡ done }
    {
        Fault {
            number: 0,
            place: 0,
        }
    }

    /// A buffer is too short.
    pub fn no_room() -> Fault
        ensures { result ≡ no_room }
    {
        Fault {
            number: NO_ROOM,
            place: 0,
        }
    }

    /// What is named has no encoding, or is not there.
    pub fn not_writable() -> Fault
        ensures { result ≡ not_writable }
    {
        Fault {
            number: NOT_WRITABLE,
            place: 0,
        }
    }
}

impl From<page::Fault> for Fault {
    ghost use Rattle.std.specs.Prelude.{◌≡◌};
    ghost use Rattle.aries_c.specs.Fault.{told_of};

    ghost from_gives = { λ fault told. told ≡ told_of fault };

    fn from(fault: page::Fault) -> Fault {
        Fault {
            number: fault.number() as u32,
            place: place_of(fault),
        }
    }
}

impl From<AllocError> for Fault {
    ghost use Rattle.std.specs.Prelude.{◌≡◌};
    ghost use Rattle.aries_c.specs.Fault.{no_memory};

    ghost from_gives = { λ _ told. told ≡ no_memory };

    fn from(_e: AllocError) -> Fault {
        Fault {
            number: 1,
            place: 0,
        }
    }
}

impl<T: Drop> From<AllocFailed<T>> for Fault {
    ghost use Rattle.std.specs.Prelude.{◌≡◌};
    ghost use Rattle.aries_c.specs.Fault.{no_memory};

    ghost from_gives = { λ _ told. told ≡ no_memory };

    fn from(_e: AllocFailed<T>) -> Fault {
        Fault {
            number: 1,
            place: 0,
        }
    }
}

/// The place that a fault carries, 0 if it carries none.
fn place_of(fault: page::Fault) -> u64
    ensures { result ≡ place_of fault }
{
    match fault {
        page::Fault::NoResource
        | page::Fault::ReadLog
        | page::Fault::ReadStore
        | page::Fault::WriteLog
        | page::Fault::WriteStore
        | page::Fault::BadLogHeader
        | page::Fault::BadStoreHeader
        | page::Fault::StoreSize
        | page::Fault::BadMaster
        | page::Fault::BadParting
        | page::Fault::BadWorkers
        | page::Fault::TransactionTable
        | page::Fault::BadBase => 0,
        page::Fault::BadLength(place)
        | page::Fault::BadRecord(place)
        | page::Fault::BadLsn(place)
        | page::Fault::NoSuchPage(place)
        | page::Fault::BrokenChain(place)
        | page::Fault::Chain(place)
        | page::Fault::AfterFinish(place)
        | page::Fault::WrongCompensation(place)
        | page::Fault::BeforeImage(place)
        | page::Fault::DirtyWrite(place)
        | page::Fault::EndTooEarly(place) => place,
        page::Fault::BadPage(page)
        | page::Fault::PageAheadOfLog(page)
        | page::Fault::PageImage(page)
        | page::Fault::DirtyTable(page) => page as u64,
    }
}
