//! The refusals of a journal, as C gets them.

ghost use Rattle.std.specs.Prelude.{◌≡◌, ℕ, true, is_ok};
ghost use Rattle.aries_c.specs.Fault.{OnDone, OnFailed};
ghost use Rattle.aries_c.specs.Journaling.{refusal_told, Refuses, RefusesFrame};

use crate::Fault;
use crate::checkpoint::state_number;
use journal::Refusal;

/// This number at this place.
fn at(number: u32, place: u64) -> Fault
    ensures { result ≡ record { number = number; place = place } }
{
    Fault { number, place }
}

/// The number of a refusal, and its place, 0 if it has none.
pub fn refused(refusal: Refusal) -> Fault
    ensures { result ≡ refusal_told refusal }
{
    match refusal {
        Refusal::NoResource => at(1, 0),
        Refusal::NoFrameRoom(_) => Fault::no_room(),
        Refusal::BadImage => Fault::not_writable(),
        Refusal::UnknownTransaction => at(70, 0),
        Refusal::Forbidden(state) => at(71, state_number(state) as u64),
        Refusal::NoSuchPage => at(72, 0),
        Refusal::NoSuchSlot => at(73, 0),
        Refusal::Held(tx) => at(74, tx as u64),
        Refusal::NothingToUndo => at(75, 0),
        Refusal::StillPending => at(76, 0),
        Refusal::TooManyTransactions => at(77, 0),
        Refusal::NoNumber => at(78, 0),
        Refusal::NoSuchLsn => at(79, 0),
        Refusal::LogNotWritten(lsn) => at(80, lsn),
        Refusal::NoPendingRoom => at(81, 0),
        Refusal::LogFull => at(82, 0),
        Refusal::BadArrays => at(83, 0),
        Refusal::HasRecords => at(84, 0),
        Refusal::HasMaster => at(85, 0),
        Refusal::PageAhead => at(86, 0),
        Refusal::PageBehind(page) => at(87, page as u64),
    }
}

impl From<Refusal> for Fault {
    ghost use Rattle.std.specs.Prelude.{◌≡◌};
    ghost use Rattle.aries_c.specs.Journaling.{refusal_told};

    ghost from_gives = { λ refusal fault. fault ≡ refusal_told refusal };

    fn from(refusal: Refusal) -> Fault {
        refused(refusal)
    }
}

/// What a call that writes no frame returns.
pub fn answer(done: Result<(), Refusal>) -> Fault
    ensures done { OnDone result (is_ok done ≡ true) }
    ensures failed { OnFailed result (Refuses (λ e. done ≡ Err e) result) }
{
    match done {
        Ok(()) => Fault::none(),
        Err(refusal) => refused(refusal),
    }
}

/// What a call that writes frames returns. It writes their length to `told`, also if the buffer is
/// too short for them.
pub fn frame_answer(written: Result<usize, Refusal>, told: &mut usize) -> Fault
    ensures done { OnDone result ((size : ℕ) × (written ≡ Ok size) × (told.new ≡ size)) }
    ensures failed { OnFailed result (RefusesFrame (λ e. written ≡ Err e) result told.old told.new) }
{
    match written {
        Ok(size) => {
            *told = size;
            Fault::none()
        }
        Err(refusal) => {
            if let Refusal::NoFrameRoom(size) = refusal {
                *told = size;
            }
            refused(refusal)
        }
    }
}
