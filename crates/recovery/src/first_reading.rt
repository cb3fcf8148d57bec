//! The first readings of a recovery in pieces: the store, to its end, and then the log. A failure of
//! the log's device comes before all other faults of reading.

ghost use Rattle.std.specs.Prelude.{◌≡◌, ◌⊎◌, length, IfOk, IfErr, OnOk};
ghost use Rattle.std.specs.Io.KnownBytes.{IsAtEnd, Keeps};
ghost use Rattle.std.specs.Option.{ForSome};
ghost use Rattle.device.specs.Reread.{IsReadThrough};
ghost use Rattle.page.specs.declared.fault.Fault.TheVariants.{ReadLog, ReadStore};
ghost use Rattle.held_store.specs.Held.{held_text};
ghost use Rattle.recovery.specs.Devices.{Gave, IsFaultOf};
ghost use Rattle.recovery.specs.ByPieces.{IsLog, IsLogRead, IsOfLog, LogCause, OnceLogRead, StoreFails};
ghost use Rattle.recovery.specs.Calls.{Blames};
ghost use Rattle.recovery.specs.StoreChanges.{AreDecodedLsns};
ghost use Rattle.recovery.specs.declared.log_again.TheConstants.{ROOM};
ghost use Rattle.recovery.specs.declared.store_pieces.TheConstants.{PIECE};

use crate::log_again::{fault_after, first_fault};
use crate::store_changes::{DecodedLsns, read_lsns};
use device::{ReadFault, Reread, Source};
use held_store::HeldStore;
use page::Fault;
use passes::find_marks;
use std::alloc::Global;

/// How many bytes of a log are in memory at once if it is read only because its device may fail.
const SMALL_ROOM: usize = 1 << 12;

/// Reads all bytes that a store's source has left into memory, before its log is read. Then they
/// can be read again, without a failure. Memory is taken as bytes come.
///
/// The errors are: `ReadLog`, if the store's source failed, or memory was refused, and `log` fails
/// too when it is read to its end; `ReadStore`, if the source failed; `NoResource`, if memory was
/// refused.
pub fn hold_store<L: Reread, S: Source>(
    alloc: Global,
    log: &mut L,
    store: &mut S,
) -> Result<HeldStore, Fault>
    ensures gave { IfOk result (λ held. Gave (S.left store.old) (held_text held)) }
    ensures end { OnOk result (IsAtEnd (S.left store.new)) }
    ensures log_unread { OnOk result (log.new ≡ log.old) }
    ensures log_read { IfErr result
        (OnceLogRead (IsLogRead (L.text log.old) (L.read_to log.new))) }
    ensures fault { IfErr result (λ e. (e ≡ ReadLog) ⊎ IsFaultOf ReadStore e) }
    ensures log_source { Blames ReadLog L.failures log.old log.new result }
    ensures store_source { StoreFails result (S.failures store.old) (S.failures store.new) }
{
    let fault = match HeldStore::read(alloc, store) {
        Ok(held) => return Ok(held),
        Err(ReadFault::Failed) => Fault::ReadStore,
        Err(ReadFault::NoMemory) => Fault::NoResource,
    };
    Err(first_fault(log, fault, &mut [0; SMALL_ROOM]))
}

/// Reads the PageLSNs of a store before its log: the store's device is read from its beginning to
/// its end, and still holds the same bytes afterwards. Returns what the bytes encode, or their
/// error. If the device failed, or memory was refused, a failure of the log's device comes first.
pub fn read_store_first<L: Reread, R: Reread>(
    alloc: Global,
    log: &mut L,
    store: &mut R,
    room: &mut [u8],
    pieces: &mut [u8],
) -> Result<DecodedLsns, Fault>
    requires room { length room.old ≡ ROOM }
    requires pieces { length pieces.old ≡ PIECE }
    ensures read { IfOk result (AreDecodedLsns (R.text store.old)) }
    ensures end { OnOk result (IsReadThrough (R.text store.old) (R.read_to store.new)) }
    ensures kept { OnOk result (Keeps (R.text store.old) (R.text store.new)) }
    ensures log_unread { OnOk result (log.new ≡ log.old) }
    ensures log_read { IfErr result
        (OnceLogRead (IsLogRead (L.text log.old) (L.read_to log.new))) }
    ensures fault { IfErr result (λ e. (e ≡ ReadLog) ⊎ IsFaultOf ReadStore e) }
    ensures log_source { Blames ReadLog L.failures log.old log.new result }
    ensures store_source { StoreFails result (R.failures store.old) (R.failures store.new) }
{
    match read_lsns(alloc, store, pieces) {
        Ok(decoded) => Ok(decoded),
        Err(fault) => Err(first_fault(log, fault, room)),
    }
}

/// The fault of a log, if its device or its bytes have one; `NoResource` if memory was refused. If
/// there is none, the device was read to its end.
pub fn check_log<L: Reread>(alloc: Global, log: &mut L, room: &mut [u8]) -> Result<(), Fault>
    requires { length room.old ≡ ROOM }
    ensures reads { OnOk result (ForSome (L.text log.old) IsLog) }
    ensures same { OnOk result (Keeps (L.text log.old) (L.text log.new)) }
    ensures end { OnOk result (IsReadThrough (L.text log.old) (L.read_to log.new)) }
    ensures read { IfErr result
        (OnceLogRead (IsLogRead (L.text log.old) (L.read_to log.new))) }
    ensures fault { IfErr result (LogCause (L.text log.old)) }
    ensures named { IfErr result IsOfLog }
    ensures cause { Blames ReadLog L.failures log.old log.new result }
{
    let _found = match find_marks(alloc, log, room) {
        Ok(found) => found,
        Err(stopped) => return Err(fault_after(log, stopped, room)),
    };
    Ok(())
}
