//! A log's device that is read once more: to its end before a fault is returned, since a failure of
//! the device comes first, and for the sums of the log's end.

ghost use Rattle.std.specs.Prelude.{◌≡◌, ◌≢◌, ◌<◌, ◌≤◌, ◌+◌, ◌^◌, ◌⊎◌, length, IfOk, IfErr, OnOk, IsOkUnless};
ghost use Rattle.std.specs.Io.KnownBytes.{Keeps};
ghost use Rattle.device.specs.Rereading.{StaysRead};
ghost use Rattle.page.specs.declared.fault.Fault.TheVariants.{NoResource, ReadLog, ReadStore};
ghost use Rattle.recovery.specs.TailFile.{IsEndSum, IsSumOn, sum_of};
ghost use Rattle.recovery.specs.ByPieces.{OnceLogRead, IsLogRead, fault_of};
ghost use Rattle.recovery.specs.declared.log_again.TheConstants.{ROOM};
ghost use Rattle.recovery.specs.Copying.{IsOfRereading};
ghost use Rattle.recovery.specs.Calls.{Blames, FailsMore, ForHeld, ForKept, ForPiece, ForPieceHeld, ForRest};

use crate::reading::read_from;
use crate::tail_file::{END_BYTES, SUM_OF_NONE, sum_on};
use device::Reread;
use page::Fault;
use passes::PassFault;
use std::alloc::Global;
use wal::{BASED_HEADER_BYTES, LONGEST_FRAME};

/// How many bytes of frames are read at once: 256 KiB, or so many times 256 KiB that the longest
/// frame fits.
const FRAMES: usize = (1 << 18) * (1 + LONGEST_FRAME / (1 << 18));

/// How many bytes of a log are in memory at once: the frames, and a header before them.
pub const ROOM: usize = BASED_HEADER_BYTES + FRAMES;

/// A log that is read in pieces has fewer bytes than the sum of this and the length of the room.
const LONGEST_LOG: u64 = 1 << 63;

/// Room for the pieces of a log. The only error is `NoResource`.
pub fn room_for_log(alloc: Global) -> Result<Vec<u8>, Fault>
    ensures room { IfOk result (λ room. length room.items ≡ ROOM) }
    ensures err { IsOkUnless result NoResource }
{
    Ok(vec![in alloc; 0; ROOM]?)
}

/// The fault with which a pass over a log stopped. A pass names only one device, that of the log,
/// and it does so with `Failed`.
pub fn fault_of(stopped: PassFault) -> Fault
    ensures { result ≡ fault_of stopped }
{
    match stopped {
        PassFault::Failed => Fault::ReadLog,
        PassFault::Fault(Fault::ReadLog) => Fault::NoResource,
        PassFault::Fault(Fault::ReadStore) => Fault::NoResource,
        PassFault::Fault(Fault::WriteLog) => Fault::NoResource,
        PassFault::Fault(Fault::WriteStore) => Fault::NoResource,
        PassFault::Fault(fault) => fault,
    }
}

/// Reads a log's device from its beginning to its end without looking at the bytes: if it fails,
/// that is found before anything else. The only error is `ReadLog`. No device holds 2^63 bytes; of
/// one that did, as many are read.
pub fn read_through<L: Reread>(log: &mut L, room: &mut [u8]) -> Result<(), Fault>
    requires some { 0 < length room.old }
    requires few { length room.old ≤ ROOM }
    ensures read { OnOk result (IsLogRead (L.text log.old) (L.read_to log.new)) }
    ensures same { Keeps (L.text log.old) (L.text log.new) }
    ensures fault { IfErr result (λ e. e ≡ ReadLog) }
    ensures cause { Blames ReadLog L.failures log.old log.new result }
{
    let mut offset: u64 = 0;
    while offset < LONGEST_LOG {
        let count = read_from(log, offset, room, Fault::ReadLog)?;
        if count < room.len() {
            return Ok(());
        }
        offset += room.len() as u64;
    }
    Ok(())
}

/// The fault to return for this one. A failure of a log's device comes first, so the device is read
/// to its end: `ReadLog` if it fails there, otherwise the fault as it was.
pub fn first_fault<L: Reread>(log: &mut L, fault: Fault, room: &mut [u8]) -> Fault
    requires some { 0 < length room.old }
    requires few { length room.old ≤ ROOM }
    ensures fault { (result ≡ ReadLog) ⊎ (result ≡ fault) }
    ensures read { OnceLogRead (IsLogRead (L.text log.old) (L.read_to log.new)) result }
    ensures unread { fault ≡ ReadLog → log.new ≡ log.old }
    ensures blamed { fault ≢ ReadLog → result ≡ ReadLog
        → L.failures log.new ≡ L.failures log.old + 1 }
    ensures innocent { result ≢ ReadLog → L.failures log.new ≡ L.failures log.old }
{
    match fault {
        Fault::ReadLog => Fault::ReadLog,
        other => match read_through(log, room) {
            Ok(()) => other,
            Err(first) => first,
        },
    }
}

/// The fault after a pass over a log that stopped: that of the log's device, if it fails while it
/// is read to its end, otherwise that of the pass.
pub fn fault_after<L: Reread>(log: &mut L, stopped: PassFault, room: &mut [u8]) -> Fault
    requires { length room.old ≡ ROOM }
    ensures fault { (result ≡ ReadLog) ⊎ (result ≡ fault_of stopped) }
    ensures read { OnceLogRead (IsLogRead (L.text log.old) (L.read_to log.new)) result }
    // The pass may have counted a failure already.
    ensures blamed { result ≡ ReadLog → FailsMore L.failures log.old log.new stopped 1 }
    ensures innocent { result ≢ ReadLog → FailsMore L.failures log.old log.new stopped 0 }
{
    first_fault(log, fault_of(stopped), room)
}

/// The sum of some bytes followed by those that a log's device holds from an offset on, as many as
/// the room takes. They are read again: `BadLsn` with the offset if the device no longer holds them
/// all.
fn sum_piece<L: Reread>(log: &mut L, sum: u64, offset: u64, room: &mut [u8]) -> Result<u64, Fault>
    requires { offset + length room.old ≤ 2 ^ 64 }
    ensures sum { IfOk result (λ more. ForPiece (L.text log.old) offset room.old
        (IsSumOn sum more)) }
    ensures fault { IfErr result (λ e. ForPieceHeld (L.text log.old) offset room.old
        (e ≡ ReadLog)) }
    ensures named { IfErr result IsOfRereading }
    ensures same { Keeps (L.text log.old) (L.text log.new) }
    ensures grows { StaysRead L.text L.read_to log.old log.new }
    ensures cause { Blames ReadLog L.failures log.old log.new result }
{
    let count = read_from(log, offset, room, Fault::ReadLog)?;
    if count < room.len() {
        return Err(Fault::BadLsn(offset));
    }
    Ok(sum_on(sum, room))
}

/// The sum of the last [`END_BYTES`](crate::tail_file::END_BYTES) of a log that are kept, or of all
/// if there are fewer. They are read again: `BadLsn` with their offset if the device no longer
/// holds them all.
pub fn sum_of_kept<L: Reread>(log: &mut L, kept: u64, room: &mut [u8]) -> Result<u64, Fault>
    requires { length room.old ≡ ROOM }
    ensures sum { IfOk result (λ sum. ForKept (L.text log.old) kept (IsEndSum sum)) }
    ensures fault { IfErr result (λ e. ForHeld (L.text log.old) kept (e ≡ ReadLog)) }
    ensures named { IfErr result IsOfRereading }
    ensures same { Keeps (L.text log.old) (L.text log.new) }
    ensures grows { StaysRead L.text L.read_to log.old log.new }
    ensures cause { Blames ReadLog L.failures log.old log.new result }
{
    let offset = kept.saturating_sub(END_BYTES as u64);
    let wanted = (kept - offset) as usize;
    let sum = sum_piece(log, SUM_OF_NONE, offset, &mut room[..wanted])?;
    Ok(sum)
}

/// The sum of the bytes of a log after those that are kept, up to this length. They are read again,
/// a piece at a time: `BadLsn` with an offset if the device no longer holds the bytes after it.
pub fn sum_of_cut<L: Reread>(
    log: &mut L,
    kept: u64,
    end: u64,
    room: &mut [u8],
) -> Result<u64, Fault>
    requires { length room.old ≡ ROOM }
    ensures sum { IfOk result (λ sum. ForRest (L.text log.old) kept end
        (λ cut. sum ≡ sum_of cut)) }
    ensures fault { IfErr result (λ e. ForHeld (L.text log.old) end (e ≡ ReadLog)) }
    ensures named { IfErr result IsOfRereading }
    ensures grows { StaysRead L.text L.read_to log.old log.new }
    ensures cause { Blames ReadLog L.failures log.old log.new result }
{
    let mut sum = SUM_OF_NONE;
    let mut offset = kept;
    while offset < end {
        let wanted = (end - offset).min(ROOM as u64) as usize;
        sum = sum_piece(log, sum, offset, &mut room[..wanted])?;
        offset += wanted as u64;
    }
    Ok(sum)
}
