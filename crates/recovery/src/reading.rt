//! A device that is read at offsets: the bytes that it holds from one offset on.

ghost use Rattle.std.specs.Prelude.{◌≡◌, ◌+◌, ◌^◌, ◌≤◌, length, IfOk, IfErr};
ghost use Rattle.std.specs.Io.KnownBytes.{Keeps};
ghost use Rattle.device.specs.Reread.{ReadsFrom};
ghost use Rattle.device.specs.Rereading.{ReadsOn, StaysRead};
ghost use Rattle.recovery.specs.Calls.{Blames, IsShortAtEnd};

use device::{Failed, Reread, read_full_at};
use page::Fault;

/// The bytes that a device holds from an offset on: as many as there is room for, fewer only at its
/// end. `fault` if the device failed.
pub fn read_from<R: Reread>(
    source: &mut R,
    offset: u64,
    buffer: &mut [u8],
    fault: Fault,
) -> Result<usize, Fault>
    requires { offset + length buffer.old ≤ 2 ^ 64 }
    ensures within { IfOk result (λ count. count ≤ length buffer.new) }
    ensures bytes { IfOk result (λ count. ReadsFrom (R.text source.old) offset count buffer.new) }
    ensures end { IfOk result (IsShortAtEnd (R.text source.old) offset buffer.new) }
    ensures same { Keeps (R.text source.old) (R.text source.new) }
    ensures grows { StaysRead R.text R.read_to source.old source.new }
    ensures joins { ReadsOn R.text R.read_to source.old source.new offset result }
    ensures fault { IfErr result (λ e. e ≡ fault) }
    ensures cause { Blames fault R.failures source.old source.new result }
{
    match read_full_at(source, offset, buffer) {
        Ok(count) => Ok(count),
        Err(Failed) => Err(fault),
    }
}
