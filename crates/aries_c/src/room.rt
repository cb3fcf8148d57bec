//! Buffers of the caller.

ghost use Rattle.std.specs.Prelude.{◌≡◌, ◌≤◌, ◌++◌, drop, length};
ghost use Rattle.aries_c.specs.Fault.{no_room, OnDone, OnFailed};
ghost use Rattle.aries_c.specs.Writing.{IsAnswer, LeavesShort};

use crate::Fault;

/// Writes a text to the front of a buffer, and returns its length in bytes in `told`. If the buffer
/// is too short it is left as it is, and the number is 64.
pub fn put(text: &[u8], out: &mut [u8], told: &mut usize) -> Fault
    ensures told { told.new ≡ length text.now }
    ensures written { OnDone result (out.new ≡ text.now ++ drop (length text.now) out.old) }
    ensures answer { IsAnswer result }
    ensures short { OnFailed result ((result ≡ no_room) × LeavesShort text.now out.old out.new) }
{
    *told = text.len();
    if out.len() < text.len() {
        return Fault::no_room();
    }
    copy_to(text, out);
    Fault::none()
}

/// Writes a text to the front of a buffer.
pub fn copy_to(text: &[u8], out: &mut [u8])
    requires { length text.now ≤ length out.old }
    ensures { out.new ≡ text.now ++ drop (length text.now) out.old }
{
    out[..text.len()].copy_from_slice(text);
}
