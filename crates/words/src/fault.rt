//! How a run ends that returns a fault.

ghost use Rattle.std.specs.Prelude.{◌≡◌};

use page::Fault;
use std::io::Write;

/// Prints the line of a fault and returns its status.
pub fn refuse<E: Write>(fault: Fault, err: &mut E) -> u8
    ensures { result ≡ 1 }
{
    let number = fault.number();
    let _ = writeln!(err, "fault {number}: {fault}");
    1
}
