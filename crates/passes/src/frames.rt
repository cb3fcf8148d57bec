//! The frames of a piece, read one after another while a pass looks at their records.

ghost use Rattle.std.specs.Prelude.{◌≡◌, ◌+◌, ◌<◌, ◌≤◌, ◌^◌, take, length, IfOk, IfErr, OnOk};
ghost use Rattle.log_laws.specs.declared.start.LogStart.TheVariants.{Version2};
ghost use Rattle.wal.specs.Headers.{header_of};
ghost use Rattle.wal.specs.declared.sizes.TheConstants.{BASED_HEADER_BYTES, LARGEST_BASE};
ghost use Rattle.passes.specs.Passes.{ReadsOver, StopsOver};

use crate::pass::Pass;
use page::Fault;
use pieces::{Mark, moved};
use wal::{BASED_HEADER_BYTES, seen_at};

/// Reads the frames of a piece after a mark, each once, and gives their records to a pass. The piece
/// is the header of a log that continues after the mark, and bytes of the log. Returns the LSN of
/// the last record, and how many bytes come after it.
///
/// Errors: those of [`read_log`](wal::read_log) for the piece, with offsets that count from the
/// log's beginning, and those of the pass. The pass has then looked at the records before.
pub fn pass_over<P: Pass>(mark: Mark, piece: &[u8], pass: &mut P) -> Result<(u64, usize), Fault>
    requires header { take BASED_HEADER_BYTES piece.now ≡ header_of (Version2 mark.lsn) }
    requires low { mark.lsn ≤ LARGEST_BASE }
    requires reach { mark.offset + length piece.now < 2 ^ 64 }
    requires ready { P.is_ready pass.old mark.lsn }
    ensures rises { IfOk result (λ x. mark.lsn ≤ x.0) }
    ensures ready { IfOk result (λ x. P.is_ready pass.new x.0) }
    ensures keeps { OnOk result (P.keeps pass.old pass.new) }
    ensures read { IfOk result (λ x. ReadsOver P.Pass piece.now pass.old pass.new x.0 x.1) }
    ensures fault { IfErr result (StopsOver P.Pass piece.now mark pass.old) }
{
    // For the proof: how many bytes there can be.
    let _len = piece.len();
    let mut lsn = mark.lsn;
    let mut end = BASED_HEADER_BYTES;
    loop {
        let (_, rest) = piece.split_at(end);
        let found = match seen_at(lsn + 1, end, rest) {
            Ok(found) => found,
            Err(fault) => return Err(moved(mark, fault)),
        };
        let Some((size, glance)) = found else {
            return Ok((lsn, rest.len()));
        };
        let (_, behind) = rest.split_at(4);
        let (body, _) = behind.split_at(size - 4);
        pass.look_at(lsn, glance, body)?;
        lsn += 1;
        end += size;
    }
}
