//! A mark for each range that a seat knows as ended.

ghost use Rattle.std.specs.Prelude.{◌≡◌, ℕ, ◌<◌, false, ◌||◌, replicate, slice_index_or};
ghost use Rattle.board.specs.declared.sizes.TheConstants.{SEATS};

use crate::sizes::SEATS;

/// No range is marked.
pub(crate) fn no_ends() -> [bool; SEATS]
    ensures { result ≡ replicate SEATS false }
{
    [false; SEATS]
}

/// The ranges that are marked in one or the other.
pub(crate) fn either_of(first: &[bool; SEATS], second: &[bool; SEATS]) -> [bool; SEATS]
    ensures { (r : ℕ) → r < SEATS → slice_index_or result r false
        ≡ (slice_index_or first.now r false || slice_index_or second.now r false) }
{
    let mut both = *first;
    for range in 0..64 {
        if second[range] {
            both[range] = true;
        }
    }
    both
}
