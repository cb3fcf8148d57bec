//! The last records of the pages to which records were applied, each page at its place.

ghost use Rattle.std.specs.Prelude.{◌≡◌, ◌+◌, ◌≤◌, ◌++◌, [], ◌∷◌, length, IfOk, OnOk, OnErr, IsOkUnless};
ghost use Rattle.page.specs.declared.fault.Fault.TheVariants.{NoResource};
ghost use Rattle.page.specs.declared.profile.TheConstants.{SLOTS};
ghost use Rattle.redo.specs.Joined.{lasts_joined, place_joined, kept_joined};

use page::{Fault, SLOTS};

/// How many slots a page has. A function of its own, as `count_slots`.
pub fn count_lasts(lasts: &[u64; SLOTS]) -> usize
    ensures { length lasts.now ≡ SLOTS }
{
    lasts.len()
}

/// Adds the last records of a page after others. Returns their place, counted from 1. The only
/// error is `NoResource`; nothing has changed then.
pub fn keep(kept: &mut Vec<[u64; SLOTS]>, lasts: [u64; SLOTS]) -> Result<u32, Fault>
    ensures kept { OnOk result (kept.new.items ≡ kept.old.items ++ lasts ∷ []) }
    ensures place { IfOk result (λ place. place ≡ length kept.old.items + 1) }
    ensures same { OnErr result (kept.new.items ≡ kept.old.items) }
    ensures err { IsOkUnless result NoResource }
{
    let count = kept.len();
    if count >= u32::MAX as usize {
        return Err(Fault::NoResource);
    }
    kept.push(lasts)?;
    Ok(count as u32 + 1)
}

/// Joins the last records of a page with those of a later stretch: in each slot the later one
/// stays, if there is one.
pub fn join_lasts(lasts: &mut [u64; SLOTS], later: &[u64; SLOTS])
    ensures { lasts.new ≡ lasts_joined lasts.old later.now }
{
    for slot in 0..SLOTS {
        let lsn = later[slot];
        if lsn != 0 {
            lasts[slot] = lsn;
        }
    }
}

/// Joins the last records of a page at its place with those of a later stretch of the log; if it
/// has no place, it takes one. Returns its place. The only error is `NoResource`; nothing has
/// changed then.
pub fn keep_joined(
    kept: &mut Vec<[u64; SLOTS]>,
    place: u32,
    later: &[u64; SLOTS],
) -> Result<u32, Fault>
    requires { place ≤ length kept.old.items }
    ensures place { IfOk result (λ new. new ≡ place_joined place (length kept.old.items)) }
    ensures kept { OnOk result (kept.new.items ≡ kept_joined place later.now kept.old.items) }
    ensures slots { length later.now ≡ SLOTS }
    ensures same { OnErr result (kept.new.items ≡ kept.old.items) }
    ensures err { IsOkUnless result NoResource }
{
    // For the proof: how many slots a page has.
    let _lasts = count_lasts(later);
    if place == 0 {
        return keep(kept, *later);
    }
    join_lasts(&mut kept[place as usize - 1], later);
    Ok(place)
}
