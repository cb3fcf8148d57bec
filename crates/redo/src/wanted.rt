//! The records whose images redo fetches after all records are counted.

ghost use Rattle.std.specs.Prelude.{◌↔◌, ◌⊎◌, OnOk, Contains, IsOkUnless};
ghost use Rattle.page.specs.declared.fault.Fault.TheVariants.{NoResource};
ghost use Rattle.redo.specs.Wanted.{IsLastIn};

use page::{Fault, SLOTS};

/// A record whose image redo puts into a slot of a page: the last one that was applied there.
#[derive(Clone, Copy, PartialEq, Eq)]
pub struct Wanted {
    /// The record's LSN, which is not 0.
    pub lsn: u64,
    /// The number of the page.
    pub page: u32,
    /// The slot in the page.
    pub slot: u8,
}

/// Adds, after others, the records that are the last in the slots of a page. `lasts` has their LSNs
/// by slot, 0 for none. The only error is `NoResource`.
pub fn want_slots(page: u32, lasts: &[u64; SLOTS], wanted: &mut Vec<Wanted>) -> Result<(), Fault>
    ensures each { OnOk result ((w : Wanted) → Contains wanted.new.items w
        ↔ (Contains wanted.old.items w ⊎ IsLastIn page lasts.now w)) }
    ensures err { IsOkUnless result NoResource }
{
    for slot in 0..SLOTS {
        let lsn = lasts[slot];
        if lsn != 0 {
            let slot = slot as u8;
            wanted.push(Wanted { lsn, page, slot })?;
        }
    }
    Ok(())
}
