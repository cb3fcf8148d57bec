//! The tallies of two stretches of a log, joined in the order of the log.

ghost use Rattle.std.specs.Prelude.{◌≡◌, ℕ, ◌<◌, length, OnOk, IsOkUnless};
ghost use Rattle.page.specs.declared.fault.Fault.TheVariants.{NoResource};
ghost use Rattle.redo.specs.Joined.{HaveRoom, JoinsEach, JoinsSome};

use crate::tally_table::TallyTable;
use page::Fault;

/// Joins the tallies of all pages with those of a later stretch. The only error is `NoResource`.
/// Some of the pages are joined then, and the others are not.
pub fn join_each(tallies: &mut TallyTable, redo_lsn: u64, later: &TallyTable) -> Result<(), Fault>
    requires pages { length later.now ≡ length tallies.old }
    requires room { (k : ℕ) → k < length tallies.old → HaveRoom k tallies.old later.now }
    ensures count { length tallies.new ≡ length tallies.old }
    ensures joined { OnOk result (JoinsEach redo_lsn tallies.old later.now tallies.new) }
    ensures each { JoinsSome redo_lsn tallies.old later.now tallies.new }
    ensures err { IsOkUnless result NoResource }
{
    for number in 0..tallies.len() {
        tallies.join(number, redo_lsn, later)?;
    }
    Ok(())
}
