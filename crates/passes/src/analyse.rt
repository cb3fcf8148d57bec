//! Analysis of a log that a device holds: the tables of a crash, found piece after piece.

ghost use Rattle.std.specs.Prelude.{◌≡◌, ◌≤◌, ⊤, length, IfOk, IfErr, None};
ghost use Rattle.page.specs.declared.fault.Fault.TheVariants.{NoResource};
ghost use Rattle.wal.specs.declared.sizes.TheConstants.{LARGEST_BASE};
ghost use Rattle.analysis.specs.Tables.{entry_at};
ghost use Rattle.passes.specs.Marks.{IsLow};
ghost use Rattle.analysis.specs.Passing.{HasNone0, AreWithout0};
ghost use Rattle.passes.specs.Tables.{SeesOn, NotesOn, AreBaseTables, AreTablesIn, AreTrueIn, TablesCauseIn, BaseCause};
ghost use Rattle.passes.specs.Calls.{IsRoom, HasRead};

use crate::forward::pass_to_end;
use crate::pass::Pass;
use crate::{Marks, PassFault};
use analysis::{CheckpointScan, TableScan};
use device::Reread;
use page::Fault;
use pieces::Mark;
use std::alloc::Global;
use std::collections::BTreeMap;
use tables::Tables;
use wal::{Entry, Glance, body_view};

impl Pass for CheckpointScan {
    ghost use Rattle.std.proofs.Common.{refl};

    ghost is_ready = { λ scan lsn. ⊤ };

    ghost passes = { λ old new whole. SeesOn old new };

    ghost keeps = { λ old new. ⊤ };

    ghost stops = { λ scan whole before e. e ≡ NoResource };

    ghost may_stop = { λ e. e ≡ NoResource };

    ghost begins = { λ scan whole before m seen. seen };

    ghost goes_on = { λ old now new whole before between after one more m seen.
        more m (one m seen) };

    ghost begins_same = { λ scan. tt };

    ghost stays_same = { λ old now new one more. tt };

    ghost stops_later = { λ old now whole before between e one later. later };

    ghost stops_for_memory = { λ scan whole before. refl };

    fn look_at(&mut self, lsn: u64, _glance: Glance, body: &[u8]) -> Result<(), Fault> {
        let Some(record) = body_view(body) else {
            unreachable!()
        };
        self.take(lsn, &record)
    }

    fn is_done(&self) -> bool {
        self.is_found()
    }
}

/// Analysis of the records after a checkpoint.
#[derive(Drop)]
struct Analysis {
    /// What the records so far do to both tables.
    tables: TableScan,
    /// The LSN of the checkpoint's begin record, 0 for none.
    master: u64,
}

impl Pass for Analysis {
    ghost use Rattle.std.proofs.Common.{refl, subst, ◌∙◌};

    ghost is_ready = { λ scan lsn. ⊤ };

    ghost passes = { λ old new whole before after. (new.master ≡ old.master)
        × NotesOn old.master old.tables new.tables before after };

    ghost keeps = { λ old new. HasNone0 old.tables.entries → HasNone0 new.tables.entries };

    ghost stops = { λ scan whole before e. e ≡ NoResource };

    ghost may_stop = { λ e. e ≡ NoResource };

    ghost begins = { λ scan whole before. (refl, λ all seen. seen) };

    ghost goes_on = { λ old now new whole before between after one more. (
      more.0 ∙ one.0,
      λ all seen. subst (λ m. NotesOn m now.tables new.tables between after)
          one.0 more.1 all (one.1 all seen),
    ) };

    ghost begins_same = { λ scan none. none };

    ghost stays_same = { λ old now new one more none. more (one none) };

    ghost stops_later = { λ old now whole before between e one later. later };

    ghost stops_for_memory = { λ scan whole before. refl };

    #[inline(always)]
    fn look_at(&mut self, lsn: u64, glance: Glance, _body: &[u8]) -> Result<(), Fault> {
        self.tables.take(lsn, glance, self.master)
    }

    fn is_done(&self) -> bool {
        false
    }
}

/// The tables of the checkpoint that the master names, empty ones if the master is 0. They are
/// looked for after the mark `from`. The checkpoint's begin record is not before that mark.
///
/// Errors: `BadMaster` if there is no checkpoint begin record at the master, or no later checkpoint
/// end record names it; those of [`pass_to_end`].
fn checkpoint_tables<S: Reread>(
    alloc: Global,
    source: &mut S,
    from: Mark,
    end: u64,
    room: &mut [u8],
    master: u64,
) -> Result<(BTreeMap<u32, Entry>, BTreeMap<u32, u64>), PassFault>
    requires room { IsRoom (length room.old) }
    requires from { IsLow from }
    requires low { end ≤ LARGEST_BASE }
    ensures base { IfOk result (λ x. AreBaseTables (S.text source.old) from end master
        x.0.entries x.1.entries) }
    ensures no_transaction_0 { IfOk result (λ x. entry_at 0 x.0.entries ≡ None) }
    ensures fault { IfErr result (BaseCause (S.text source.old) from end master) }
    ensures source { HasRead S.text S.failures S.read_to source.old source.new result }
{
    let mut scan = CheckpointScan::new(alloc, master);
    pass_to_end(source, from, end, room, &mut scan)?;
    let tables = scan.finish()?;
    Ok(tables)
}

/// The tables of a crash (ARIES, section 6.1), found in the log that a source holds. The log is
/// read from the last mark before the checkpoint on. `marks` are the marks of the log.
///
/// Errors: `Failed` if the source failed; `NoResource` if memory was refused, or if an offset of
/// the log is above 2^63 - 1; `BadMaster` if `master` is not 0, and there is no checkpoint begin
/// record at it or no later checkpoint end record names it. Any other fault is returned only if the
/// source no longer holds what it held when the marks were made.
pub fn tables_in_pieces<S: Reread>(
    alloc: Global,
    source: &mut S,
    marks: &Marks,
    room: &mut [u8],
    master: u64,
) -> Result<Tables, PassFault>
    requires room { IsRoom (length room.old) }
    ensures tables { IfOk result (AreTablesIn (S.text source.old) marks.now master) }
    ensures lawful { IfOk result (AreTrueIn (S.text source.old) marks.now master) }
    ensures no_transaction_0 { IfOk result AreWithout0 }
    ensures fault { IfErr result (TablesCauseIn (S.text source.old) marks.now master) }
    ensures source { HasRead S.text S.failures S.read_to source.old source.new result }
{
    let base = marks.first().lsn;
    let end = marks.end().lsn;
    let from = marks.at(marks.place_before(master));
    let (transactions, dirty) = checkpoint_tables(alloc, source, from, end, room, master)?;
    let tables = TableScan::begin(alloc, transactions, dirty)?;
    let mut analysis = Analysis { tables, master };
    pass_to_end(source, from, end, room, &mut analysis)?;
    let tables = analysis.tables.finish(base)?;
    Ok(tables)
}
