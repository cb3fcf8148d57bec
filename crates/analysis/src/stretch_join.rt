//! Joins a stretch of the log to the transaction table before it.

ghost use Rattle.std.specs.Prelude.{◌≡◌, None, OnOk, IsOkUnless, option_map};
ghost use Rattle.page.specs.declared.fault.Fault.TheVariants.{NoResource};
ghost use Rattle.wal.specs.Content.{entry_of};
ghost use Rattle.analysis.specs.Steps.{held_entry};
ghost use Rattle.analysis.specs.Stretch.{state_joined, with_nothing_to_undo, ChangesEntry};
ghost use Rattle.analysis.specs.Stretch.{ChangesEntries, JoinsEntry, JoinsEntries};
ghost use Rattle.analysis.specs.Stretch.{JoinsStretch, ContinuesLog};

use crate::kept::{PLACES, entry_in, finish, keep};
use crate::stretch_scan::StretchScan;
use crate::transaction_scan::TransactionScan;
use page::Fault;
use std::collections::BTreeMap;
use wal::{Entry, State};

/// The state of a transaction from its own state in a stretch and the state before.
fn state_joined(own: State, base: State) -> State
    ensures { result ≡ state_joined own base }
{
    match (own, base) {
        (State::Aborting, _) | (_, State::Aborting) => State::Aborting,
        (State::Prepared, _) | (_, State::Prepared) => State::Prepared,
        (State::Active, State::Active) => State::Active,
    }
}

/// The entry of a transaction, if it has one.
fn held(
    table: &BTreeMap<u32, Entry>,
    kept: &[Option<(u32, Entry)>; PLACES],
    tx: u32,
) -> Option<Entry>
    ensures { held_entry tx kept.now table.now.entries
        ≡ option_map (λ e. entry_of (tx, e)) result }
{
    if let Some((own, entry)) = kept[tx as usize % PLACES] {
        if own == tx {
            return Some(entry);
        }
    }
    match table.get(&tx) {
        Some(entry) => Some(*entry),
        None => None,
    }
}

impl TransactionScan {
    /// Removes the entry of a transaction, if it has one.
    fn remove(&mut self, tx: u32)
        ensures { ChangesEntry tx (λ _. None) self.old self.new }
    {
        finish(&mut self.transactions, &mut self.kept, self.highest, tx);
    }

    /// Sets the UndoNxtLSN of a transaction to 0, if it has an entry.
    fn clear_undo_next(&mut self, tx: u32) -> Result<(), Fault>
        ensures entries { OnOk result (ChangesEntry tx with_nothing_to_undo self.old self.new) }
        ensures err { IsOkUnless result NoResource }
    {
        if let Some(old) = held(&self.transactions, &self.kept, tx) {
            keep(
                &mut self.transactions,
                &mut self.kept,
                &mut self.highest,
                tx,
                old.state,
                old.last,
                0,
            )?;
        }
        Ok(())
    }

    /// Joins the entry that a transaction has of a stretch to the one before.
    fn join_entry(&mut self, tx: u32, own: Entry) -> Result<(), Fault>
        ensures entries { OnOk result (JoinsEntry tx own self.old self.new) }
        ensures err { IsOkUnless result NoResource }
    {
        let base = entry_in(&self.transactions, &self.kept, self.highest, tx);
        let undo_next = if own.undo_next == 0 {
            base.undo_next
        } else {
            own.undo_next
        };
        keep(
            &mut self.transactions,
            &mut self.kept,
            &mut self.highest,
            tx,
            state_joined(own.state, base.state),
            own.last,
            undo_next,
        )?;
        Ok(())
    }

    /// Removes the entries of these transactions.
    fn remove_all(&mut self, finished: &[u32])
        ensures { ChangesEntries finished.now (λ _. None) self.old self.new }
    {
        for tx in finished {
            self.remove(*tx);
        }
    }

    /// Sets the UndoNxtLSNs of these transactions to 0.
    fn clear_undo_next_of_all(&mut self, undone: &[u32]) -> Result<(), Fault>
        ensures entries { OnOk result
            (ChangesEntries undone.now with_nothing_to_undo self.old self.new) }
        ensures err { IsOkUnless result NoResource }
    {
        for tx in undone {
            self.clear_undo_next(*tx)?;
        }
        Ok(())
    }

    /// Joins the entries of a stretch to those before.
    fn join_entries(&mut self, entries: &BTreeMap<u32, Entry>) -> Result<(), Fault>
        ensures entries { OnOk result (JoinsEntries entries.now.entries self.old self.new) }
        ensures err { IsOkUnless result NoResource }
    {
        for (tx, own) in entries {
            self.join_entry(*tx, *own)?;
        }
        Ok(())
    }

    /// Does to the table what the records of the next stretch do.
    ///
    /// The only error is `NoResource`, if memory was refused. The table then has a part of that,
    /// and the scan must be begun again.
    pub fn join(&mut self, stretch: StretchScan) -> Result<(), Fault>
        ensures entries { OnOk result (JoinsStretch stretch self.old self.new) }
        // The same of the log that was read, and of the records of the stretch after it.
        ensures goes_on { OnOk result (ContinuesLog stretch self.old self.new) }
        ensures err { IsOkUnless result NoResource }
    {
        let StretchScan {
            scan,
            finished,
            undone,
        } = stretch;
        self.remove_all(&finished);
        self.clear_undo_next_of_all(&undone)?;
        let entries = scan.finish()?;
        self.join_entries(&entries)?;
        Ok(())
    }
}
