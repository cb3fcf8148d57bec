//! The losers of a rollback, each at the update that it undoes next.

ghost use Rattle.std.specs.Prelude.{◌≡◌, ◌≤◌, ◌<◌, ◌+◌, ◌^◌, ℕ, length, OnOk, IfOk, IfErr};
ghost use Rattle.log_laws.specs.Records.{history, last_lsn};
ghost use Rattle.wal.specs.Content.{entry_of};
ghost use Rattle.log_laws.specs.Undo.{is_lost};
ghost use Rattle.tables.specs.Tables.{losers_in};
ghost use Rattle.undo.specs.Rollback.{walk_from, WalkFault, loser_at, AreUpdates, AreOthers, Resolves, BeginsRollback, ChangesNoPage, StopsBeginning};

use crate::Appended;
use crate::looked::Looked;
use crate::turns::Turns;
use crate::walk::next_update;
use page::Fault;
use std::alloc::Global;
use tables::Tables;
use wal::{Entry, State};

/// A transaction that is rolled back.
#[derive(Clone, Copy, Debug, PartialEq, Eq, PartialOrd, Ord)]
pub struct Loser {
    /// Its number.
    pub tx: u32,
    /// The LSN of its last record, 0 if there is none.
    pub last: u64,
}

/// A rollback in progress.
#[derive(Drop)]
pub struct Rollback {
    /// The losers that wait, by the LSNs of the updates that they undo next.
    pub waiting: Turns,
    /// What has been appended.
    pub appended: Vec<Appended>,
}

/// Whether the transaction of an entry is rolled back: it is unless it is in doubt.
pub fn is_lost(entry: Entry) -> bool
    ensures { (tx : ℕ) → result ≡ is_lost (entry_of (tx, entry)) }
{
    match entry.state {
        State::Active => true,
        State::Aborting => true,
        State::Prepared => false,
    }
}

impl Rollback {
    /// Resolves the losers of the tables, in ascending order of number, each from its UndoNxtLSN.
    pub fn of_losers(alloc: Global, log: &Looked, tables: &Tables) -> Result<Rollback, Fault>
        ensures ok { IfOk result (BeginsRollback log.now tables.now) }
        ensures pages { IfOk result (ChangesNoPage log.now) }
        ensures few { IfOk result (λ r. length r.appended.items ≤ length (losers_in tables.now)) }
        ensures numbers { OnOk result (length (losers_in tables.now) ≤ 2 ^ 32) }
        ensures fault { IfErr result (StopsBeginning log.now tables.now) }
    {
        let mut rollback = Rollback {
            waiting: Turns::new(alloc),
            appended: Vec::new(alloc),
        };
        let end = log.next_lsn();
        for (tx, entry) in &tables.transactions {
            if is_lost(*entry) {
                let loser = Loser {
                    tx: *tx,
                    last: entry.last,
                };
                rollback.resolve(log, loser, end, entry.undo_next)?;
            }
        }
        Ok(rollback)
    }

    /// Resolves a loser that the record at the LSN `from` sends to `lsn`: it waits at the update
    /// that it undoes next; if nothing is left, its end is appended. Its transaction must not wait
    /// yet.
    pub fn resolve(&mut self, log: &Looked, loser: Loser, from: u64, lsn: u64) -> Result<(), Fault>
        requires positive { 0 < from }
        requires within { from ≤ last_lsn (history log.now) + 1 }
        requires updates { AreUpdates log.now self.old }
        requires others { AreOthers loser.tx (loser_at self.old) }
        ensures ok { OnOk result (Resolves log.now loser from lsn self.old self.new) }
        ensures fault { IfErr result (WalkFault (walk_from (history log.now) loser.tx from lsn)) }
    {
        match next_update(log, loser.tx, from, lsn)? {
            Some(update_lsn) => {
                self.waiting.put(update_lsn, loser)?;
            }
            None => self.appended.push(Appended::End {
                tx: loser.tx,
                prev: loser.last,
            })?,
        }
        Ok(())
    }
}
