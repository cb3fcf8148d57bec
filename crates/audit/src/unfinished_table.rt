//! The transactions that have not finished. No choice of their numbers makes a search long: each is
//! at the place of its number, where it is found without a search, or in an ordered map.

ghost use Rattle.std.specs.Prelude.{◌≡◌, ◌==◌, ◌%◌, ◌↔◌, ℕ, Some, None, OnOk, IsOkUnless, if◌then◌else◌, is_some};
ghost use Rattle.std.specs.Ordering.{nat_cmp};
ghost use Rattle.std.specs.BTreeMap.{get};
ghost use Rattle.page.specs.declared.fault.Fault.TheVariants.{NoResource};
ghost use Rattle.audit.specs.declared.status.Status.{Status};
ghost use Rattle.audit.specs.Unfinished.{unfinished_in, is_of_another};

use crate::status::Status;
use page::Fault;
use std::alloc::Global;
use std::collections::BTreeMap;

/// How many places there are for transactions that are found without a search.
pub const PLACES: usize = 1024;

/// What is known of each transaction that has a record and has not finished.
#[derive(Drop)]
pub struct UnfinishedTable {
    /// At each place one transaction, with its number, or None. The place is the number modulo
    /// [`PLACES`].
    pub places: [Option<(u32, Status)>; PLACES],
    /// Those whose place another transaction had. One that is at its place now may still be here:
    /// then what is known of it is what is at its place.
    pub others: BTreeMap<u32, Status>,
}

/// Whether another transaction is at a place.
fn is_of_another(place: Option<(u32, Status)>, tx: u32) -> bool
    ensures { result ≡ is_of_another tx place }
{
    match place {
        Some((own, _)) => own != tx,
        None => false,
    }
}

/// What a map knows of a transaction. An empty one is not searched.
#[inline(always)]
fn status_in(others: &BTreeMap<u32, Status>, tx: u32) -> Option<Status>
    ensures { result ≡ get nat_cmp others.now tx }
{
    if others.is_empty() {
        return None;
    }
    match others.get(&tx) {
        Some(status) => Some(*status),
        None => None,
    }
}

impl UnfinishedTable {
    /// A table without a transaction.
    pub fn new(alloc: Global) -> UnfinishedTable
        ensures { (t : ℕ) → unfinished_in result t ≡ None }
    {
        UnfinishedTable {
            places: [None; PLACES],
            others: BTreeMap::new(alloc),
        }
    }

    /// What is known of a transaction; None if it has no record or has finished.
    #[inline(always)]
    pub fn get(&self, tx: u32) -> Option<Status>
        ensures { result ≡ unfinished_in self.now tx }
    {
        if let Some((own, status)) = self.places[tx as usize % PLACES] {
            if own == tx {
                return Some(status);
            }
        }
        status_in(&self.others, tx)
    }

    /// Whether a transaction is among the unfinished.
    pub fn has(&self, tx: u32) -> bool
        ensures { result ≡ is_some (unfinished_in self.now tx) }
    {
        self.get(tx).is_some()
    }

    /// Notes what is known of a transaction. The only error is `NoResource`.
    pub fn insert(&mut self, tx: u32, status: Status) -> Result<(), Fault>
        ensures ok { OnOk result ((t : ℕ) → unfinished_in self.new t
            ≡ (if tx == t then Some status else unfinished_in self.old t)) }
        ensures err { IsOkUnless result NoResource }
    {
        let place = tx as usize % PLACES;
        if is_of_another(self.places[place], tx) {
            self.others.insert(tx, status)?;
        } else {
            self.places[place] = Some((tx, status));
        }
        Ok(())
    }

    /// Removes a transaction, if it is there.
    pub fn remove(&mut self, tx: u32)
        ensures { (t : ℕ) → unfinished_in self.new t
            ≡ (if tx == t then None else unfinished_in self.old t) }
    {
        let place = tx as usize % PLACES;
        if !is_of_another(self.places[place], tx) {
            self.places[place] = None;
        }
        if !self.others.is_empty() {
            self.others.remove(&tx);
        }
    }
}
