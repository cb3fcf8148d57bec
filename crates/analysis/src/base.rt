//! The base: the tables of the checkpoint that the master names.

ghost use Rattle.std.specs.Prelude.{◌≡◌, ℕ, Some, None, IfOk, OnOk, IfErr, length, drop, ◌<◌, ◌+◌, IsOkUnless};
ghost use Rattle.page.specs.declared.fault.Fault.TheVariants.{NoResource};
ghost use Rattle.log_laws.specs.Records.{history};
ghost use Rattle.log_laws.specs.Redo.{rec_lsn_of};
ghost use Rattle.analysis.specs.Tables.{entry_at, IsBase, BaseFault};
ghost use Rattle.log_laws.specs.Undo.{entry_for};

use page::Fault;
use std::alloc::Global;
use std::collections::BTreeMap;
use wal::{DirtyTable, Entry, Log, TransactionTable};

/// Puts the entry at a place of a borrowed table into a map of the entries after it, and replaces
/// one with the same number.
fn put_transaction(
    map: &mut BTreeMap<u32, Entry>,
    table: &TransactionTable,
    place: usize,
) -> Result<(), Fault>
    requires { place < length table.now }
    ensures ok { OnOk result (((t : ℕ) → entry_at t map.old.entries
        ≡ entry_for t (drop (place + 1) table.now)) → (t : ℕ)
        → entry_at t map.new.entries ≡ entry_for t (drop place table.now)) }
    ensures err { IsOkUnless result NoResource }
{
    let (tx, entry) = table.entry(place);
    map.insert(tx, entry)?;
    Ok(())
}

/// The entries of a borrowed table as a map.
pub fn transactions_of(
    alloc: Global,
    table: &TransactionTable,
) -> Result<BTreeMap<u32, Entry>, Fault>
    ensures ok { IfOk result (λ map. (t : ℕ) → entry_at t map.entries ≡ entry_for t table.now) }
    ensures err { IsOkUnless result NoResource }
{
    let count = table.len();
    let mut map = BTreeMap::new(alloc);
    // From the last entry to the first: if two have one number, the first counts.
    for done in 0..count {
        put_transaction(&mut map, table, count - 1 - done)?;
    }
    Ok(map)
}

/// Puts the entry at a place of a borrowed table into a map of the entries after it, and replaces
/// one with the same number.
fn put_page(map: &mut BTreeMap<u32, u64>, table: &DirtyTable, place: usize) -> Result<(), Fault>
    requires { place < length table.now }
    ensures ok { OnOk result (((p : ℕ) → rec_lsn_of p map.old.entries
        ≡ rec_lsn_of p (drop (place + 1) table.now)) → (p : ℕ)
        → rec_lsn_of p map.new.entries ≡ rec_lsn_of p (drop place table.now)) }
    ensures err { IsOkUnless result NoResource }
{
    let (page, rec_lsn) = table.entry(place);
    map.insert(page, rec_lsn)?;
    Ok(())
}

/// The entries of a borrowed table as a map.
pub fn dirty_pages_of(alloc: Global, table: &DirtyTable) -> Result<BTreeMap<u32, u64>, Fault>
    ensures ok { IfOk result (λ map. (p : ℕ) → rec_lsn_of p map.entries ≡ rec_lsn_of p table.now) }
    ensures err { IsOkUnless result NoResource }
{
    let count = table.len();
    let mut map = BTreeMap::new(alloc);
    for done in 0..count {
        put_page(&mut map, table, count - 1 - done)?;
    }
    Ok(map)
}

/// The tables from which analysis begins: empty ones if `master` is 0, otherwise those of the first
/// checkpoint end that names the begin record at `master`, after it. The error is `BadMaster` if
/// there is none.
pub fn checkpoint_tables(
    alloc: Global,
    log: &Log,
    master: u64,
) -> Result<(BTreeMap<u32, Entry>, BTreeMap<u32, u64>), Fault>
    ensures found { IfOk result (λ x. IsBase master (history log.now) x.0.entries x.1.entries) }
    ensures no_transaction_0 { IfOk result (λ x. entry_at 0 x.0.entries ≡ None) }
    ensures fault { IfErr result (BaseFault master (history log.now)) }
{
    if master == 0 {
        return Ok((BTreeMap::new(alloc), BTreeMap::new(alloc)));
    }
    let Some((transactions, dirty)) = log.checkpoint(master) else {
        return Err(Fault::BadMaster);
    };
    let transactions = transactions_of(alloc, &transactions)?;
    let dirty = dirty_pages_of(alloc, &dirty)?;
    Ok((transactions, dirty))
}
