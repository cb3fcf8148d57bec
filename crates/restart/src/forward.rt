//! The passes that go forward over a log: analysis and redo. One thread does one after the other.
//! Redo needs only the dirty pages from analysis. So with more workers the transactions are found
//! at the same time as redo.

ghost use Rattle.std.specs.Prelude.{◌≡◌, true, None, is_some, IfSome, IfOk, IfErr, length};
ghost use Rattle.std.specs.Option.{ForSome};
ghost use Rattle.log_laws.specs.Records.{history};
ghost use Rattle.log_laws.specs.Undo.{entry_for};
ghost use Rattle.analysis.specs.Tables.{BaseFault, entry_at};
ghost use Rattle.restart.specs.Restart.{AreSettings, NoneAhead, IsRedone, RedoesPages, AreEntriesOf, FindsTrueTables, ForwardFault, InputFault};

use analysis::{analyse_pages, analyse_transactions, join_tables};
use page::{Fault, Store};
use redo::{Gate, Parting, Redone, Watch, redo_in_place, redo_watched};
use std::alloc::Global;
use std::collections::BTreeMap;
use std::thread::{Threads, join_mut};
use tables::Tables;
use wal::{Entry, Log};

/// Analysis and redo in the thread of the caller: the tables of the crash, in two halves, and the
/// pages of the store, redone by them. No page is ahead of the log.
pub fn forward_alone<G: Gate>(
    alloc: Global,
    log: &Log,
    store: Store,
    watch: &Watch<G>,
) -> Result<(Tables, Redone), Fault>
    requires { NoneAhead log.now store }
    ensures redone { IfOk result (λ x. IsRedone log.now store x.0 x.1) }
    ensures no_transaction_0 { IfOk result (λ x. entry_for 0 x.0.transactions ≡ None) }
    ensures lawful { FindsTrueTables log.now store result }
    ensures fault { IfErr result (InputFault log.now store) }
{
    let transactions = analyse_transactions(alloc, log, store.master)?;
    let pages = analyse_pages(alloc, log, store.master, store.pages.len())?;
    let redone = redo_watched(alloc, log, store, &pages, watch)?;
    Ok((join_tables(transactions, pages), redone))
}

/// The transactions, and at the same time the dirty pages and redo by them.
fn side_by_side<G: Gate, R: Threads + Sync>(
    rt: &R,
    alloc: Global,
    log: &Log,
    store: Store,
    parting: &Parting,
    workers: u32,
    gate: &G,
) -> (
    Result<BTreeMap<u32, Entry>, Fault>,
    Result<(Tables, Redone), Fault>,
)
    requires settings { AreSettings (length store.pages) parting.now workers }
    ensures transactions { IfOk result.0
        (λ found. AreEntriesOf log.now store.master found.entries) }
    ensures no_transaction_0 { IfOk result.0 (λ found. entry_at 0 found.entries ≡ None) }
    ensures no_base { IfErr result.0 (BaseFault store.master (history log.now)) }
    ensures redone { IfOk result.1 (λ x. RedoesPages log.now store x.0 x.1) }
    ensures fault { IfErr result.1 (ForwardFault log.now store workers) }
{
    let master = store.master;
    let mut find = || -> Result<BTreeMap<u32, Entry>, Fault>
        ensures transactions { IfOk result
            (λ found. AreEntriesOf log.entry.now master found.entries) }
        ensures no_transaction_0 { IfOk result (λ found. entry_at 0 found.entries ≡ None) }
        ensures fault { IfErr result (BaseFault master (history log.entry.now)) }
    { analyse_transactions(alloc, log, master) };
    // The closures are borrowed, and the store is ready for the one call.
    let mut given = Some(store);
    let mut redo = || -> Result<(Tables, Redone), Fault>
        requires settings { IfSome given
            (λ s. AreSettings (length s.pages) parting.now workers) }
        requires ready { is_some given ≡ true }
        ensures redone { ForSome given.entry
            (λ s. IfOk result (λ x. RedoesPages log.entry.now s x.0 x.1)) }
        ensures fault { ForSome given.entry
            (λ s. IfErr result (ForwardFault log.entry.now s workers)) }
    {
        match given.take() {
            Some(store) => {
                let tables = analyse_pages(alloc, log, store.master, store.pages.len())?;
                let redone = redo_in_place(rt, alloc, log, store, &tables, parting, workers, gate)?;
                Ok((tables, redone))
            }
            None => unreachable!(),
        }
    };
    join_mut(rt, &mut find, &mut redo)
}

/// Analysis and redo: the tables of the crash, and the pages of the store, redone by them. The
/// settings must be valid, and no page may be ahead of the log. With more than one worker, the
/// transactions are found at the same time as redo.
///
/// The errors are those of [`restart`](crate::restart) from [`Fault::BadMaster`] on, up to those of
/// redo.
pub fn go_forward<G: Gate, R: Threads + Sync>(
    rt: &R,
    alloc: Global,
    log: &Log,
    store: Store,
    parting: &Parting,
    workers: u32,
    gate: &G,
) -> Result<(Tables, Redone), Fault>
    requires settings { AreSettings (length store.pages) parting.now workers }
    requires none_ahead { NoneAhead log.now store }
    ensures redone { IfOk result (λ x. IsRedone log.now store x.0 x.1) }
    ensures no_transaction_0 { IfOk result (λ x. entry_for 0 x.0.transactions ≡ None) }
    ensures lawful { FindsTrueTables log.now store result }
    ensures fault { IfErr result (InputFault log.now store) }
{
    if workers == 1 {
        return forward_alone(alloc, log, store, &Watch::Gate { parting, gate });
    }
    let (transactions, redone) = side_by_side(rt, alloc, log, store, parting, workers, gate);
    let transactions = transactions?;
    let (pages, redone) = redone?;
    Ok((join_tables(transactions, pages), redone))
}
