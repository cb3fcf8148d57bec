//! Redo without threads.

ghost use Rattle.std.specs.Prelude.{length, IfOk, IfErr};
ghost use Rattle.redo.specs.Redone.{RepeatsHistory, RedoFault};

use crate::Redone;
use crate::finish::{finish_alone, total};
use crate::gate::Gate;
use crate::one_pass::tallied_alone;
use crate::watch::{Watch, tell};
use page::{Fault, Store};
use std::alloc::Global;
use tables::Tables;
use wal::Log;

/// [`redo`](crate::redo) in the thread of the caller, of a store that is given away: its pages are
/// changed in place and not copied. After an error they are gone. It starts no thread, needs no
/// partition, and goes once through the records from `redo_lsn` on. If the watch has a gate, it is
/// called for all parts before a page is changed.
///
/// Errors: [`Fault::NoSuchPage`] with the LSN of the first record from `redo_lsn` on that is on a
/// page which the store lacks; no gate is called then. [`Fault::NoResource`], if memory was
/// refused, can come instead of any other result.
pub fn redo_watched<G: Gate>(
    alloc: Global,
    log: &Log,
    store: Store,
    tables: &Tables,
    watch: &Watch<G>,
) -> Result<Redone, Fault>
    ensures redone { IfOk result (RepeatsHistory log.now tables.now store.pages) }

    // On an error, its condition holds for the input, memory aside.
    ensures fault { IfErr result (RedoFault log.now (length store.pages) tables.now.redo_lsn 1) }
{
    let tallies = tallied_alone(alloc, log, &store, tables)?;
    tell(alloc, watch)?;
    // The log's LSNs fit, and no record counts twice, so the count fits.
    let _last = log.last();
    let applied = total(&tallies);
    let mut pages = store.pages;
    finish_alone(log, &tallies, &mut pages);
    Ok(Redone { pages, applied })
}
