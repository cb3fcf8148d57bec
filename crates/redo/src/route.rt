//! The first round: which records each part is to look at.

ghost use Rattle.std.specs.Prelude.{◌≡◌, ℕ, ◌+◌, ◌<◌, ◌≤◌, [], ◌∷◌, ◌++◌, All, Some, length, map, vec_len, slice_set, OnOk, IfOk, IfErr, if◌then◌else◌, IsOkUnless};
ghost use Rattle.page.specs.declared.fault.Fault.TheVariants.{NoResource};
ghost use Rattle.log_laws.specs.Records.{LogRecord, History, record_at, last_lsn, history, base_lsn};
ghost use Rattle.wal.specs.Glances.{glance_of};
ghost use Rattle.redo.specs.Notes.{notes_at};
ghost use Rattle.redo.specs.Changes.{NamesBelow, on_part, lsn_in, IsNote};
ghost use Rattle.redo.specs.Routes.{IsRoute, AreRoutes, RouteFault, IsSeen, NoteFault, IfRoute, IfEach, RoundFault, boundary_in};
ghost use Rattle.page.specs.declared.profile.TheConstants.{PAGES, SLOTS};

use crate::Parting;
use crate::input::{PartedInput, RedoInput};
use crate::note::{Note, NoteList};
use page::Fault;
use std::alloc::Global;
use std::thread;
use std::thread::Threads;
use wal::Glance;

/// For each part the LSNs of the records on its pages in one stretch of the log, in ascending
/// order, each with the cell that its record is in.
#[derive(Drop)]
pub struct Route {
    pub lists: Vec<NoteList>,
}

impl Route {
    /// The notes for a part.
    pub fn notes(&self, part: u32) -> &NoteList
        requires { part < length self.now.lists.items }
        ensures { result.now ≡ notes_at self.now.lists.items part }
    {
        &self.lists[part as usize]
    }
}

/// For how many notes a part is given room: its share of the records of a stretch, and a quarter
/// more. So a list seldom grows; growing costs most when several threads do it.
fn room_of(records: u64, parts: u32) -> usize {
    let share = records / parts.max(1) as u64;
    share.saturating_add(share / 4) as usize
}

/// An empty list for each part, with room for this many notes. The only error is `NoResource`.
fn empty_notes(alloc: Global, parts: u32, room: usize) -> Result<Vec<NoteList>, Fault>
    ensures count { IfOk result (λ lists. length lists.items ≡ parts) }
    ensures empty { IfOk result (λ lists. (part : ℕ) → notes_at lists.items part ≡ []) }
    ensures err { IsOkUnless result NoResource }
{
    let mut lists = Vec::new(alloc);
    for _ in 0..parts {
        lists.push(NoteList::with_capacity(alloc, room)?)?;
    }
    Ok(lists)
}

/// Adds a note after those for a part. The only error is `NoResource`.
fn note_for(lists: &mut [NoteList], part: usize, note: Note) -> Result<(), Fault>
    requires part { part < length lists.old }
    requires place { note.place < PAGES }
    requires slot { note.slot < SLOTS }
    ensures count { length lists.new ≡ length lists.old }
    ensures ok { OnOk result (lists.new
        ≡ slice_set lists.old part (notes_at lists.old part ++ note ∷ [])) }
    ensures err { IsOkUnless result NoResource }
{
    lists[part].push(note)?;
    Ok(())
}

/// Notes a record for the part of its page.
fn put_note(
    parting: &Parting,
    glance: Glance,
    lsn: u64,
    lists: &mut [NoteList],
) -> Result<(), Fault>
    requires lists { length lists.old ≡ parting.now.parts }
    requires seen { IsSeen glance }
    ensures count { length lists.new ≡ length lists.old }
    ensures exists { OnOk result ((r : LogRecord) → glance ≡ glance_of r
        → NamesBelow (length parting.now.part_of) r) }
    ensures lsns { OnOk result ((r : LogRecord) → glance ≡ glance_of r → (part : ℕ)
        → map lsn_in (notes_at lists.new part)
        ≡ (if on_part parting.now.part_of part r then map lsn_in
        (notes_at lists.old part) ++ lsn ∷ [] else map lsn_in (notes_at lists.old part))) }
    ensures notes { OnOk result ((log : History) (r : LogRecord) → glance ≡ glance_of r
        → record_at log lsn ≡ Some r → (part : ℕ)
        → All (IsNote log parting.now.place_of) (notes_at lists.old part)
        → All (IsNote log parting.now.place_of) (notes_at lists.new part)) }
    ensures fault { IfErr result (λ e. (r : LogRecord) → glance ≡ glance_of r
        → NoteFault (length parting.now.part_of) lsn r e) }
{
    let Some((page, slot)) = glance.cell() else {
        return Ok(());
    };
    let Some(part) = parting.part_at(page) else {
        return Err(Fault::NoSuchPage(lsn));
    };
    let place = parting.place_of(page);
    note_for(lists, part as usize, Note { lsn, place, slot })?;
    Ok(())
}

/// The route through the records with LSNs above `from`, up to `to`. Refuses the first of them on a
/// page that the store lacks: the error is `NoSuchPage` with its LSN.
fn route_through(alloc: Global, parted: &PartedInput, from: u64, to: u64) -> Result<Route, Fault>
    requires begun { base_lsn (history parted.now.input.log) ≤ from }
    requires stretch { from ≤ to }
    requires within { to ≤ last_lsn (history parted.now.input.log) }
    ensures ok { IfOk result (IsRoute parted.now from to) }
    ensures fault { IfErr result (RouteFault parted.now.input from to) }
{
    let parts = parted.parting.parts();
    let mut lists = empty_notes(alloc, parts, room_of(to - from, parts))?;
    for lsn in from..to {
        let glance = parted.input.log.glance_after(lsn);
        put_note(parted.parting, glance, lsn + 1, &mut lists)?;
    }
    Ok(Route { lists })
}

/// The LSN below the stretch of a worker.
fn boundary(input: &RedoInput, workers: u32, worker: u64) -> u64
    requires workers { 0 < workers }
    requires worker { worker ≤ workers }
    ensures { result ≡ boundary_in input.now workers worker }
{
    let from = input.skipped();
    let count = input.log.last() - from;
    let workers = workers as u64;
    from + count / workers * worker + worker.min(count % workers)
}

/// The route of a worker.
fn route_of(alloc: Global, parted: &PartedInput, workers: u32, worker: u64) -> Result<Route, Fault>
    requires { worker < workers }
    ensures { IfRoute parted.now workers worker result }
{
    let from = boundary(&parted.input, workers, worker);
    let to = boundary(&parted.input, workers, worker + 1);
    route_through(alloc, parted, from, to)
}

/// The routes, if every worker returned one.
fn all_of(
    alloc: Global,
    parted: &PartedInput,
    results: Vec<Result<Route, Fault>>,
) -> Result<Vec<Route>, Fault>
    requires some { 0 < vec_len results }
    requires each { IfEach parted.now results.items }
    ensures ok { IfOk result (λ routes. AreRoutes parted.now routes.items) }
    ensures len { IfOk result (λ routes. vec_len routes ≡ vec_len results) }
    ensures fault { IfErr result (RoundFault parted.now.input) }
{
    let mut routes = Vec::new(alloc);
    for result in results {
        routes.push(result?)?;
    }
    Ok(routes)
}

/// The first round of workers: each makes the route of its own stretch of the log.
pub fn routes<R: Threads + Sync>(
    rt: &R,
    alloc: Global,
    parted: &PartedInput,
    workers: u32,
) -> Result<Vec<Route>, Fault>
    requires { 0 < workers }
    ensures ok { IfOk result (λ routes. AreRoutes parted.now routes.items) }
    ensures len { IfOk result (λ routes. vec_len routes ≡ workers) }
    ensures fault { IfErr result (RoundFault parted.now.input) }
{
    let worker = |worker: usize| -> Result<Route, Fault>
        requires { worker < workers }
        ensures { IfRoute parted.entry.now workers worker result }
    { route_of(alloc, parted, workers, worker as u64) };
    let results = thread::map_indices(rt, alloc, workers as usize, &worker)?;
    all_of(alloc, parted, results)
}
