//! The second round: workers draw parts and redo them, by LSNs only.

ghost use Rattle.std.specs.Prelude.{◌≡◌, ◌+◌, ◌<◌, ◌≤◌, [], vec_len, All, IfOk, IsOkUnless};
ghost use Rattle.page.specs.declared.fault.Fault.TheVariants.{NoResource};
ghost use Rattle.redo.specs.Routes.{AreRoutes};
ghost use Rattle.redo.specs.Parts.{IsReady, IsBack};

use crate::gate::{Gate, pass_gate};
use crate::input::PartedInput;
use crate::part::redo_part;
use crate::route::Route;
use crate::tally::Tally;
use board::{Board, Draw, Seat};
use page::Fault;
use std::alloc::Global;
use std::thread;
use std::thread::Threads;

/// A worker before it begins: its seat, and its number, which is also its home range.
#[derive(Drop)]
pub struct Worker {
    pub home: u32,
    pub seat: Seat,
}

/// What a worker returns: its seat, and the tallies of the pages of the parts that it drew.
#[derive(Drop)]
pub struct Share {
    pub seat: Seat,
    pub tallies: Vec<Tally>,
}

/// The workers, with a seat each. The only error is `NoResource`.
pub fn deal(alloc: Global, board: &Board, seat: Seat, workers: u32) -> Result<Vec<Worker>, Fault>
    requires board { seat.board ≡ board.now }
    requires places { (seat.places ≡ workers) × (1 ≤ workers) × (board.now.ranges ≡ workers) }
    requires fresh { seat.drawn ≡ [] }
    ensures len { IfOk result (λ crew. vec_len crew ≡ workers) }
    ensures each { IfOk result (λ crew. All (IsReady board.now) crew.items) }
    ensures err { IsOkUnless result NoResource }
{
    let mut crew = Vec::new(alloc);
    let mut rest = seat;
    for home in 0..workers - 1 {
        let (seat, others) = board.split(rest);
        rest = others;
        crew.push(Worker { home, seat })?;
    }
    crew.push(Worker {
        home: workers - 1,
        seat: rest,
    })?;
    Ok(crew)
}

/// Draws parts and redoes them until there is none, or until some worker was refused memory.
fn work<G: Gate>(
    alloc: Global,
    parted: &PartedInput,
    routes: &[Route],
    board: &Board,
    gate: &G,
    worker: Worker,
) -> Share
    requires routes { AreRoutes parted.now routes.now }
    requires parts { board.now.parts ≡ parted.now.parting.parts }
    requires ready { IsReady board.now worker }
    ensures { IsBack parted.now board.now result }
{
    let Worker { home, mut seat } = worker;
    let mut tallies = Vec::new(alloc);
    while let Draw::Part(part) = board.draw_or_stop(&mut seat, home) {
        let entered = pass_gate(gate, home, part);
        if redo_part(alloc, parted, routes, entered, &mut tallies).is_err() {
            board.stop(&mut seat);
            return Share { seat, tallies };
        }
    }
    Share { seat, tallies }
}

/// Each worker in a thread of its own. The only error is `NoResource`.
pub fn run<G: Gate, R: Threads + Sync>(
    rt: &R,
    alloc: Global,
    parted: &PartedInput,
    routes: &[Route],
    board: &Board,
    gate: &G,
    crew: Vec<Worker>,
) -> Result<Vec<Share>, Fault>
    requires routes { AreRoutes parted.now routes.now }
    requires parts { board.now.parts ≡ parted.now.parting.parts }
    requires ready { All (IsReady board.now) crew.items }
    ensures len { IfOk result (λ shares. vec_len shares ≡ vec_len crew) }
    ensures each { IfOk result (λ shares. All (IsBack parted.now board.now) shares.items) }
    ensures err { IsOkUnless result NoResource }
{
    let work_on = |worker: Worker| -> Share
        requires { AreRoutes parted.now routes.now × (board.now.parts ≡ parted.now.parting.parts)
            × IsReady board.now worker }
        ensures { IsBack parted.entry.now board.entry.now result }
    { work(alloc, parted, routes, board, gate, worker) };
    Ok(thread::map_vec(rt, crew, &work_on)?)
}
