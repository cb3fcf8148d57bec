//! After the second round: the tallies of all workers, each at the number of its page.

ghost use Rattle.std.specs.Prelude.{◌≡◌, ℕ, ◌<◌, ◌⊎◌, false, length, vec_len, map, All, IfOk, IsOkUnless};
ghost use Rattle.page.specs.declared.fault.Fault.TheVariants.{NoResource};
ghost use Rattle.board.specs.Drawn.{AllEnded};
ghost use Rattle.redo.specs.Inputs.{InputContent};
ghost use Rattle.redo.specs.Parts.{IsBack, IsWhollyRedone, HasRedoPage, IsTallied, AreTallied, AreAllTallied, resolved};

use crate::crew::Share;
use crate::input::PartedInput;
use crate::tally::Tally;
use board::{Board, Seat};
use page::Fault;
use std::alloc::Global;

/// Puts each tally at the number of its page.
fn put_tallies(done: &[Tally], tallies: &mut [Tally])
    requires below { All (λ t. t.number < length tallies.old) done.now }
    ensures count { length tallies.new ≡ length tallies.old }
    ensures put { (input : InputContent)
        → All (IsWhollyRedone input) (map (resolved input) done.now) → (number : ℕ)
        → (IsTallied input tallies.old number) ⊎ (HasRedoPage (map (resolved input) done.now) number)
        → IsTallied input tallies.new number }
{
    for tally in done {
        tallies[tally.number as usize] = *tally;
    }
}

/// Puts the tallies of all workers at the numbers of their pages. Joins the workers' seats and
/// returns the one seat with all places.
fn gather(
    parted: &PartedInput,
    board: &Board,
    mut shares: Vec<Share>,
    tallies: &mut [Tally],
) -> Seat
    requires some { 0 < vec_len shares }
    requires each { All (IsBack parted.now board.now) shares.items }
    requires count { length tallies.old ≡ length parted.now.input.images }
    ensures board { result.board ≡ board.now }
    ensures places { result.places ≡ vec_len shares }
    ensures count { length tallies.new ≡ length parted.now.input.images }
    ensures tallied { result.stopped ≡ false → result.told ≡ false
        → AreTallied parted.now tallies.new result.drawn }
    ensures ended { result.stopped ≡ false → result.told ≡ false
        → AllEnded board.now.ranges result.ended }
{
    let Some(last) = shares.pop() else {
        unreachable!()
    };
    let mut seat = last.seat;
    put_tallies(&last.tallies, tallies);
    while let Some(share) = shares.pop() {
        seat = board.join(seat, share.seat);
        put_tallies(&share.tallies, tallies);
    }
    shares.destroy_empty();
    seat
}

/// The tallies of all pages, from what the workers return. The only error is `NoResource`, if
/// memory was refused here or to a worker.
pub fn tallies_of(
    alloc: Global,
    parted: &PartedInput,
    board: Board,
    shares: Vec<Share>,
) -> Result<Vec<Tally>, Fault>
    requires some { 0 < vec_len shares }
    requires seats { board.seats ≡ vec_len shares }
    requires parts { board.parts ≡ parted.now.parting.parts }
    requires each { All (IsBack parted.now board) shares.items }
    ensures tallied { IfOk result (λ tallies. AreAllTallied parted.now.input tallies.items) }
    ensures err { IsOkUnless result NoResource }
{
    // The part of each page is one that the board has.
    let _parts = parted.parting.parts();
    let store = parted.input.store;
    let mut tallies = vec![in alloc; Tally::begin(0, 0, None); store.pages.len()]?;
    let seat = gather(parted, &board, shares, &mut tallies);
    if board.close(seat).stopped() {
        return Err(Fault::NoResource);
    }
    Ok(tallies)
}
