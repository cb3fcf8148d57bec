//! What boards give to one seat and to several.

ghost use Rattle.std.specs.Prelude.{◌≡◌, ◌+◌, ◌<◌, ◌≤◌, length};

use board::{Board, Draw, Seat, Tally};
use checks::{check, check_all, check_at};
use std::alloc::Global;
use std::test::Fail;
use std::thread::join;

const NONE: u32 = u32::MAX;

// What N draws return, with NONE if there is no number.
fn drawn<const N: usize>(board: &Board, seat: &mut Seat, home: u32) -> [u32; N]
    requires board { seat.old.board ≡ board.now }
    requires home { home < board.now.ranges }
    ensures { (seat.new.board ≡ seat.old.board) × (seat.new.places ≡ seat.old.places) }
{
    let mut all = [NONE; N];
    for i in 0..N {
        if let Some(x) = board.draw(seat, home) {
            all[i] = x;
        }
    }
    all
}

// Draws to the end. Returns how often each of ten numbers came.
fn draw_all(board: &Board, mut seat: Seat, home: u32) -> (Seat, [u32; 10])
    requires board { seat.board ≡ board.now }
    requires home { home < board.now.ranges }
    ensures { (result.0.board ≡ seat.board) × (result.0.places ≡ seat.places) }
{
    let mut counts = [0u32; 10];
    while let Some(x) = board.draw(&mut seat, home) {
        if let Some(count) = counts.get_mut(x as usize) {
            *count = count.wrapping_add(1);
        }
    }
    (seat, counts)
}

// Fails a test if two seats, of two places of one range, do not draw these numbers and then none,
// or if the word at the end is another.
fn check_halves<const N: usize>(
    board: Board,
    mut first: Seat,
    mut second: Seat,
    numbers: [u32; N],
    word: u64,
) -> Result<(), Fail>
    requires seats { (first.board ≡ board) × (second.board ≡ board) }
    requires places { first.places + second.places ≡ board.seats }
    requires ranges { board.ranges ≡ 1 }
{
    let all = drawn::<N>(&board, &mut first, 0);
    let none = drawn::<1>(&board, &mut second, 0);
    let seat = board.join(first, second);
    let places = seat.places();
    let told = board.close(seat).word(0);
    check_all(&[
        (all == numbers, "the half that draws"),
        (none == [NONE], "the other half"),
        (places == 2, "places"),
        (told == word, "word"),
    ])
}

#[test]
fn one_half_draws_all(rt: HostRuntime) -> Result<(), Fail> {
    let (board, seat) = Board::new(rt.alloc(), 3, 1, 2)?;
    let (a, b) = board.split(seat);
    check_halves(board, a, b, [0, 1, 2, NONE], 5)
}

#[test]
fn halves_know_the_end(rt: HostRuntime) -> Result<(), Fail> {
    let (board, mut seat) = Board::new(rt.alloc(), 3, 1, 2)?;
    let whole = seat.places();
    let all = drawn::<4>(&board, &mut seat, 0);
    let (a, b) = board.split(seat);
    let halves = [a.places(), b.places()];
    check_halves(board, a, b, [NONE], 4)?;
    check_all(&[
        (all == [0, 1, 2, NONE], "the seat that draws"),
        (whole == 2 && halves == [1, 1], "places"),
    ])
}

// The words of at most four ranges, and 0 for a range that does not exist.
fn words(tally: &Tally, ranges: u32) -> [u64; 4]
    requires { (ranges ≤ length tally.now.words) × (ranges ≤ 4) }
{
    let mut words = [0; 4];
    for range in 0..ranges {
        words[range as usize] = tally.word(range);
    }
    words
}

// Fails a test if one seat does not draw these numbers from a board of at most four ranges, or if
// the words at the end are others.
fn check_alone<const N: usize>(
    alloc: Global,
    parts: u32,
    ranges: u32,
    home: u32,
    numbers: [u32; N],
    expected: [u64; 4],
) -> Result<(), Fail>
    requires parts { parts ≤ 4096 }
    requires ranges { (1 ≤ ranges) × (ranges ≤ 4) }
    requires home { home < ranges }
{
    let (board, mut seat) = Board::new(alloc, parts, ranges, 1)?;
    let all = drawn::<N>(&board, &mut seat, home);
    let words = words(&board.close(seat), ranges);
    check_all(&[(all == numbers, "drawn"), (words == expected, "words")])
}

#[test]
fn no_part(rt: HostRuntime) -> Result<(), Fail> {
    check_alone(rt.alloc(), 0, 1, 0, [NONE], [1, 0, 0, 0])
}

#[test]
fn home_in_the_middle(rt: HostRuntime) -> Result<(), Fail> {
    let numbers = [5, 6, 7, 8, 9, 0, 1, 2, 3, 4, NONE, NONE];
    check_alone(rt.alloc(), 10, 4, 2, numbers, [3, 4, 3, 4])
}

#[test]
fn empty_ranges(rt: HostRuntime) -> Result<(), Fail> {
    check_alone(rt.alloc(), 2, 4, 0, [0, 1, NONE], [1, 2, 1, 2])
}

#[test]
fn two_halves(rt: HostRuntime) -> Result<(), Fail> {
    let (board, seat) = Board::new(rt.alloc(), 1, 1, 2)?;
    let (a, b) = board.split(seat);
    check_halves(board, b, a, [0, NONE], 3)
}

// What two seats see of a stop by the second: what the first draws before it, what each then draws
// or is stopped at, and what the first draws after it.
fn drawn_round_a_stop(
    board: &Board,
    first: &mut Seat,
    second: &mut Seat,
) -> ([u32; 1], Draw, Draw, [u32; 1])
    requires seats { (first.old.board ≡ board.now) × (second.old.board ≡ board.now) }
    requires ranges { 0 < board.now.ranges }
    ensures first { (first.new.board ≡ board.now) × (first.new.places ≡ first.old.places) }
    ensures second { (second.new.board ≡ board.now) × (second.new.places ≡ second.old.places) }
{
    let before = drawn::<1>(board, first, 0);
    board.stop(second);
    let one = board.draw_or_stop(first, 0);
    let other = board.draw_or_stop(second, 0);
    let behind = drawn::<1>(board, first, 0);
    (before, one, other, behind)
}

#[test]
fn stop_seen(rt: HostRuntime) -> Result<(), Fail> {
    let (board, seat) = Board::new(rt.alloc(), 4, 1, 2)?;
    let (mut a, mut b) = board.split(seat);
    let (first, one, other, second) = drawn_round_a_stop(&board, &mut a, &mut b);
    let seat = board.join(a, b);
    let tally = board.close(seat);
    let (is_stopped, word) = (tally.stopped(), tally.word(0));
    check_all(&[
        (first == [0] && second == [1], "drawn"),
        (one == Draw::Stopped, "the half that drew"),
        (other == Draw::Stopped, "the half that stopped"),
        (is_stopped, "not stopped"),
        (word == 2, "word"),
    ])
}

#[test]
fn never_stopped(rt: HostRuntime) -> Result<(), Fail> {
    let (board, mut seat) = Board::new(rt.alloc(), 1, 1, 1)?;
    let first = board.draw_or_stop(&mut seat, 0);
    let second = board.draw_or_stop(&mut seat, 0);
    let is_stopped = board.close(seat).stopped();
    check_all(&[
        (first == Draw::Part(0), "the first draw"),
        (second == Draw::Finished, "the second draw"),
        (!is_stopped, "stopped"),
    ])
}

#[test]
fn two_threads_draw_to_the_end(rt: HostRuntime) -> Result<(), Fail> {
    let (board, seat) = Board::new(rt.alloc(), 10, 2, 2)?;
    let (a, b) = board.split(seat);
    let shared = &board;
    let (one, other) = join(
        &rt,
        move || -> (Seat, [u32; 10])
            requires { (a.board ≡ shared.now) × (0 < shared.now.ranges) }
            ensures { (result.0.board ≡ shared.entry.now) × (result.0.places ≡ a.places) }
        { draw_all(shared, a, 0) },
        move || -> (Seat, [u32; 10])
            requires { (b.board ≡ shared.now) × (1 < shared.now.ranges) }
            ensures { (result.0.board ≡ shared.entry.now) × (result.0.places ≡ b.places) }
        { draw_all(shared, b, 1) },
    );
    let (a, first) = one;
    let (b, second) = other;
    let seat = board.join(a, b);
    let tally = board.close(seat);
    let words = [tally.word(0), tally.word(1)];
    for number in 0..10 {
        let times = first[number].wrapping_add(second[number]);
        check_at(number, times == 1, "how often is drawn")?;
    }
    check(words == [7, 7], "words")
}
