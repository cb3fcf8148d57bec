//! The rule of a board's words, and what each step on them shows.

use crate::view::{Plan, View};
use atomic_table::{Join, Play, Split, TableRule};

/// What holds for the words and for what all seats know, between any two steps.
pub struct ClaimRule;

impl TableRule<(), View, Plan> for ClaimRule {
    ghost use Rattle.board.specs.Claims.{KeepsRule, opened};

    ghost holds = { KeepsRule };

    ghost first = { opened };
}

/// A step on a claim word: it draws a number, or finds that the range has ended.
pub(crate) struct Claim;

impl Play<(), View> for Claim {
    ghost use Rattle.board.specs.Claims.{claimed};

    ghost then = { claimed };
}

/// A look at the stop word that notes nothing, and shows that the seat's numbers are distinct.
pub(crate) struct Look;

impl Play<(), View> for Look {
    ghost use Rattle.board.specs.Claims.{looked};

    ghost then = { looked };
}

/// A step that stops the board.
pub(crate) struct SetStop;

impl Play<(), View> for SetStop {
    ghost use Rattle.board.specs.Claims.{stop_set};

    ghost then = { stop_set };
}

/// A look at the stop word, which the seat notes.
pub(crate) struct SeeStop;

impl Play<(), View> for SeeStop {
    ghost use Rattle.board.specs.Claims.{stop_seen};

    ghost then = { stop_seen };
}

/// One place of a seat goes to its first half.
pub(crate) struct OnePlace;

impl Split<View> for OnePlace {
    ghost use Rattle.board.specs.Claims.{one_place, other_places};

    ghost left = { one_place };

    ghost right = { other_places };
}

/// A seat gets what another one has.
pub(crate) struct Both;

impl Join<View> for Both {
    ghost use Rattle.board.specs.Claims.{united, nobody};

    ghost both = { united };

    ghost spent = { nobody };
}
