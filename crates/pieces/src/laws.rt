//! Laws of pieces. Each function is a law: what it ensures follows from the definitions only.

ghost use Rattle.pieces.specs.Pieces.{PiecesBelong};

/// Each record of a piece is in the whole log at the same LSN.
pub fn pieces_belong()
    ensures { PiecesBelong }
{}
