//! Laws of the lines. Each function is a law: what it ensures follows from the definitions only.

ghost use Rattle.dump.specs.LogLines.{FramesStandThere};

/// The offset at the beginning of a record's line is the offset of its frame in the bytes of the
/// log.
pub fn frames_stand_there()
    ensures { FramesStandThere }
{}
