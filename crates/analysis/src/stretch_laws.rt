//! Laws of stretches of the log. Each function is a law: what it ensures follows from the
//! definitions only.

ghost use Rattle.analysis.specs.Stretch.{StretchesAreDescribed, StretchesGoOn};

/// Analysis of a log with a stretch after it finds for a transaction what follows from its entry in
/// the log and from what was found of the stretch.
pub fn stretches_go_on()
    ensures { StretchesGoOn }
{}

/// It is enough to know of a stretch the entries that an empty table has after it, the
/// transactions that finish in it, and those with a CLR in their work whose UndoNxtLSN is 0.
pub fn stretches_are_described()
    ensures { StretchesAreDescribed }
{}
