//! Laws of undo. Each function is a law: what it ensures follows from the definitions only.

ghost use Rattle.undo.specs.Enough.{GatheredSuffices};
ghost use Rattle.undo.specs.Undone.{OneUndoFault, NoFaultOfUndo};

/// Undo has at most one error, besides a lack of memory: the first one in this order. The losers
/// are resolved in ascending order of number; then the newest update comes first, and its page
/// comes before the walk from it.
pub fn one_undo_fault()
    ensures { OneUndoFault }
{}

/// If undo succeeds, no error condition holds.
pub fn no_fault_of_undo()
    ensures { NoFaultOfUndo }
{}

/// If what is gathered of a log has all that the walks of the losers come to, undo makes of it what
/// it makes of the whole log, and any error holds for the whole log too.
pub fn gathered_suffices()
    ensures { GatheredSuffices }
{}
