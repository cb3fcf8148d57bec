//! Laws of redo. Each function is a law: what it ensures follows from the definitions only.

ghost use Rattle.redo.specs.Joined.{DirtyContinue, ListedContinue};
ghost use Rattle.redo.specs.Redone.{OneRedoFault, NoFaultOfRedo};

/// Redo has at most one error, besides a lack of memory or threads.
pub fn one_redo_fault()
    ensures { OneRedoFault }
{}

/// If redo may have this number of workers and finds all pages, it has no error, besides a lack of
/// memory or threads.
pub fn no_fault_of_redo()
    ensures { NoFaultOfRedo }
{}

/// Tables that list each page from one LSN on are continued, after a later LSN, by those that list
/// each page from there on: by both redo applies the same of the later records.
pub fn listed_continue()
    ensures { ListedContinue }
{}

/// Tables are continued, after an LSN, by the same dirty pages of which redo looks only at later
/// records.
pub fn dirty_continue()
    ensures { DirtyContinue }
{}
