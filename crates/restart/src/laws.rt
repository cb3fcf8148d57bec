//! Laws of restarts on values. Each function is a law: what it ensures follows from the definitions
//! only.

ghost use Rattle.restart.specs.OneAnswer.{OneOutcome, OneRestartFault, NoFaultOfARestart};

use analysis::one_tables;
use undo::{no_fault_of_undo, one_undo_fault};

/// A log and a store have one outcome. Two outcomes that meet the clause of
/// [`restart`](crate::restart) on every input append the same records, leave the same store and
/// report the same numbers.
pub fn one_outcome()
    ensures { OneOutcome }
{
    one_tables();
}

/// A restart has at most one error, besides a lack of memory or threads.
pub fn one_restart_fault()
    ensures { OneRestartFault }
{
    one_tables();
    one_undo_fault();
}

/// If a restart succeeds, no error condition holds.
pub fn no_fault_of_a_restart()
    ensures { NoFaultOfARestart }
{
    one_tables();
    no_fault_of_undo();
}
