//! Laws of marks. Each function is a law: what it ensures follows from the definitions only.

ghost use Rattle.cursor.specs.Ends.{FaultIsOfLog};

/// A fault after a mark is the fault that reading the whole log returns.
pub fn fault_is_of_log()
    ensures { FaultIsOfLog }
{}
