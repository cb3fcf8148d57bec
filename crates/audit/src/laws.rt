//! Laws of the audit. Each function is its law: what it ensures holds of the definitions alone.

ghost use Rattle.audit.specs.FirstFault.{OneFirstFault, NoFaultOfTheLawful};
ghost use Rattle.audit.specs.Base.{OneFirstFaultOver, NoFaultOfTheLawfulOver};

/// A log and a store have at most one error, besides a lack of memory.
pub fn one_first_fault()
    ensures { OneFirstFault }
{}

/// A lawful log and store have no error, besides a lack of memory.
pub fn no_fault_of_the_lawful()
    ensures { NoFaultOfTheLawful }
{}

/// A log and a store have at most one error over a base store, besides a lack of memory.
pub fn one_first_fault_over()
    ensures { OneFirstFaultOver }
{}

/// A log and a store that are lawful over a base store have no error over it, besides a lack of
/// memory.
pub fn no_fault_of_the_lawful_over()
    ensures { NoFaultOfTheLawfulOver }
{}
