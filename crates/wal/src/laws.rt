//! Laws of the bytes of logs. Each function is a law: what it ensures follows from the definitions
//! only.

ghost use Rattle.wal.specs.Profile.{IsLogProfile};
ghost use Rattle.wal.specs.Numbers.{AreLogNumbers};
ghost use Rattle.wal.specs.Reads.{OneReading, OneLogFault, NoFaultOfALog};
ghost use Rattle.wal.specs.Cut.{CutsSettle, CutsCompose};

/// The same bytes never encode two logs.
pub fn one_reading()
    ensures { OneReading }
{}

/// Bytes that are not a log have at most one error, besides a lack of memory.
pub fn one_log_fault()
    ensures { OneLogFault }
{}

/// Bytes that are a log have no error, besides a lack of memory.
pub fn no_fault_of_a_log()
    ensures { NoFaultOfALog }
{}

/// A restart of a lawful log that is interrupted leaves a cut: the log, a prefix of the bytes that
/// it appends, and a store of which some pages may be written. The whole records of a cut and its
/// store are lawful, and a restart of them ends with the log and the store with which an
/// uninterrupted restart of the first log ends.
pub fn cuts_settle()
    ensures { CutsSettle }
{}

/// A cut of what a restart continues to from a cut is a cut of the first log and store.
pub fn cuts_compose()
    ensures { CutsCompose }
{}

/// The numbers of the profile keep what logs need.
pub fn numbers_of_a_log()
    ensures { IsLogProfile }
{}

/// The numbers of logs are those of the formats.
pub fn numbers_of_logs()
    ensures { AreLogNumbers }
{}
