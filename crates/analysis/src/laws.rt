//! Laws of tables. Each function is a law: what it ensures follows from the definitions only.

ghost use Rattle.analysis.specs.Tables.{OneTables, OneBaseFault, NoFaultOfTables};
ghost use Rattle.analysis.specs.Passing.{EntriesGoOn, RecLsnsGoOn};

/// A log has, after an LSN, only one transaction table and one dirty page table, entry for entry,
/// and one LSN from which redo begins.
pub fn one_tables()
    ensures { OneTables }
{}

/// Analysis of a log has at most one error, besides a lack of memory.
pub fn one_base_fault()
    ensures { OneBaseFault }
{}

/// If a log has tables after an LSN, analysis has no error there, besides a lack of memory.
pub fn no_fault_of_tables()
    ensures { NoFaultOfTables }
{}

/// Analysis of a log with more records after it finds for a transaction what analysis of only these
/// records finds, if that begins from the entry that was found in the log.
pub fn entries_go_on()
    ensures { EntriesGoOn }
{}

/// Analysis of a log with more records after it finds for a page the RecLSN that analysis of only
/// these records finds, if that begins from the RecLSN that was found in the log.
pub fn rec_lsns_go_on()
    ensures { RecLsnsGoOn }
{}
