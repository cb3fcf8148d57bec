//! Laws of recoveries and audits of bytes. Each function is a law: what it ensures follows from the
//! definitions only.

ghost use Rattle.recovery.specs.OneAnswer.{OneRecovery, OneRecoveryFault, OneAuditFault, OneAuditFaultOver, NoFaultOfARecovery, NoFaultOfLawfulTexts, NoFaultOfLawfulTextsOver};

use analysis::one_tables;
use audit::{
    no_fault_of_the_lawful, no_fault_of_the_lawful_over, one_first_fault, one_first_fault_over,
};
use page::{no_fault_of_a_store, one_store_fault, one_store_spelling};
use restart::one_outcome;
use undo::{no_fault_of_undo, one_undo_fault};
use wal::{no_fault_of_a_log, one_log_fault, one_reading};

/// The bytes of a log and of a store have one recovery. Two recoveries that meet the clause of
/// [`recover`](crate::recover) on every input write the same bytes of both, and the same report.
pub fn one_recovery()
    ensures { OneRecovery }
{
    one_reading();
    one_store_spelling();
    one_outcome();
}

/// For the bytes of a log and of a store, a recovery has at most one error, besides a lack of
/// memory or a failure of a device.
pub fn one_recovery_fault()
    ensures { OneRecoveryFault }
{
    one_log_fault();
    no_fault_of_a_log();
    one_reading();
    one_store_fault();
    no_fault_of_a_store();
    one_store_spelling();
    one_tables();
    one_undo_fault();
}

/// If a recovery succeeds, no error condition holds.
pub fn no_fault_of_a_recovery()
    ensures { NoFaultOfARecovery }
{
    no_fault_of_a_log();
    one_reading();
    no_fault_of_a_store();
    one_store_spelling();
    one_tables();
    no_fault_of_undo();
}

/// For the bytes of a log and of a store, an audit has at most one error, besides a lack of memory.
pub fn one_audit_fault()
    ensures { OneAuditFault }
{
    one_log_fault();
    no_fault_of_a_log();
    one_reading();
    one_store_fault();
    no_fault_of_a_store();
    one_store_spelling();
    one_first_fault();
}

/// For the bytes of a lawful log and its store, an audit has no error, besides a lack of memory.
pub fn no_fault_of_lawful_texts()
    ensures { NoFaultOfLawfulTexts }
{
    no_fault_of_a_log();
    one_reading();
    no_fault_of_a_store();
    one_store_spelling();
    no_fault_of_the_lawful();
}

/// For the bytes of a log and of a store over those of a base store, an audit has at most one
/// error, besides a lack of memory.
pub fn one_audit_fault_over()
    ensures { OneAuditFaultOver }
{
    one_log_fault();
    no_fault_of_a_log();
    one_reading();
    one_store_fault();
    no_fault_of_a_store();
    one_store_spelling();
    one_first_fault_over();
}

/// For the bytes of a log and its store that are lawful over those of a base store, an audit has no
/// error, besides a lack of memory.
pub fn no_fault_of_lawful_texts_over()
    ensures { NoFaultOfLawfulTextsOver }
{
    no_fault_of_a_log();
    one_reading();
    no_fault_of_a_store();
    one_store_spelling();
    no_fault_of_the_lawful_over();
}
