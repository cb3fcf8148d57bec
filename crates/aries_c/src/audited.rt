//! The audit of bytes.

ghost use Rattle.log_laws.specs.Meaning.{no_base};
ghost use Rattle.recovery.specs.Recovery.{AreLawful};
ghost use Rattle.recovery.specs.Audit.{AuditFault, AreLawfulOver, AuditFaultOver};
ghost use Rattle.aries_c.specs.Fault.{Tells, IsOnlyMemory, OnDone, OnFailed};

use crate::Fault;
use recovery::{audit_texts, audit_texts_over};
use std::alloc::Global;

/// Whether the bytes of a log, with or without a torn tail, and of its store are lawful over empty
/// pages. The number is 0 if and only if they are, a lack of memory aside. Otherwise the result is
/// the number and the place of the fault of [`audit_texts`]: the first broken law.
#[unsafe(no_mangle)]
pub extern "C" fn aries_audit(alloc: Global, log: &[u8], store: &[u8]) -> Fault
    ensures ok { OnDone result (AreLawful no_base log.now store.now) }
    ensures fault { OnFailed result (Tells (AuditFault log.now store.now) result) }
    // For lawful bytes the only error is a lack of memory.
    ensures lawful { AreLawful no_base log.now store.now → IsOnlyMemory result }
{
    match audit_texts(alloc, log, store) {
        Ok(()) => Fault::none(),
        Err(fault) => Fault::from(fault),
    }
}

/// Whether the bytes of a log, with or without a torn tail, and of its store are lawful over the
/// pages of a base store. The number is 0 if and only if they are, a lack of memory aside.
/// Otherwise the result is the number and the place of the fault of [`audit_texts_over`].
#[unsafe(no_mangle)]
pub extern "C" fn aries_audit_from(alloc: Global, log: &[u8], store: &[u8], base: &[u8]) -> Fault
    ensures ok { OnDone result (AreLawfulOver log.now store.now base.now) }
    ensures fault { OnFailed result (Tells (AuditFaultOver log.now store.now base.now) result) }
    // For lawful bytes the only error is a lack of memory.
    ensures lawful { AreLawfulOver log.now store.now base.now → IsOnlyMemory result }
{
    match audit_texts_over(alloc, log, store, base) {
        Ok(()) => Fault::none(),
        Err(fault) => Fault::from(fault),
    }
}
