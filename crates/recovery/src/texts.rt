//! The audit of a log and a store by their bytes.

ghost use Rattle.std.specs.Prelude.{OnOk, IfErr, IsOkUnless};
ghost use Rattle.page.specs.declared.fault.Fault.TheVariants.{NoResource};
ghost use Rattle.log_laws.specs.Meaning.{no_base};
ghost use Rattle.recovery.specs.Recovery.{AreLawful};
ghost use Rattle.recovery.specs.Audit.{AuditFault, AreLawfulOver, AuditFaultOver};

use audit::{audit, audit_from};
use page::{Fault, decode_store};
use std::alloc::Global;
use wal::read_log;

/// Whether bytes are those of a log, with or without a torn tail, and its store that are lawful
/// over empty pages: what an ARIES system can leave behind if it began with empty pages. Ok if and
/// only if they are, a lack of memory aside.
///
/// The errors are, in this order: the faults of [`wal::read_log`] for the log; those of
/// [`page::decode_store`] for the store; those of [`audit::audit`], the first broken law.
/// [`Fault::NoResource`], if memory was refused, may come instead of any other result.
pub fn audit_texts(alloc: Global, log: &[u8], store: &[u8]) -> Result<(), Fault>
    ensures ok { OnOk result (AreLawful no_base log.now store.now) }
    ensures fault { IfErr result (AuditFault log.now store.now) }
    // For lawful bytes the only error is a lack of memory.
    ensures lawful { AreLawful no_base log.now store.now → IsOkUnless result NoResource }
{
    let (records, _) = read_log(alloc, log)?;
    let store = decode_store(alloc, store)?;
    audit(alloc, &records, &store)
}

/// Whether bytes are those of a log, with or without a torn tail, and its store that are lawful
/// over the pages of the base store in `base`. Ok if and only if they are, a lack of memory aside.
///
/// The errors are, in this order: the faults of [`wal::read_log`] for the log; those of
/// [`page::decode_store`] for the store, and then for the base store; those of
/// [`audit::audit_from`]. [`Fault::NoResource`], if memory was refused, may come instead of any
/// other result.
pub fn audit_texts_over(alloc: Global, log: &[u8], store: &[u8], base: &[u8]) -> Result<(), Fault>
    ensures ok { OnOk result (AreLawfulOver log.now store.now base.now) }
    ensures fault { IfErr result (AuditFaultOver log.now store.now base.now) }
    // For lawful bytes the only error is a lack of memory.
    ensures lawful { AreLawfulOver log.now store.now base.now → IsOkUnless result NoResource }
{
    let (records, _) = read_log(alloc, log)?;
    let store = decode_store(alloc, store)?;
    let base = decode_store(alloc, base)?;
    audit_from(alloc, &records, &store, &base)
}
