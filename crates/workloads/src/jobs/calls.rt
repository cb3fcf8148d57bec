//! Calls that may end with a fault, and what the digest takes of each.

use crate::digest::Digest;
use aries::audit_texts;
use dump::{Choice, Stop, Style, list_log, list_store};
use std::alloc::Global;

/// Audits a pair, and takes the verdict: 0, or the number of the fault.
pub fn judge_into(alloc: Global, log: &[u8], store: &[u8], digest: &mut Digest) {
    match audit_texts(alloc, log, store) {
        Ok(()) => digest.take_number(0),
        Err(fault) => digest.take_number(fault.number() as u64),
    }
}

/// Takes how a listing ended: 0, or the number of the fault.
fn take_end(ended: Result<(), Stop>, digest: &mut Digest) {
    match ended {
        Ok(()) => digest.take_number(0),
        Err(Stop::Fault(fault)) => digest.take_number(fault.number() as u64),
        Err(Stop::Print(_)) => digest.take_number(u64::MAX),
    }
}

/// Lists all records of a log as far as that goes, and takes how it ended.
pub fn list_log_into(alloc: Global, log: &[u8], style: Style, digest: &mut Digest) {
    let all = Choice {
        from: 0,
        to: u64::MAX,
        transaction: None,
        page: None,
    };
    let ended = list_log(alloc, log, style, &all, digest);
    take_end(ended, digest);
}

/// Lists a store as far as that goes, and takes how it ended.
pub fn list_store_into(alloc: Global, store: &[u8], style: Style, digest: &mut Digest) {
    let ended = list_store(alloc, store, style, None, digest);
    take_end(ended, digest);
}
