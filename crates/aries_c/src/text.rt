//! The text of a fault.

ghost use Rattle.std.specs.Prelude.{◌≡◌, ◌≢◌, ◌<◌, ◌≤◌, IfSome, IfNone, length};
ghost use Rattle.page.specs.declared.fault.Fault.{Fault as Content};
ghost use Rattle.page.specs.Fault.{number_of};
ghost use Rattle.aries_c.specs.Fault.{place_of, IsBare, IsAtLsn, IsOfPage, OnDone, OnFailed, OnNoRoom, OnOtherFailure, OnNotWritable, NamesFault, NamesNoFault};
ghost use Rattle.aries_c.specs.Writing.{IsAnswerOrMemory, KeepsRest};

use crate::Fault;
use crate::room::put;
use std::alloc::{AllocError, Global};

/// The fault with this number, if it is one without a place.
fn bare_fault(number: u32) -> Option<page::Fault>
    ensures found { IfSome result (λ fault. (number_of fault ≡ number) × IsBare fault) }
    ensures none { IfNone result ((fault : Content) → IsBare fault → number_of fault ≢ number) }
{
    match number {
        1 => Some(page::Fault::NoResource),
        2 => Some(page::Fault::ReadLog),
        3 => Some(page::Fault::ReadStore),
        4 => Some(page::Fault::WriteLog),
        5 => Some(page::Fault::WriteStore),
        6 => Some(page::Fault::BadLogHeader),
        10 => Some(page::Fault::BadStoreHeader),
        11 => Some(page::Fault::StoreSize),
        13 => Some(page::Fault::BadMaster),
        17 => Some(page::Fault::BadParting),
        18 => Some(page::Fault::BadWorkers),
        27 => Some(page::Fault::TransactionTable),
        29 => Some(page::Fault::BadBase),
        _ => None,
    }
}

/// The fault with this number at this offset or LSN, if it is one with such a place.
fn fault_at(number: u32, place: u64) -> Option<page::Fault>
    ensures found { IfSome result (λ fault. (number_of fault ≡ number) × (place_of fault ≡ place)) }
    ensures none { IfNone result ((fault : Content) → IsAtLsn fault → number_of fault ≢ number) }
{
    match number {
        7 => Some(page::Fault::BadLength(place)),
        8 => Some(page::Fault::BadRecord(place)),
        9 => Some(page::Fault::BadLsn(place)),
        14 => Some(page::Fault::NoSuchPage(place)),
        16 => Some(page::Fault::BrokenChain(place)),
        20 => Some(page::Fault::Chain(place)),
        21 => Some(page::Fault::AfterFinish(place)),
        22 => Some(page::Fault::WrongCompensation(place)),
        23 => Some(page::Fault::BeforeImage(place)),
        24 => Some(page::Fault::DirtyWrite(place)),
        25 => Some(page::Fault::EndTooEarly(place)),
        _ => None,
    }
}

/// The fault with this number of this page, if it is one of a page.
fn fault_of_page(number: u32, page: u32) -> Option<page::Fault>
    ensures found { IfSome result (λ fault. (number_of fault ≡ number) × (place_of fault ≡ page)) }
    ensures none { IfNone result ((fault : Content) → IsOfPage fault → number_of fault ≢ number) }
{
    match number {
        12 => Some(page::Fault::BadPage(page)),
        15 => Some(page::Fault::PageAheadOfLog(page)),
        26 => Some(page::Fault::PageImage(page)),
        28 => Some(page::Fault::DirtyTable(page)),
        _ => None,
    }
}

/// The fault with this number, whatever its place; `None` if no fault has it.
fn fault_in(told: &Fault) -> Option<page::Fault>
    ensures found { IfSome result (λ fault. number_of fault ≡ told.now.number) }
    ensures place { IfSome result (λ fault. ¬ IsBare fault → place_of fault ≡ told.now.place) }
    ensures none { IfNone result (NamesNoFault told.now) }
{
    if let Some(fault) = bare_fault(told.number) {
        return Some(fault);
    }
    if let Some(fault) = fault_at(told.number, told.place) {
        return Some(fault);
    }
    let page = u32::try_from(told.place).ok()?;
    fault_of_page(told.number, page)
}

/// The text of a fault, as the program prints it after its number.
fn text_of(alloc: Global, fault: page::Fault) -> Result<String, AllocError> {
    format!(in alloc; "{fault}")
}

/// Writes the text of a fault, such as `dirty write at LSN 7`, without an end mark, to the front of
/// a buffer. 65: no fault has this number, or its page is not a page number; 64: the buffer is too
/// short; 1: memory was refused.
#[unsafe(no_mangle)]
pub extern "C" fn aries_fault_text(
    alloc: Global,
    fault: &Fault,
    out: &mut [u8],
    told: &mut usize,
) -> Fault
    ensures named { OnDone result (NamesFault fault.now) }
    ensures written { OnDone result
        ((told.new ≤ length out.old) × KeepsRest told.new out.old out.new) }
    ensures no_room { OnNoRoom result (length out.old < told.new) }
    ensures not_writable { OnNotWritable result (NamesNoFault fault.now) }
    ensures answer { IsAnswerOrMemory result }
    ensures kept { OnFailed result (out.new ≡ out.old) }
    ensures untold { OnOtherFailure result (told.new ≡ told.old) }
{
    let Some(fault) = fault_in(fault) else {
        return Fault::not_writable();
    };
    match text_of(alloc, fault) {
        Ok(text) => put(text.as_bytes(), out, told),
        Err(refused) => Fault::from(refused),
    }
}
