//! The fields of a record in bytes: numbers, transaction numbers, slots, images.

ghost use Rattle.std.specs.Prelude.{◌≡◌, ◌++◌, ◌∷◌, [], OnOk, length, map, option_map, ◌<◌, ◌^◌};
ghost use Rattle.std.specs.Int.{w32, w64, to_be_bytes};
ghost use Rattle.wal.specs.Reading.{number_at, tx_at, slot_at, image_at, plain_at, state_at, entry_at, dirty_at};
ghost use Rattle.wal.specs.Spelling.{image, state as state_text, entry as entry_text, dirty_page, table};
ghost use Rattle.wal.specs.Content.{entry_of, Keeps};
ghost use Rattle.page.specs.Image.{FitsSlot};

use crate::record::Entry;
use crate::sizes::{ABSENT, DIRTY_BYTES, ENTRY_BYTES, LSN_BYTES};
use log_laws::State;
use page::{SLOTS, VALUE_BYTES, Value};
use std::alloc::{AllocError, Allocator};

/// The number in the first four bytes, big-endian, and the bytes after it. `None` if there are
/// fewer.
#[inline(always)]
pub fn u32_at(bytes: &[u8]) -> Option<(u32, &[u8])>
    ensures { option_map (λ x. (x.0, x.1.now)) result ≡ number_at w32 bytes.now }
{
    if bytes.len() < 4 {
        return None;
    }
    let (front, rest) = bytes.split_at(4);
    Some((
        u32::from_be_bytes([front[0], front[1], front[2], front[3]]),
        rest,
    ))
}

/// The number in the first eight bytes, big-endian, and the bytes after it. `None` if there are
/// fewer.
#[inline(always)]
pub fn u64_at(bytes: &[u8]) -> Option<(u64, &[u8])>
    ensures { option_map (λ x. (x.0, x.1.now)) result ≡ number_at w64 bytes.now }
{
    if bytes.len() < 8 {
        return None;
    }
    let (front, rest) = bytes.split_at(8);
    let number = u64::from_be_bytes([
        front[0], front[1], front[2], front[3], front[4], front[5], front[6], front[7],
    ]);
    Some((number, rest))
}

/// The number of a transaction at the front, and the bytes after it. `None` if it is 0, which no
/// transaction has, or if there are too few bytes.
#[inline(always)]
#[tactic(auto, unfolding(crate::specs::Reading::tx_at))]
pub fn tx_at(bytes: &[u8]) -> Option<(u32, &[u8])>
    ensures { option_map (λ x. (x.0, x.1.now)) result ≡ tx_at bytes.now }
{
    let (tx, rest) = u32_at(bytes)?;
    if tx == 0 {
        return None;
    }
    Some((tx, rest))
}

/// The number of a slot at the front, and the bytes after it. `None` if a page has no such slot, or
/// if there is no byte.
#[inline(always)]
#[tactic(auto, unfolding(crate::specs::Reading::slot_at))]
pub fn slot_at(bytes: &[u8]) -> Option<(u8, &[u8])>
    ensures { option_map (λ x. (x.0, x.1.now)) result ≡ slot_at bytes.now }
{
    match bytes {
        [] => None,
        [slot, rest @ ..] => {
            if *slot as usize >= SLOTS {
                return None;
            }
            Some((*slot, rest))
        }
    }
}

/// An image at the front, and the bytes after it. It is a byte for the length and then the value;
/// the byte `ABSENT` alone says that the slot has no value. `None` if the value would be too long,
/// or if there are too few bytes.
#[inline(always)]
#[tactic(auto, unfolding(crate::specs::Reading::image_at))]
pub fn image_at(bytes: &[u8]) -> Option<(Option<&[u8]>, &[u8])>
    ensures { option_map (λ x. (option_map (λ s. s.now) x.0, x.1.now)) result ≡ image_at bytes.now }
{
    match bytes {
        [] => None,
        [size, rest @ ..] => {
            if *size == ABSENT {
                return Some((None, rest));
            }
            if *size as usize > VALUE_BYTES {
                return None;
            }
            let size = *size as usize;
            if rest.len() < size {
                return None;
            }
            let (value, rest) = rest.split_at(size);
            Some((Some(value), rest))
        }
    }
}

/// The fields with which the records of a transaction begin, and the bytes after them: the
/// transaction, and the LSN of its record before this one. `None` if these bytes are none.
#[inline(always)]
#[tactic(auto, unfolding(crate::specs::Reading::plain_at))]
pub fn plain_at(bytes: &[u8]) -> Option<(u32, u64, &[u8])>
    ensures { option_map (λ x. (record { tx = x.0; prev = x.1 }, x.2.now)) result
        ≡ plain_at bytes.now }
{
    let (tx, rest) = tx_at(bytes)?;
    let (prev, rest) = u64_at(rest)?;
    Some((tx, prev, rest))
}

/// The state of a transaction at the front, and the bytes after it. `None` if there is no byte, or
/// if no state has its number.
#[inline(always)]
#[tactic(auto, unfolding(crate::specs::Reading::state_at))]
fn state_at(bytes: &[u8]) -> Option<(State, &[u8])>
    ensures { option_map (λ x. (x.0, x.1.now)) result ≡ state_at bytes.now }
{
    match bytes {
        [] => None,
        [code, rest @ ..] => match *code {
            0 => Some((State::Active, rest)),
            1 => Some((State::Aborting, rest)),
            2 => Some((State::Prepared, rest)),
            _ => None,
        },
    }
}

/// A transaction and its entry in a transaction table at the front, and the bytes after them.
/// `None` if these bytes are none.
#[inline(always)]
#[tactic(auto, unfolding(crate::specs::Reading::entry_at))]
pub fn entry_at(bytes: &[u8]) -> Option<(u32, Entry, &[u8])>
    ensures { option_map (λ x. (entry_of (x.0, x.1), x.2.now)) result ≡ entry_at bytes.now }
{
    let (tx, rest) = tx_at(bytes)?;
    let (state, rest) = state_at(rest)?;
    let (last, rest) = u64_at(rest)?;
    let (undo_next, rest) = u64_at(rest)?;
    let entry = Entry {
        state,
        last,
        undo_next,
    };
    Some((tx, entry, rest))
}

/// A page and its RecLSN in a dirty page table at the front, and the bytes after them. `None` if
/// there are too few bytes.
#[inline(always)]
#[tactic(auto, unfolding(crate::specs::Reading::dirty_at))]
pub fn dirty_at(bytes: &[u8]) -> Option<(u32, u64, &[u8])>
    ensures { option_map (λ x. ((x.0, x.1), x.2.now)) result ≡ dirty_at bytes.now }
{
    let (page, rest) = u32_at(bytes)?;
    let (rec_lsn, rest) = u64_at(rest)?;
    Some((page, rec_lsn, rest))
}

/// How many bytes an image takes in a record, with the byte for its length.
pub fn image_len(value: &Option<Value>) -> usize
    ensures { result ≡ length (image value.now) }
{
    match value {
        None => 1,
        Some(value) => value.as_slice().len() + 1,
    }
}

/// Appends an image, with the byte for its length. On an error the bytes from before are still in
/// front.
#[tactic(auto, using(crate::proofs::Keeping::keeps_same, crate::proofs::Keeping::keeps_if))]
pub fn put_image<A: Allocator>(
    out: &mut Vec<u8, A>,
    value: &Option<Value>,
) -> Result<(), AllocError>
    requires { FitsSlot value.now }
    ensures ok { OnOk result (out.new.items ≡ out.old.items ++ image value.now) }
    ensures kept { Keeps out.old.items out.new.items }
{
    match value {
        None => out.push(ABSENT)?,
        Some(value) => {
            let value = value.as_slice();
            out.push(value.len() as u8)?;
            out.extend_from_slice(value)?;
        }
    }
    Ok(())
}

/// The number of a state in a table.
fn state_code(state: State) -> u8
    ensures { result ∷ [] ≡ state_text state }
{
    match state {
        State::Active => 0,
        State::Aborting => 1,
        State::Prepared => 2,
    }
}

/// The bytes of a transaction's entry in a transaction table.
#[inline(always)]
pub fn entry_bytes(tx: u32, entry: Entry) -> [u8; ENTRY_BYTES]
    ensures { result ≡ entry_text (entry_of (tx, entry)) }
{
    let mut bytes = [0; ENTRY_BYTES];
    bytes[..4].copy_from_slice(&tx.to_be_bytes());
    bytes[4] = state_code(entry.state);
    bytes[5..5 + LSN_BYTES].copy_from_slice(&entry.last.to_be_bytes());
    bytes[5 + LSN_BYTES..].copy_from_slice(&entry.undo_next.to_be_bytes());
    bytes
}

/// The bytes of a page's entry in a dirty page table.
#[inline(always)]
pub fn dirty_bytes(page: u32, rec_lsn: u64) -> [u8; DIRTY_BYTES]
    ensures { result ≡ dirty_page (page, rec_lsn) }
{
    let mut bytes = [0; DIRTY_BYTES];
    bytes[..4].copy_from_slice(&page.to_be_bytes());
    bytes[4..].copy_from_slice(&rec_lsn.to_be_bytes());
    bytes
}

/// Appends a transaction table: the number of entries, and the entries. On an error the bytes from
/// before are still in front.
pub fn put_entries<A: Allocator>(
    out: &mut Vec<u8, A>,
    entries: &[(u32, Entry)],
) -> Result<(), AllocError>
    requires { length entries.now < 2 ^ 32 }
    ensures ok { OnOk result (out.new.items
        ≡ out.old.items ++ table entry_text (map entry_of entries.now)) }
    ensures kept { Keeps out.old.items out.new.items }
{
    out.extend_from_slice(&(entries.len() as u32).to_be_bytes())?;
    for (tx, entry) in entries {
        out.extend_from_slice(&entry_bytes(*tx, *entry))?;
    }
    Ok(())
}

/// Appends the entry of a page in a dirty page table. On an error the bytes from before are still
/// in front.
#[tactic(auto, using(crate::proofs::Keeping::keeps_same, crate::proofs::Keeping::keeps_if))]
fn put_dirty<A: Allocator>(out: &mut Vec<u8, A>, page: u32, rec_lsn: u64) -> Result<(), AllocError>
    ensures ok { OnOk result (out.new.items ≡ out.old.items ++ dirty_page (page, rec_lsn)) }
    ensures kept { Keeps out.old.items out.new.items }
{
    out.extend_from_slice(&dirty_bytes(page, rec_lsn))?;
    Ok(())
}

/// Appends a dirty page table: the number of entries, and the entries. On an error the bytes from
/// before are still in front.
pub fn put_dirties<A: Allocator>(
    out: &mut Vec<u8, A>,
    entries: &[(u32, u64)],
) -> Result<(), AllocError>
    requires { length entries.now < 2 ^ 32 }
    ensures ok { OnOk result (out.new.items ≡ out.old.items ++ table dirty_page entries.now) }
    ensures kept { Keeps out.old.items out.new.items }
{
    out.extend_from_slice(&(entries.len() as u32).to_be_bytes())?;
    for (page, rec_lsn) in entries {
        put_dirty(out, *page, *rec_lsn)?;
    }
    Ok(())
}
