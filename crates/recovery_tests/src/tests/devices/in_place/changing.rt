//! A store or a log whose bytes change between two readings, which no one may do.

use super::{
    Left, OPTIONS, Paces, Worked, are_whole, begun, is_untouched, recovered, torn_log, worked_wide,
};
use checks::{check, check_all};
use device::{Failed, MemorySource, Reread, Share, SharedBytes, SharedSource, Source, Span};
use page::Fault;
use std::alloc::Global;
use std::test::Fail;
use std::thread::Threads;

/// Bytes that contracts do not know, as other threads read them.
#[derive(Drop)]
struct UnknownBytes<'a> {
    bytes: SharedBytes<'a>,
}

impl<'a> SharedSource for UnknownBytes<'a> {
    fn read_at(&self, offset: u64, buffer: &mut [u8]) -> Result<usize, Failed> {
        self.bytes.read_at(offset, buffer)
    }
}

/// A source that holds other bytes after some reads. Contracts do not know them. Other threads read
/// what it held before.
#[derive(Drop)]
struct ChangingSource<'a> {
    before: MemorySource<'a>,
    after: MemorySource<'a>,
    /// How many reads are left before the bytes change.
    reads: u32,
    shared: UnknownBytes<'a>,
}

impl<'a> ChangingSource<'a> {
    /// A source that holds the second bytes after this many reads.
    fn new(before: &'a [u8], after: &'a [u8], reads: u32) -> ChangingSource<'a> {
        ChangingSource {
            before: MemorySource::new(before),
            after: MemorySource::new(after),
            reads,
            shared: UnknownBytes {
                bytes: SharedBytes::new(before),
            },
        }
    }
}

impl<'a> Source for ChangingSource<'a> {
    ghost failures = { λ _. 0 };

    fn read(&mut self, buffer: &mut [u8]) -> Result<usize, Failed> {
        self.before.read(buffer)
    }
}

impl<'a> Reread for ChangingSource<'a> {
    fn read_at(&mut self, offset: u64, buffer: &mut [u8]) -> Result<usize, Failed> {
        if self.reads == 0 {
            return self.after.read_at(offset, buffer);
        }
        self.reads -= 1;
        self.before.read_at(offset, buffer)
    }
}

impl<'a> Share for ChangingSource<'a> {
    type Shared = UnknownBytes<'a>;

    fn shared(&self) -> &UnknownBytes<'a> {
        &self.shared
    }

    /// Nothing is to be counted, since contracts do not know the bytes.
    fn count_read(&mut self, _span: Span) {}
}

/// How many reads the first reading of a store of 130 pages takes: one of the header, two of 64
/// pages, one of two pages, and one that finds the end.
const READS: u32 = 5;

/// More reads than all readings of a log of three records take.
const READS_OF_LOG: u32 = 100;

/// Recovers a row whose store holds other bytes when it is read once more.
fn left_of_changed<R: Threads + Sync>(
    rt: &R,
    alloc: Global,
    worked: &Worked,
    after: &[u8],
) -> Result<Left, Fail> {
    let bytes = worked.row.given.bytes.as_slice();
    let mut left = begun(alloc, worked, bytes, &Paces::fast())?;
    let mut store = ChangingSource::new(&worked.before, after, READS);
    let mut log = MemorySource::new(bytes);
    left.answer = recovered(rt, alloc, &mut log, &mut store, &mut left, &OPTIONS);
    Ok(left)
}

/// Recovers a row from a log of these bytes, of which the last one is gone after some reads.
fn left_of_shorter<R: Threads + Sync>(
    rt: &R,
    alloc: Global,
    worked: &Worked,
    bytes: &[u8],
    reads: u32,
) -> Result<Left, Fail> {
    let mut left = begun(alloc, worked, bytes, &Paces::fast())?;
    let mut log = ChangingSource::new(bytes, &bytes[..bytes.len().saturating_sub(1)], reads);
    let mut store = MemorySource::new(&worked.before);
    left.answer = recovered(rt, alloc, &mut log, &mut store, &mut left, &OPTIONS);
    Ok(left)
}

/// The fault of a recovery whose log loses its last byte right before the last reading of it;
/// `None` if there is none, or if something is written.
fn fault_of_shorter<R: Threads + Sync>(
    rt: &R,
    alloc: Global,
    worked: &Worked,
    bytes: &[u8],
) -> Result<Option<Fault>, Fail> {
    for later in 0..READS_OF_LOG {
        let left = left_of_shorter(rt, alloc, worked, bytes, READS_OF_LOG - later)?;
        match left.answer {
            Err(fault) if is_untouched(&left, bytes) => return Ok(Some(fault)),
            Ok(_) if are_whole(worked, &left) => {}
            _ => return Ok(None),
        }
    }
    Ok(None)
}

/// The last reading of the log is of bytes whose sum goes into the file of the tail, before the
/// first write: the end of what is kept, then what is cut off.
#[test]
fn a_log_that_became_shorter(rt: HostRuntime) -> Result<(), Fail> {
    let alloc = rt.alloc();
    let worked = worked_wide(alloc)?;
    let kept = worked.row.given.bytes.as_slice();
    let torn = torn_log(alloc, &worked)?;
    let kept_fault = fault_of_shorter(&rt, alloc, &worked, kept)?;
    check(kept_fault == Some(Fault::BadLsn(0)), "what is kept")?;
    let cut_fault = fault_of_shorter(&rt, alloc, &worked, &torn)?;
    let cut_at = kept.len() as u64;
    check(cut_fault == Some(Fault::BadLsn(cut_at)), "what is cut off")
}

/// Fails a test if the fault is another one; or if the log is not continued and flushed; or if the
/// new store is not this many of the first bytes of the row's.
fn check_late(worked: &Worked, left: &Left, fault: Fault, length: usize) -> Result<(), Fail> {
    let new_log = worked.row.made.bytes.as_slice();
    let is_blamed = match &left.answer {
        Ok(_) => false,
        Err(found) => *found == fault,
    };
    let store = left.store.bytes();
    check_all(&[
        (is_blamed, "the fault"),
        (
            left.new.log.bytes() == new_log && left.new.log.flushed() == new_log,
            "the log",
        ),
        (
            store.len() == length && worked.after.starts_with(store),
            "the store",
        ),
        (left.store.flushed().is_empty(), "flushed"),
    ])
}

/// A page of the last piece is gone, the last one whole or its last byte.
#[test]
fn a_store_that_became_shorter(rt: HostRuntime) -> Result<(), Fail> {
    let alloc = rt.alloc();
    let worked = worked_wide(alloc)?;
    for length in [24 + 1024 * 129, 24 + 1024 * 130 - 1] {
        let Some((after, _)) = worked.before.split_at_checked(length) else {
            return check(false, "the length of the store");
        };
        let left = left_of_changed(&rt, alloc, &worked, after)?;
        check_late(&worked, &left, Fault::StoreSize, 24 + 1024 * 128)?;
    }
    let left = left_of_changed(&rt, alloc, &worked, &[])?;
    check_late(&worked, &left, Fault::StoreSize, 24)
}

/// The bytes of a store with another number in the image that begins at this offset.
fn with_number(alloc: Global, store: &[u8], offset: usize) -> Result<Vec<u8>, Fail> {
    let mut bytes = Vec::from_slice(alloc, store)?;
    if let Some(byte) = bytes.get_mut(offset) {
        *byte = 1;
    }
    Ok(bytes)
}

/// Something is put into page 64, in the second piece, and into page 129, in the third.
#[test]
fn images_that_no_longer_decode(rt: HostRuntime) -> Result<(), Fail> {
    let alloc = rt.alloc();
    let worked = worked_wide(alloc)?;
    for (page, offset, length) in [
        (64, 24 + 1024 * 64, 24 + 1024 * 64),
        (129, 24 + 1024 * 129, 24 + 1024 * 128),
    ] {
        let after = with_number(alloc, &worked.before, offset)?;
        let left = left_of_changed(&rt, alloc, &worked, &after)?;
        check_late(&worked, &left, Fault::BadPage(page), length)?;
    }
    Ok(())
}

/// The image of a page that no record is on is not looked at again: its bytes are the new store's.
#[test]
fn an_image_that_passes_as_bytes(rt: HostRuntime) -> Result<(), Fail> {
    let alloc = rt.alloc();
    let worked = worked_wide(alloc)?;
    let before = with_number(alloc, &worked.before, 24 + 1024 * 100)?;
    let after = with_number(alloc, &worked.after, 24 + 1024 * 100)?;
    let left = left_of_changed(&rt, alloc, &worked, &before)?;
    check(left.answer.is_ok(), "a report")?;
    check(left.store.bytes() == after.as_slice(), "the store")
}
