//! Stores that are held without the zeros at the ends of their images.

use checks::{check, check_at};
use device::{MemorySource, Pace, ReadFault, Reread, SlowSource, Source, read_all, read_full_at};
use held_store::HeldStore;
use page::{PAGE_BYTES, Page, SLOTS, STORE_HEADER_BYTES, Value, encode_page};
use std::alloc::{AllocError, Global};
use std::test::Fail;

/// How many images are read at once, and one more.
const MANY: usize = 65;

/// Whether a held store gives these bytes from an offset on, into a buffer of this length.
fn gives(
    alloc: Global,
    held: &mut HeldStore,
    wanted: &[u8],
    offset: u32,
    room: u16,
) -> Result<bool, AllocError> {
    let mut buffer = vec![in alloc; 1; usize::from(room)]?;
    let rest = &wanted[wanted.len().min(offset as usize)..];
    match read_full_at(held, u64::from(offset), &mut buffer) {
        Ok(count) => {
            let is_all = count == rest.len().min(usize::from(room));
            Ok(is_all && rest.starts_with(&buffer[..count]))
        }
        Err(_) => Ok(false),
    }
}

/// Whether these bytes are held, and given back from many offsets.
fn check_held(alloc: Global, bytes: &[u8]) -> Result<(), Fail> {
    let length = bytes.len();
    let Ok(mut held) = HeldStore::read(alloc, &mut MemorySource::new(bytes)) else {
        return check_at(length, false, "held");
    };
    check_at(length, held.hint() == length, "hint")?;
    let offsets: [u32; 12] = [0, 5, 23, 24, 103, 104, 1047, 1048, 3096, 3103, 65560, 66583];
    let rooms: [u16; 4] = [0, 1, 30, 5000];
    for offset in offsets {
        for room in rooms {
            let same = gives(alloc, &mut held, bytes, offset, room)?;
            check_at(offset as usize, same, "from the offset")?;
        }
    }
    let past = held.read_at(u64::MAX, &mut [0; 4]) == Ok(0);
    check_at(length, past, "at the greatest offset")?;
    let same = match read_all(alloc, &mut held) {
        Ok(all) => all.as_slice() == bytes,
        Err(_) => false,
    };
    check_at(length, same, "all")
}

/// A page with a value.
fn some_page() -> Page {
    let mut slots = [None; SLOTS];
    slots[3] = Value::new(b"a value");
    Page {
        number: 0,
        lsn: 7,
        slots,
    }
}

/// A store's header, an image of a page with a value, and an image of an empty page, again and
/// again, cut off at a length.
fn some_store(alloc: Global, length: usize) -> Result<Vec<u8>, AllocError> {
    let mut bytes = vec![in alloc; 9; STORE_HEADER_BYTES]?;
    let empty = Page {
        number: 1,
        lsn: 0,
        slots: [None; SLOTS],
    };
    for _ in 0..length / PAGE_BYTES + 1 {
        bytes.extend_from_slice(&encode_page(&some_page()))?;
        bytes.extend_from_slice(&encode_page(&empty))?;
    }
    bytes.truncate(length);
    Ok(bytes)
}

#[test]
fn stores_of_each_length_are_held(rt: HostRuntime) -> Result<(), Fail> {
    let alloc = rt.alloc();
    for length in [
        0,
        5,
        STORE_HEADER_BYTES,
        STORE_HEADER_BYTES + 50,
        STORE_HEADER_BYTES + PAGE_BYTES,
        STORE_HEADER_BYTES + 3 * PAGE_BYTES + 7,
        STORE_HEADER_BYTES + MANY * PAGE_BYTES,
    ] {
        check_held(alloc, &some_store(alloc, length)?)?;
    }
    Ok(())
}

/// Sets a byte.
fn set(bytes: &mut [u8], place: usize, value: u8) {
    if let Some(byte) = bytes.get_mut(place) {
        *byte = value;
    }
}

#[test]
fn unsound_images_are_held(rt: HostRuntime) -> Result<(), Fail> {
    let alloc = rt.alloc();
    let mut bytes = some_store(alloc, STORE_HEADER_BYTES + 3 * PAGE_BYTES + 7)?;
    set(&mut bytes, STORE_HEADER_BYTES + 3 * PAGE_BYTES + 6, 1);
    check_held(alloc, &bytes)?;
    // Another byte where zeros are, and the greatest length in the directory.
    set(&mut bytes, STORE_HEADER_BYTES + PAGE_BYTES - 1, 2);
    set(&mut bytes, STORE_HEADER_BYTES + PAGE_BYTES + 18, 255);
    set(&mut bytes, STORE_HEADER_BYTES + PAGE_BYTES + 19, 255);
    check_held(alloc, &bytes)?;
    // A length that ends the cells before their end.
    set(&mut bytes, STORE_HEADER_BYTES + 2 * PAGE_BYTES + 31, 3);
    check_held(alloc, &bytes)
}

#[test]
fn each_failure_is_told(rt: HostRuntime) -> Result<(), Fail> {
    let alloc = rt.alloc();
    let bytes = some_store(alloc, 3000)?;
    for call in 1..5u32 {
        let mut source = SlowSource::new(&bytes, Pace::failing(1000, call));
        let failed = match HeldStore::read(alloc, &mut source) {
            Ok(_) => false,
            Err(fault) => fault == ReadFault::Failed,
        };
        check_at(call as usize, failed, "the call that fails")?;
    }
    let mut source = SlowSource::new(&bytes, Pace::of_step(999));
    check(HeldStore::read(alloc, &mut source).is_ok(), "no failure")
}
