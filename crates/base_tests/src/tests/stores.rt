//! Images, store files and fault texts that were worked out by hand.

ghost use Rattle.std.specs.Prelude.{◌<◌, ◌≤◌};

use checks::{check, check_all, check_at};
use page::{
    Fault, PAGE_BYTES, Page, Store, StoreReader, Value, decode_page, decode_store, encode_page,
    encode_pages_into, encode_store, store_header,
};
use std::alloc::{AllocError, Global};
use std::test::Fail;

/// The header of a store of one page and master 0.
const ONE_PAGE: [u8; 24] = *b"ARIESPG1\0\0\0\x01\0\0\0\0\0\0\0\0\0\0\0\0";

/// These parts one after the other, and zeros up to this length.
fn padded(alloc: Global, parts: &[&[u8]], len: usize) -> Result<Vec<u8>, AllocError> {
    let mut bytes = Vec::new(alloc);
    for part in parts {
        bytes.extend_from_slice(part)?;
    }
    bytes.resize(len, 0)?;
    Ok(bytes)
}

/// The error of these bytes, if they are not a store.
fn refusal(alloc: Global, bytes: &[u8]) -> Option<Fault> {
    match decode_store(alloc, bytes) {
        Ok(_) => None,
        Err(fault) => Some(fault),
    }
}

/// Whether a page has this image.
fn is_image(page: &Page, image: &[u8]) -> bool {
    encode_page(page).as_slice() == image
}

/// Whether these bytes are a store of master 0, and its only encoding.
fn is_spelled(alloc: Global, bytes: &[u8]) -> Result<bool, Fault> {
    let store = decode_store(alloc, bytes)?;
    let again = encode_store(alloc, &store)?;
    Ok(store.master == 0 && again.as_slice() == bytes)
}

#[test]
fn one_commit(rt: HostRuntime) -> Result<(), Fail> {
    let mut page = Page::empty(0);
    page.set(0, Value::new(b"a"), 1);
    let head = [
        0, 0, 0, 0, 0, 0, 0, 0, 0, 0, 0, 0, 0, 0, 0, 1, 0, 0x50, 0, 1,
    ];
    let image = padded(rt.alloc(), &[&head, &[0; 60], b"a"], 1024)?;
    check(is_image(&page, &image), "image")?;
    let bytes = padded(rt.alloc(), &[&ONE_PAGE, &image], 1048)?;
    check(is_spelled(rt.alloc(), &bytes)?, "store")
}

#[test]
fn empty_and_full_values(rt: HostRuntime) -> Result<(), Fail> {
    let mut page = Page::empty(0);
    page.set(0, Value::new(b""), 1);
    page.set(1, Value::new(&[0x7a; 48]), 2);
    let head = [
        0, 0, 0, 0, 0, 0, 0, 0, 0, 0, 0, 0, 0, 0, 0, 2, 0, 0x50, 0, 0, 0, 0x50, 0, 0x30,
    ];
    let image = padded(rt.alloc(), &[&head, &[0; 56], &[0x7a; 48]], 1024)?;
    check(is_image(&page, &image), "image")
}

#[test]
fn sixteen_full_values() -> Result<(), Fail> {
    let image = encode_page(&full());
    check_all(&[
        (image[76..80] == [0x03, 0x20, 0x00, 0x30], "the last entry"),
        (image[848..] == [0; 176], "behind the values"),
        (image[80] == 0x41, "the first byte"),
        (image[847] == 0x50, "the last byte"),
    ])
}

#[test]
fn pages_have_their_number() -> Result<(), Fail> {
    let image = encode_page(&full());
    let is_same = match decode_page(&image, 0) {
        Ok(again) => is_image(&again, &image),
        Err(_) => false,
    };
    let fault = match decode_page(&image, 1) {
        Ok(_) => None,
        Err(fault) => Some(fault),
    };
    let is_refused = fault == Some(Fault::BadPage(1));
    check_all(&[
        (is_same, "a page of this number"),
        (is_refused, "a page of another number"),
    ])
}

/// The error of these parts and zeros up to this length, if they are not a store.
fn refusal_of(alloc: Global, parts: &[&[u8]], len: usize) -> Option<Fault> {
    match padded(alloc, parts, len) {
        Ok(bytes) => refusal(alloc, &bytes),
        Err(_) => Some(Fault::NoResource),
    }
}

/// Images that are rejected: their first two entries, and what is in their cells.
const REFUSED_IMAGES: [(&str, &[u8], &[u8]); 4] = [
    ("empty-value-wrong-place", &[0, 0x51, 0, 0, 0, 0, 0, 0], b""),
    ("cells-swapped", &[0, 0x51, 0, 1, 0, 0x50, 0, 1], b"xy"),
    ("length-at-offset-0", &[0, 0, 0, 1, 0, 0, 0, 0], b"x"),
    ("entry-of-49", &[0, 0x50, 0, 0x31, 0, 0, 0, 0], &[0x78; 49]),
];

#[test]
fn refused_images(rt: HostRuntime) -> Result<(), Fail> {
    for (name, entries, cells) in REFUSED_IMAGES {
        let parts: [&[u8]; 5] = [&ONE_PAGE, &[0; 16], entries, &[0; 56], cells];
        let fault = refusal_of(rt.alloc(), &parts, 1048);
        check(fault == Some(Fault::BadPage(0)), name)?;
    }
    let parts: [&[u8]; 3] = [&ONE_PAGE, &[0; 1023], &[1]];
    let fault = refusal_of(rt.alloc(), &parts, 1048);
    check(fault == Some(Fault::BadPage(0)), "last-byte-set")
}

/// The error of a store with two pages of number 1.
fn refusal_of_a_number_twice(alloc: Global) -> Option<Fault> {
    let one = encode_page(&Page::empty(1));
    let parts: [&[u8]; 4] = [b"ARIESPG1\0\0\0\x02", &[0; 12], &one, &one];
    refusal_of(alloc, &parts, 2072)
}

/// Stores that are rejected: what comes before their zeros, their length, and the fault.
const REFUSED_STORES: [(&str, &[u8], usize, Fault); 9] = [
    (
        "short-store",
        b"ARIESPG1\0\0\0\x01",
        23,
        Fault::BadStoreHeader,
    ),
    (
        "other magic",
        b"ARIESLG1\0\0\0\x01",
        1048,
        Fault::BadStoreHeader,
    ),
    (
        "reserved",
        b"ARIESPG1\0\0\0\x01\0\0\0\x01",
        1048,
        Fault::BadStoreHeader,
    ),
    ("count 0", b"ARIESPG1", 24, Fault::BadStoreHeader),
    (
        "count 0, 1,024 bytes",
        b"ARIESPG1",
        1048,
        Fault::BadStoreHeader,
    ),
    (
        "count 4,097",
        b"ARIESPG1\0\0\x10\x01",
        24,
        Fault::BadStoreHeader,
    ),
    ("long-store", &ONE_PAGE, 1049, Fault::StoreSize),
    ("one byte short", &ONE_PAGE, 1047, Fault::StoreSize),
    (
        "second page missing",
        b"ARIESPG1\0\0\0\x02",
        2072,
        Fault::BadPage(1),
    ),
];

#[test]
fn refused_stores(rt: HostRuntime) -> Result<(), Fail> {
    for (name, front, len, fault) in REFUSED_STORES {
        let refused = refusal_of(rt.alloc(), &[front], len);
        check(refused == Some(fault), name)?;
    }
    let refused = refusal_of_a_number_twice(rt.alloc());
    check(refused == Some(Fault::BadPage(0)), "number-twice")
}

/// The page of number 0 whose slots all hold 48 bytes.
fn full() -> Page {
    let mut page = Page::empty(0);
    for i in 0..16 {
        page.set(i, Value::new(&[0x41 + i as u8; 48]), 0);
    }
    page
}

/// The store file of this many pages, all like this one except for their numbers.
fn file_of(alloc: Global, count: u32, like: &Page) -> Result<Vec<u8>, AllocError> {
    let mut bytes = padded(alloc, &[b"ARIESPG1", &count.to_be_bytes()], 24)?;
    for number in 0..count {
        let mut page = *like;
        page.number = number;
        bytes.extend_from_slice(&encode_page(&page))?;
    }
    Ok(bytes)
}

/// Whether the store of 4,096 pages like this one is its only encoding.
fn is_largest_spelled(alloc: Global, page: &Page) -> Result<bool, Fault> {
    let bytes = file_of(alloc, 4096, page)?;
    let store = decode_store(alloc, &bytes)?;
    let again = encode_store(alloc, &store)?;
    Ok(
        bytes.len() == 4_194_328
            && store.pages.len() == 4096
            && again.as_slice() == bytes.as_slice(),
    )
}

#[test]
fn largest_store(rt: HostRuntime) -> Result<(), Fail> {
    check_all(&[
        (
            is_largest_spelled(rt.alloc(), &Page::empty(0))?,
            "empty pages",
        ),
        (is_largest_spelled(rt.alloc(), &full())?, "full pages"),
    ])
}

/// What is read of these bytes if they come in pieces of this many images.
fn read_by(alloc: Global, bytes: &[u8], images: usize) -> Result<Store, Fault>
    requires some { 0 < images }
    requires few { images ≤ 4096 }
{
    if bytes.len() < 24 {
        let reader = StoreReader::begin(alloc, bytes);
        return reader.finish();
    }
    let (header, mut rest) = bytes.split_at(24);
    let mut reader = StoreReader::begin(alloc, header);
    let size = PAGE_BYTES * images;
    while rest.len() >= size {
        let (piece, behind) = rest.split_at(size);
        reader.take(piece);
        rest = behind;
    }
    reader.take(rest);
    reader.finish()
}

/// Whether these are the same store or the same fault.
fn is_alike(
    alloc: Global,
    one: Result<Store, Fault>,
    other: Result<Store, Fault>,
) -> Result<bool, Fault> {
    match (one, other) {
        (Ok(one), Ok(other)) => {
            let one = encode_store(alloc, &one)?;
            let other = encode_store(alloc, &other)?;
            Ok(one.as_slice() == other.as_slice())
        }
        (Err(one), Err(other)) => Ok(one == other),
        _ => Ok(false),
    }
}

/// Whether `decode_store` and a reader by pieces of any size return the same for these bytes.
fn is_read_alike(alloc: Global, bytes: &[u8]) -> Result<bool, Fault> {
    let by_one = read_by(alloc, bytes, 1);
    let by_64 = read_by(alloc, bytes, 64);
    let at_once = read_by(alloc, bytes, 4096);
    Ok(
        is_alike(alloc, by_one, decode_store(alloc, bytes))?
            && is_alike(alloc, by_64, decode_store(alloc, bytes))?
            && is_alike(alloc, at_once, decode_store(alloc, bytes))?,
    )
}

#[test]
fn pieces_make_a_store(rt: HostRuntime) -> Result<(), Fail> {
    for count in [1, 64, 65, 130] {
        let bytes = file_of(rt.alloc(), count, &full())?;
        let is_store = refusal(rt.alloc(), &bytes).is_none();
        let is_so = is_store && is_read_alike(rt.alloc(), &bytes)?;
        check_at(count as usize, is_so, "a store of this many pages:")?;
    }
    Ok(())
}

/// Whether the file of 130 pages, with these bytes damaged and cut or filled to this length, has
/// this fault, in pieces too.
fn is_refused_alike(
    alloc: Global,
    damaged: &[usize],
    len: usize,
    fault: Fault,
) -> Result<bool, Fault> {
    let mut bytes = file_of(alloc, 130, &full())?;
    bytes.resize(len, 0)?;
    for &place in damaged {
        if place < bytes.len() {
            bytes[place] ^= 1;
        }
    }
    Ok(refusal(alloc, &bytes) == Some(fault) && is_read_alike(alloc, &bytes)?)
}

/// Files that are rejected: the damaged bytes of the file of 130 pages, its length, the fault.
const REFUSED_PIECES: [(&str, &[usize], usize, Fault); 10] = [
    ("no bytes", &[], 0, Fault::BadStoreHeader),
    ("a short header", &[], 23, Fault::BadStoreHeader),
    ("another magic", &[0], 133_144, Fault::BadStoreHeader),
    ("a header alone", &[], 24, Fault::StoreSize),
    ("a byte short", &[], 133_143, Fault::StoreSize),
    ("a byte long", &[], 133_145, Fault::StoreSize),
    ("an image long", &[], 134_168, Fault::StoreSize),
    ("a bad page 0", &[24], 133_144, Fault::BadPage(0)),
    ("a bad page 64", &[65_560], 133_144, Fault::BadPage(64)),
    (
        "bad pages, a byte short",
        &[24, 65_560],
        133_143,
        Fault::StoreSize,
    ),
];

#[test]
fn pieces_are_refused(rt: HostRuntime) -> Result<(), Fail> {
    for (name, damaged, len, fault) in REFUSED_PIECES {
        check(is_refused_alike(rt.alloc(), damaged, len, fault)?, name)?;
    }
    let both: [usize; 2] = [65_560, 66_584];
    let is_first = is_refused_alike(rt.alloc(), &both, 133_144, Fault::BadPage(64))?;
    check(is_first, "bad pages 64 and 65")
}

/// Whether the file of 130 pages is written by its header and two pieces of 65 images.
fn is_written_by_pieces(alloc: Global) -> Result<bool, Fault> {
    let file = file_of(alloc, 130, &full())?;
    let store = decode_store(alloc, &file)?;
    if store.pages.len() != 130 {
        return Ok(false);
    }
    let (front, back) = store.pages.split_at(65);
    let mut images = vec![in alloc; 0xff; 66_560]?;
    let count = store.pages.len() as u32;
    let mut again = padded(alloc, &[&store_header(count, store.master)], 24)?;
    encode_pages_into(front, &mut images);
    again.extend_from_slice(&images)?;
    encode_pages_into(back, &mut images);
    again.extend_from_slice(&images)?;
    Ok(again.as_slice() == file.as_slice())
}

#[test]
fn pieces_are_written(rt: HostRuntime) -> Result<(), Fail> {
    check(is_written_by_pieces(rt.alloc())?, "130 pages")
}

/// Each fault, and its text.
const TEXTS: [(Fault, &str); 28] = [
    (Fault::NoResource, "no resource"),
    (Fault::ReadLog, "reading the log failed"),
    (Fault::ReadStore, "reading the store failed"),
    (Fault::WriteLog, "writing the log failed"),
    (Fault::WriteStore, "writing the store failed"),
    (Fault::BadLogHeader, "bad log header"),
    (Fault::BadLength(8), "bad length at byte 8"),
    (Fault::BadRecord(40), "bad record at byte 40"),
    (Fault::BadLsn(41), "bad LSN at byte 41"),
    (Fault::BadStoreHeader, "bad store header"),
    (Fault::StoreSize, "bad store size"),
    (Fault::BadPage(0), "bad image of page 0"),
    (Fault::BadMaster, "bad master"),
    (Fault::NoSuchPage(1), "no such page at LSN 1"),
    (Fault::PageAheadOfLog(0), "page 0 is ahead of the log"),
    (
        Fault::BrokenChain(u64::MAX),
        "broken chain at LSN 18446744073709551615",
    ),
    (Fault::BadParting, "bad parting"),
    (Fault::BadWorkers, "bad worker count"),
    (Fault::Chain(2), "wrong previous LSN at LSN 2"),
    (Fault::AfterFinish(3), "record after finish at LSN 3"),
    (Fault::WrongCompensation(2), "wrong compensation at LSN 2"),
    (Fault::BeforeImage(1), "wrong before image at LSN 1"),
    (Fault::DirtyWrite(2), "dirty write at LSN 2"),
    (Fault::EndTooEarly(2), "end too early at LSN 2"),
    (Fault::PageImage(0), "wrong content of page 0"),
    (Fault::TransactionTable, "wrong transaction table"),
    (Fault::DirtyTable(0), "wrong dirty page table at page 0"),
    (Fault::BadBase, "bad base store"),
];

/// Whether a fault has this text.
fn has_text(alloc: Global, fault: Fault, text: &str) -> Result<bool, AllocError> {
    let printed = format!(in alloc; "{fault}")?;
    Ok(printed.as_str() == text)
}

#[test]
fn fault_texts(rt: HostRuntime) -> Result<(), Fail> {
    for (i, &(fault, text)) in TEXTS.iter().enumerate() {
        let number = if i < 18 { i + 1 } else { i + 2 };
        check(fault.number() as usize == number, text)?;
        check(has_text(rt.alloc(), fault, text)?, text)?;
    }
    Ok(())
}

/// Whether this is the only one of these faults that is equal to the fault at this place.
fn is_told_apart(faults: &[(Fault, &str)], fault: Fault, place: usize) -> bool {
    for (i, (other, _)) in faults.iter().enumerate() {
        if (fault == *other) != (i == place) {
            return false;
        }
    }
    true
}

#[test]
fn faults_are_told_apart() -> Result<(), Fail> {
    let faults = &TEXTS;
    for (i, (fault, text)) in faults.iter().enumerate() {
        check(is_told_apart(faults, *fault, i), text)?;
    }
    let far = Fault::NoSuchPage(1 << 32 | 1);
    check_all(&[
        (Fault::BadLsn(41) != Fault::BadLsn(42), "LSNs"),
        (Fault::BadPage(0) != Fault::BadPage(1), "pages"),
        (Fault::NoSuchPage(1) != far, "far LSNs"),
    ])
}
