//! PageLSNs of stores whose bytes come piece by piece: bytes that were worked out by hand.

use checks::{check, check_all};
use page::{Fault, LsnReader, StoreLsns};
use std::alloc::{AllocError, Global};
use std::test::Fail;

/// A store of two pages: its header, with master 9, and the headers of its images, of the PageLSNs
/// 5 and 258.
const HEADER: [u8; 24] = *b"ARIESPG1\0\0\0\x02\0\0\0\0\0\0\0\0\0\0\0\x09";

const FIRST: [u8; 16] = *b"\0\0\0\0\0\0\0\0\0\0\0\0\0\0\0\x05";

const SECOND: [u8; 16] = *b"\0\0\0\x01\0\0\0\0\0\0\0\0\0\0\x01\x02";

/// An image that begins with these bytes and is zero after them.
fn image(alloc: Global, head: &[u8]) -> Result<Vec<u8>, AllocError> {
    let mut image = Vec::new(alloc);
    image.extend_from_slice(head)?;
    image.resize(1024, 0)?;
    Ok(image)
}

/// What the bytes of a header and of two pieces encode.
fn read(alloc: Global, header: &[u8; 24], first: &[u8], second: &[u8]) -> Result<StoreLsns, Fault> {
    let mut reader = LsnReader::begin(alloc, header);
    if first.len() % 1024 == 0 {
        reader.take(first);
        reader.take(second);
    }
    reader.finish()
}

/// The error of a header and of two pieces, if they are not a store.
fn refusal(alloc: Global, header: &[u8; 24], first: &[u8], second: &[u8]) -> Option<Fault> {
    match read(alloc, header, first, second) {
        Ok(_) => None,
        Err(fault) => Some(fault),
    }
}

#[test]
fn the_lsns_of_two_pages(rt: HostRuntime) -> Result<(), Fail> {
    let first = image(rt.alloc(), &FIRST)?;
    let second = image(rt.alloc(), &SECOND)?;
    let found = read(rt.alloc(), &HEADER, &first, &second)?;
    check_all(&[
        (found.master == 9, "the master"),
        (found.lsns.as_slice() == [5, 258].as_slice(), "the PageLSNs"),
    ])
}

#[test]
fn stores_that_are_refused(rt: HostRuntime) -> Result<(), Fail> {
    let first = image(rt.alloc(), &FIRST)?;
    let second = image(rt.alloc(), &SECOND)?;
    let mut other = HEADER;
    other[11] = 3;
    let short = refusal(rt.alloc(), &other, &first, &second);
    other[7] = b'2';
    let magic = refusal(rt.alloc(), &other, &first, &second);
    let twice = refusal(rt.alloc(), &HEADER, &first, &first);
    check_all(&[
        (short == Some(Fault::StoreSize), "a page is missing"),
        (magic == Some(Fault::BadStoreHeader), "another magic"),
        (twice == Some(Fault::BadPage(1)), "the same page twice"),
    ])
}

#[test]
fn fewer_bytes_than_a_header(rt: HostRuntime) -> Result<(), Fail> {
    let reader = LsnReader::begin(rt.alloc(), &HEADER[..23]);
    let is_refused = match reader.finish() {
        Ok(_) => false,
        Err(fault) => fault == Fault::BadStoreHeader,
    };
    check(is_refused, "23 bytes")
}
