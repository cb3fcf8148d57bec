//! What a restart changes in the pages of a store, without the pages: images that were worked out by
//! hand, and the same values put into pages in memory.

use changes::{Changes, Pages};
use checks::{check, check_all, check_at};
use page::{Fault, PAGE_BYTES, PAGES, Page, SLOTS, Value, encode_page, encode_pages_into};
use std::alloc::Global;
use std::test::Fail;

/// A value to put: the page, the slot, the value, or none to make the slot absent, and the LSN.
type Put<'a> = (usize, usize, Option<&'a [u8]>, u64);

/// What is put here. The slot 3 of page 1 is put three times.
const PUTS: [Put<'static>; 5] = [
    (1, 3, Some(b"one"), 7),
    (1, 0, Some(b"zero"), 8),
    (0, 15, Some(b""), 9),
    (1, 3, None, 10),
    (1, 3, Some(b"again"), 11),
];

/// The image of page 1 after that: `kept` was in slot 2 before.
const AFTER: [u8; 93] = *b"\0\0\0\x01\0\0\0\0\0\0\0\0\0\0\0\x0b\
\0\x50\0\x04\0\0\0\0\0\x54\0\x04\0\x58\0\x05\0\0\0\0\0\0\0\0\0\0\0\0\0\0\0\0\
\0\0\0\0\0\0\0\0\0\0\0\0\0\0\0\0\0\0\0\0\0\0\0\0\0\0\0\0\0\0\0\0zerokeptagain";

/// The image of page 2 after its PageLSN was set to 12: `other` is in slot 1.
const OTHER_AFTER: [u8; 85] = *b"\0\0\0\x02\0\0\0\0\0\0\0\0\0\0\0\x0c\
\0\0\0\0\0\x50\0\x05\0\0\0\0\0\0\0\0\0\0\0\0\0\0\0\0\0\0\0\0\0\0\0\0\
\0\0\0\0\0\0\0\0\0\0\0\0\0\0\0\0\0\0\0\0\0\0\0\0\0\0\0\0\0\0\0\0other";

/// The three pages of a store, whose PageLSNs are 5, 6 and 4.
fn stored() -> [Page; 3] {
    let mut pages = [Page::empty(0), Page::empty(1), Page::empty(2)];
    pages[0].set(15, Value::new(b"last"), 5);
    pages[1].set(2, Value::new(b"kept"), 3);
    pages[1].set(3, Value::new(b"old"), 6);
    pages[2].set(1, Value::new(b"other"), 4);
    pages
}

/// No change to these pages.
fn begun(alloc: Global, pages: &[Page]) -> Result<Changes, Fault> {
    let mut lsns = Vec::new(alloc);
    for page in pages {
        lsns.push(page.lsn)?;
    }
    Changes::begin(alloc, lsns)
}

/// Puts a value, if the page and the slot are there.
fn put_one<P: Pages>(pages: &mut P, put: Put) -> Result<(), Fault> {
    let (page, slot, bytes, lsn) = put;
    let value = match bytes {
        Some(bytes) => Value::new(bytes),
        None => None,
    };
    if page < pages.len() && slot < SLOTS {
        return pages.put(page, slot, value, lsn);
    }
    Ok(())
}

/// Puts values, one after the other.
fn put_all<P: Pages>(pages: &mut P, puts: &[Put]) -> Result<(), Fault> {
    for put in puts {
        put_one(pages, *put)?;
    }
    Ok(())
}

/// A page after its change, if it has one.
fn changed(changes: &Changes, stored: &Page) -> Page {
    let mut page = *stored;
    if (page.number as usize) < changes.len() {
        changes.change(&mut page);
    }
    page
}

/// Whether these are the same page.
fn are_same(one: &Page, other: &Page) -> bool {
    encode_page(one) == encode_page(other)
}

/// Whether something is put into a page of this number.
fn is_changed(changes: &Changes, page: usize) -> bool {
    page < changes.len() && changes.is_changed(page)
}

/// Whether the page of this number, if it is there, has this PageLSN.
fn has_lsn<P: Pages>(pages: &P, page: usize, lsn: u64) -> bool {
    page < pages.len() && pages.lsn(page) == lsn
}

#[test]
fn values_put_by_way_of_changes(rt: HostRuntime) -> Result<(), Fail> {
    let pages = stored();
    let mut changes = begun(rt.alloc(), &pages)?;
    put_all(&mut changes, &PUTS)?;
    let image = encode_page(&changed(&changes, &pages[1]));
    check_all(&[
        (image.starts_with(&AFTER), "the page"),
        (is_changed(&changes, 0), "page 0 is changed"),
        (is_changed(&changes, 1), "page 1 is changed"),
        (!is_changed(&changes, 2), "page 2 is not"),
        (are_same(&changed(&changes, &pages[2]), &pages[2]), "page 2"),
        (changes.len() == 3, "three pages"),
    ])?;
    check(has_lsn(&changes, 0, 9), "the PageLSN of page 0")
}

#[test]
fn the_same_values_put_into_pages(rt: HostRuntime) -> Result<(), Fail> {
    let pages = stored();
    let mut changes = begun(rt.alloc(), &pages)?;
    let mut same = Vec::from_slice(rt.alloc(), &pages)?;
    put_all(&mut changes, &PUTS)?;
    put_all(&mut same, &PUTS)?;
    for (number, page) in same.iter().enumerate() {
        if number < pages.len() {
            let is_same = are_same(&changed(&changes, &pages[number]), page);
            check_at(number, is_same, "page")?;
        }
    }
    Ok(())
}

#[test]
fn a_page_lsn_alone_is_set(rt: HostRuntime) -> Result<(), Fail> {
    let pages = stored();
    let mut changes = begun(rt.alloc(), &pages)?;
    let mut same = Vec::from_slice(rt.alloc(), &pages)?;
    if changes.len() > 2 && Pages::len(&same) > 2 {
        changes.set_lsn(2, 12);
        Pages::set_lsn(&mut same, 2, 12);
    }
    let page = changed(&changes, &pages[2]);
    check_all(&[
        (has_lsn(&changes, 2, 12), "changes"),
        (has_lsn(&same, 2, 12), "pages"),
        (page.lsn == 12, "the page"),
        (has_lsn(&changes, 1, 6), "another page"),
    ])
}

/// Changes the images of page `first` and of the pages that follow it, if all are there. Returns
/// whether they are.
fn change_images(changes: &Changes, first: usize, images: &mut [u8]) -> Result<bool, Fault> {
    let count = changes.len();
    if count > PAGES || first > count || images.len() % PAGE_BYTES != 0 {
        return Ok(false);
    }
    if images.len() / PAGE_BYTES > count - first {
        return Ok(false);
    }
    changes.change_images(first, images)?;
    Ok(true)
}

#[test]
fn images_changed_where_they_are(rt: HostRuntime) -> Result<(), Fail> {
    let pages = stored();
    let mut changes = begun(rt.alloc(), &pages)?;
    put_all(&mut changes, &PUTS)?;
    if changes.len() > 2 {
        changes.set_lsn(2, 12);
    }
    let mut images = [0; 2 * PAGE_BYTES];
    let (_, last) = pages.split_at(1);
    encode_pages_into(last, &mut images);
    let are_there = change_images(&changes, 1, &mut images)?;
    check_all(&[
        (are_there, "two images"),
        (images.starts_with(&AFTER), "page 1"),
        (images[1024..].starts_with(&OTHER_AFTER), "page 2"),
        (images[93..1024] == [0; 931], "behind page 1"),
        (images[1109..] == [0; 939], "behind page 2"),
    ])
}

#[test]
fn an_image_of_another_page(rt: HostRuntime) -> Result<(), Fail> {
    let pages = stored();
    let mut changes = begun(rt.alloc(), &pages)?;
    put_all(&mut changes, &PUTS)?;
    let mut images = [0; PAGE_BYTES];
    let (_, last) = pages.split_at(2);
    encode_pages_into(last, &mut images);
    let is_refused = match change_images(&changes, 1, &mut images) {
        Ok(_) => false,
        Err(fault) => fault == Fault::BadPage(1),
    };
    check(is_refused, "page 2 for page 1")
}
