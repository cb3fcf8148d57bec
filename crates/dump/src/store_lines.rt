//! The lines of a store.

ghost use Rattle.std.specs.Prelude.{ℕ, List, length, take, ◌+◌, ◌≤◌, ◌*◌, ◌/◌, ◌≡◌, ◌<◌, ◌++◌, ◌^◌, OnOk, IfErr};
ghost use Rattle.std.specs.Io.KnownBytes.{Appends, Keeps};
ghost use Rattle.page.specs.declared.profile.TheConstants.{PAGES, PAGE_BYTES};
ghost use Rattle.dump.specs.StoreLines.{store_line, store_lines, slot_name, slot_field, slot_fields, page_line, page_if_asked, ListsStore, IsLineOf, AreLinesOf, BeginsStore, BeginsPages, PrintsRest, PrintsFirstPages, ListsStoreToFault};
ghost use Rattle.page.specs.File.{StoreFault};
ghost use Rattle.page.specs.Images.{image_of};
ghost use Rattle.dump.specs.LogLines.{IfMemory, IsNoFault};

use crate::choice::meets;
use crate::line::{closing, put_number, put_number_field, put_opening, put_text};
use crate::value::{IMAGE_ROOM, put_value};
use crate::{Stop, Style};
use page::{
    Fault, PAGE_BYTES, Page, SLOTS, STORE_HEADER_BYTES, Store, Value, decode_page, decode_store,
};
use std::alloc::{AllocError, Global};
use std::io::Write;

/// The offset in bytes of the image of the first page in a store.
const FIRST_IMAGE: u64 = STORE_HEADER_BYTES as u64;

/// The most bytes that the line of a store's header takes, and that of a page before its slots;
/// some more are kept free.
const OPENING_ROOM: usize = 112;

/// The most bytes that the name of a slot's field takes; more are kept free.
const SLOT_NAME_ROOM: usize = 32;

/// The most bytes that the field of a slot takes.
const SLOT_ROOM: usize = SLOT_NAME_ROOM + IMAGE_ROOM;

/// Appends the line of a store's header.
fn put_store(line: &mut Vec<u8>, style: Style, store: &Store) -> Result<(), AllocError>
    ensures { OnOk result (line.new.items ≡ line.old.items ++ store_line style store.now) }
{
    let mut buffer = [0; OPENING_ROOM];
    let at = put_opening(&mut buffer, style, 0, "store");
    let at = put_number_field(&mut buffer, at, style, "pages", store.pages.len() as u64);
    let at = put_number_field(&mut buffer, at, style, "master", store.master);
    let at = put_text(&mut buffer, at, closing(style));
    line.extend_from_slice(&buffer[..at])
}

/// Writes the name of a slot's field.
fn put_slot_name(buffer: &mut [u8], style: Style, slot: usize) -> usize
    requires { SLOT_NAME_ROOM ≤ length buffer.old }
    ensures end { result ≤ SLOT_NAME_ROOM }
    ensures text { take result buffer.new ≡ slot_name style slot }
{
    match style {
        Style::Text => {
            let at = put_text(buffer, 0, b", slot ");
            let at = put_number(buffer, at, slot as u64);
            put_text(buffer, at, b" ")
        }
        Style::Json => {
            let at = put_text(buffer, 0, b",\"slot ");
            let at = put_number(buffer, at, slot as u64);
            put_text(buffer, at, b"\":")
        }
    }
}

/// Appends the field of a slot; nothing for a slot that holds nothing.
fn put_slot(
    line: &mut Vec<u8>,
    style: Style,
    slot: usize,
    held: &Option<Value>,
) -> Result<(), AllocError>
    ensures { OnOk result (line.new.items
        ≡ line.old.items ++ slot_field style slot held.now) }
{
    match held {
        None => Ok(()),
        Some(value) => {
            let mut buffer = [0; SLOT_ROOM];
            let at = put_slot_name(&mut buffer, style, slot);
            let at = put_value(&mut buffer, at, style, value.as_slice());
            line.extend_from_slice(&buffer[..at])
        }
    }
}

/// Appends the fields of a page's slots.
fn put_slots(
    line: &mut Vec<u8>,
    style: Style,
    slots: &[Option<Value>; SLOTS],
) -> Result<(), AllocError>
    ensures { OnOk result (line.new.items
        ≡ line.old.items ++ slot_fields style 0 slots.now) }
{
    for (slot, held) in slots.iter().enumerate() {
        put_slot(line, style, slot, held)?;
    }
    Ok(())
}

/// Appends the line of a page.
fn put_page(line: &mut Vec<u8>, style: Style, page: &Page) -> Result<(), AllocError>
    ensures { OnOk result (line.new.items ≡ line.old.items ++ page_line style page.now) }
{
    let offset = FIRST_IMAGE + PAGE_BYTES as u64 * page.number as u64;
    let mut buffer = [0; OPENING_ROOM];
    let at = put_opening(&mut buffer, style, offset, "page");
    let at = put_number_field(&mut buffer, at, style, "number", page.number as u64);
    let at = put_number_field(&mut buffer, at, style, "PageLSN", page.lsn);
    line.extend_from_slice(&buffer[..at])?;
    put_slots(line, style, &page.slots)?;
    line.extend_from_slice(closing(style))
}

/// Prints the line of a page if it is asked for. The content of `line` is not used.
fn print_page<W: Write>(
    page: &Page,
    style: Style,
    asked: Option<u32>,
    line: &mut Vec<u8>,
    out: &mut W,
) -> Result<(), Stop>
    ensures printed { OnOk result (Appends (W.contents out.old) (W.contents out.new)
        (page_if_asked style asked page.now)) }
    ensures err { IfErr result IsNoFault }
    ensures kept { IfErr result (λ e. IfMemory e (Keeps (W.contents out.old) (W.contents out.new))) }
{
    if !meets(asked, Some(page.number)) {
        return Ok(());
    }
    line.clear();
    put_page(line, style, page)?;
    out.write_all(line)?;
    Ok(())
}

/// Prints the lines of a store.
fn print_store<W: Write>(
    alloc: Global,
    store: &Store,
    style: Style,
    asked: Option<u32>,
    out: &mut W,
) -> Result<(), Stop>
    ensures printed { OnOk result (Appends (W.contents out.old) (W.contents out.new)
        (store_lines style asked store.now)) }
    ensures err { IfErr result IsNoFault }
    ensures so_far { IfErr result (λ e. IfMemory e (BeginsStore style asked store.now
        (W.contents out.old) (W.contents out.new))) }
{
    let mut line = Vec::new(alloc);
    put_store(&mut line, style, store)?;
    out.write_all(&line)?;
    for page in &store.pages {
        print_page(page, style, asked, &mut line, out)?;
    }
    Ok(())
}

/// Prints the line of the page of this number that an image encodes, if it is asked for; nothing if
/// the image encodes no page.
fn print_image<W: Write>(
    image: &[u8; PAGE_BYTES],
    number: u32,
    style: Style,
    asked: Option<u32>,
    line: &mut Vec<u8>,
    out: &mut W,
) -> Result<(), Stop>
    ensures printed { OnOk result ((text : List ℕ)
        × IsLineOf style asked image.now number text
        × Appends (W.contents out.old) (W.contents out.new) text) }
    ensures err { IfErr result IsNoFault }
    ensures kept { IfErr result (λ e. IfMemory e (Keeps (W.contents out.old) (W.contents out.new))) }
{
    match decode_page(image, number) {
        Ok(page) => print_page(&page, style, asked, line, out),
        Err(_) => Ok(()),
    }
}

/// The image at the place of this number.
fn image_at(images: &[u8], number: usize) -> &[u8; PAGE_BYTES]
    requires { number < length images.now / PAGE_BYTES }
    ensures { result.now ≡ image_of images.now number }
{
    let (_, rest) = images.split_at(PAGE_BYTES * number);
    let Some((image, _)) = rest.split_first_chunk::<PAGE_BYTES>() else {
        unreachable!();
    };
    image
}

/// Prints the lines of the images that are whole.
fn print_images<W: Write>(
    alloc: Global,
    images: &[u8],
    style: Style,
    asked: Option<u32>,
    out: &mut W,
) -> Result<(), Stop>
    requires { length images.now ≤ PAGE_BYTES * PAGES }
    ensures printed { OnOk result ((text : List ℕ)
        × AreLinesOf style asked images.now (length images.now / PAGE_BYTES) text
        × Appends (W.contents out.old) (W.contents out.new) text) }
    ensures err { IfErr result IsNoFault }
    ensures so_far { IfErr result (λ e. IfMemory e (BeginsPages style asked images.now
        (W.contents out.old) (W.contents out.new))) }
{
    let count = images.len() / PAGE_BYTES;
    let mut line = Vec::new(alloc);
    for number in 0..count {
        let image = image_at(images, number);
        print_image(image, number as u32, style, asked, &mut line, out)?;
    }
    Ok(())
}

/// Prints what is left of a store with this fault: its whole pages, if the fault is a page's.
fn print_rest<W: Write>(
    alloc: Global,
    bytes: &[u8],
    fault: &Fault,
    style: Style,
    asked: Option<u32>,
    out: &mut W,
) -> Result<(), Stop>
    requires { StoreFault bytes.now fault.now }
    ensures printed { OnOk result (PrintsRest style asked bytes.now (W.contents out.old)
        (W.contents out.new) fault.now) }
    ensures err { IfErr result IsNoFault }
    ensures so_far { IfErr result (λ e. IfMemory e (PrintsFirstPages style asked bytes.now
        (W.contents out.old) (W.contents out.new))) }
{
    match fault {
        Fault::BadPage(_) => {
            let (_, images) = bytes.split_at(FIRST_IMAGE as usize);
            print_images(alloc, images, style, asked, out)
        }
        _ => Ok(()),
    }
}

/// Prints what a store holds: a line for its header, and one for each page, or only for the page of
/// the number that is asked for. A line begins as those of [`list_log`](crate::list_log) do; the
/// line of a page has its number, its PageLSN and what its slots hold, without those that hold
/// nothing.
///
/// Errors: [`Stop::Fault`] with the fault of [`page::decode_store`] if the store is damaged. If
/// that fault is a page's, the lines of all whole pages are printed, otherwise nothing is.
/// [`Stop::Fault`] with `NoResource` if memory was refused, and [`Stop::Print`] if a line could not
/// be printed. After these two the first of the lines are printed, and only whole lines if memory
/// was refused.
pub fn list_store<W: Write>(
    alloc: Global,
    bytes: &[u8],
    style: Style,
    asked: Option<u32>,
    out: &mut W,
) -> Result<(), Stop>
    ensures listed { OnOk result (ListsStore style asked bytes.now (W.contents out.old)
        (W.contents out.new)) }
    ensures damaged { IfErr result (ListsStoreToFault style asked bytes.now (W.contents out.old)
        (W.contents out.new)) }
{
    match decode_store(alloc, bytes) {
        Ok(store) => print_store(alloc, &store, style, asked, out),
        Err(fault) => {
            print_rest(alloc, bytes, &fault, style, asked, out)?;
            Err(Stop::Fault(fault))
        }
    }
}
