//! A store's header, and the images of its pages.

ghost use Rattle.std.specs.Prelude.{◌≡◌, ◌<◌, IfOk, IfErr, OnErr};
ghost use Rattle.page.specs.declared.fault.Fault.TheVariants.{BadPage};
ghost use Rattle.page.specs.Image.{SpellsPage};
ghost use Rattle.aries_c.specs.Fault.{told_of, not_writable, OnDone, OnFailed, OnNoRoom, OnNotWritable};
ghost use Rattle.aries_c.specs.Pages.{NamesPage, IsStoreHeader, IsPageImage, NamesNoPage, TellsPage, HasNoPage};
ghost use Rattle.aries_c.specs.Writing.{Wrote, LacksRoom, IsAnswer, HasNoText};

use crate::Fault;
use crate::room::put;
use journal::PageImage;
use page::{PAGE_BYTES, PAGES, Page, decode_page, encode_page, store_header};

/// The page that C gives; not writable if the length of a slot is wrong.
fn page_of(told: &PageImage) -> Result<Page, Fault>
    ensures found { IfOk result (NamesPage told.now) }
    ensures err { IfErr result (λ e. e ≡ not_writable) }
    ensures only { OnErr result (NamesNoPage told.now) }
{
    if !told.slots.iter().all(|image| image.is_valid()) {
        return Err(Fault::not_writable());
    }
    Ok(told.page())
}

/// Writes a store's header to the front of a buffer: its page count, 1 to [`PAGES`], and its master
/// LSN, 0 for none. 65: the page count is out of range; 64: the buffer is too short.
#[unsafe(no_mangle)]
pub extern "C" fn aries_write_store_header(
    pages: u32,
    master: u64,
    out: &mut [u8],
    told: &mut usize,
) -> Fault
    ensures written { OnDone result (Wrote (IsStoreHeader pages master) out.old out.new told.new) }
    ensures no_room { OnNoRoom result (LacksRoom (IsStoreHeader pages master) out.old told.new) }
    ensures not_writable { OnNotWritable result (HasNoText (IsStoreHeader pages master)) }
    ensures answer { IsAnswer result }
    ensures kept { OnFailed result (out.new ≡ out.old) }
    ensures untold { OnNotWritable result (told.new ≡ told.old) }
{
    if pages == 0 || pages as usize > PAGES {
        return Fault::not_writable();
    }
    put(&store_header(pages, master), out, told)
}

/// Writes the image of a page, [`PAGE_BYTES`] bytes, to the front of a buffer. 65: a slot holds
/// neither an absent value nor one of at most `VALUE_BYTES` bytes; 64: the buffer is too short.
#[unsafe(no_mangle)]
pub extern "C" fn aries_write_page(page: &PageImage, out: &mut [u8], told: &mut usize) -> Fault
    ensures written { OnDone result (Wrote (IsPageImage page.now) out.old out.new told.new) }
    ensures no_room { OnNoRoom result (LacksRoom (IsPageImage page.now) out.old told.new) }
    ensures not_writable { OnNotWritable result (HasNoText (IsPageImage page.now)) }
    ensures answer { IsAnswer result }
    ensures kept { OnFailed result (out.new ≡ out.old) }
    ensures untold { OnNotWritable result (told.new ≡ told.old) }
{
    match page_of(page) {
        Ok(page) => put(&encode_page(&page), out, told),
        Err(fault) => fault,
    }
}

/// The page of this number whose image the bytes are. For any other bytes the number is 12, with
/// the page number, and `page` is left as it is.
#[unsafe(no_mangle)]
pub extern "C" fn aries_read_page(bytes: &[u8], number: u32, page: &mut PageImage) -> Fault
    ensures read { OnDone result (TellsPage bytes.now number page.new) }
    ensures bad { OnFailed result
        ((result ≡ told_of (BadPage number)) × HasNoPage bytes.now number) }
    ensures kept { OnFailed result (page.new ≡ page.old) }
{
    match page_in(bytes, number) {
        Ok(read) => {
            *page = PageImage::of(&read);
            Fault::none()
        }
        Err(fault) => Fault::from(fault),
    }
}

/// The page of this number that the bytes encode.
fn page_in(bytes: &[u8], number: u32) -> Result<Page, page::Fault>
    ensures found { IfOk result (λ page. SpellsPage bytes.now page × (page.number ≡ number)) }
    ensures bad { IfErr result (λ e. (e ≡ BadPage number) × HasNoPage bytes.now number) }
{
    if bytes.len() != PAGE_BYTES {
        return Err(page::Fault::BadPage(number));
    }
    let mut image = [0; PAGE_BYTES];
    image.copy_from_slice(bytes);
    decode_page(&image, number)
}
