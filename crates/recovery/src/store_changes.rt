//! A store that is not in memory as a whole: its PageLSNs are read, and later it is read again,
//! changed and written, a piece at a time.

ghost use Rattle.std.specs.Prelude.{◌≡◌, ◌+◌, ◌/◌, ◌%◌, ◌^◌, ◌<◌, ◌≤◌, ◌⊎◌, length, IfOk, IfErr, OnOk, OnErr, ◌≢◌};
ghost use Rattle.std.specs.Io.KnownBytes.{Keeps};
ghost use Rattle.page.specs.declared.fault.Fault.TheVariants.{ReadStore, WriteStore, StoreSize};
ghost use Rattle.page.specs.declared.profile.TheConstants.{PAGES, PAGE_BYTES};
ghost use Rattle.page.specs.declared.sizes.TheConstants.{STORE_HEADER_BYTES};
ghost use Rattle.device.specs.Reread.{IsReadThrough};
ghost use Rattle.device.specs.Rereading.{ReadsRest, StaysRead};
ghost use Rattle.recovery.specs.Calls.{Blames, IsStored, Took, Began};
ghost use Rattle.recovery.specs.Devices.{IsFaultOf};
ghost use Rattle.recovery.specs.declared.store_pieces.TheConstants.{PIECE};
ghost use Rattle.recovery.specs.StoreChanges.{AreDecodedLsns, AreLsnsBehind, image_at, IsOfRewriting, IsRewriteFault, AreHeld, AreShown, IsReadFault, TookAll, BeganAll, Rewrites, IsBegun};

use crate::reading::read_from;
use crate::store_pieces::{PIECE, PIECE_PAGES};
use changes::Changes;
use device::{Failed, Reread, Sink, write_all};
use page::{Fault, LsnReader, PAGE_BYTES, STORE_HEADER_BYTES, StoreLsns, store_header};
use std::alloc::Global;

/// The master and the PageLSNs of the store that all bytes of a device encode, or the error of
/// these bytes.
#[derive(Drop)]
pub struct DecodedLsns {
    pub store: Result<StoreLsns, Fault>,
}

/// A store that is read at offsets has fewer bytes than the sum of this and the length of a piece.
const LONGEST_STORE: u64 = 1 << 63;

/// The PageLSNs of what a store's header and the bytes after it encode. They are read to the
/// device's end even after an error was found, and one piece of them is kept at a time.
fn read_lsns_behind<R: Reread>(
    mut reader: LsnReader,
    source: &mut R,
    room: &mut [u8],
) -> Result<DecodedLsns, Fault>
    requires room { length room.old ≡ PIECE }
    requires header { length reader ≡ STORE_HEADER_BYTES }
    ensures read { IfOk result (AreLsnsBehind reader (R.text source.old)) }
    ensures same { Keeps (R.text source.old) (R.text source.new) }
    ensures end { OnOk result
        (ReadsRest R.text R.read_to source.old source.new STORE_HEADER_BYTES) }
    ensures fault { IfErr result (IsFaultOf ReadStore) }
    ensures cause { Blames ReadStore R.failures source.old source.new result }
{
    let mut offset = STORE_HEADER_BYTES as u64;
    while offset < LONGEST_STORE {
        let count = read_from(source, offset, room, Fault::ReadStore)?;
        reader.take(&room[..count]);
        if count < PIECE {
            let store = reader.finish();
            return Ok(DecodedLsns { store });
        }
        offset += PIECE as u64;
    }
    // No device holds this many bytes.
    Err(Fault::NoResource)
}

/// The master and the PageLSNs of the store that all bytes of a device encode, or the error of
/// these bytes. The device is read at offsets, from its beginning to its end, a piece at a time. It
/// still holds the same bytes afterwards.
///
/// The error is `ReadStore` if the device failed. Or it is `NoResource`, if there are more bytes
/// than any store has.
pub fn read_lsns<R: Reread>(
    alloc: Global,
    source: &mut R,
    room: &mut [u8],
) -> Result<DecodedLsns, Fault>
    requires { length room.old ≡ PIECE }
    ensures read { IfOk result (AreDecodedLsns (R.text source.old)) }
    ensures same { Keeps (R.text source.old) (R.text source.new) }
    ensures end { OnOk result (IsReadThrough (R.text source.old) (R.read_to source.new)) }
    ensures fault { IfErr result (IsFaultOf ReadStore) }
    ensures cause { Blames ReadStore R.failures source.old source.new result }
{
    let mut header = [0; STORE_HEADER_BYTES];
    let count = read_from(source, 0, &mut header, Fault::ReadStore)?;
    let reader = LsnReader::begin(alloc, &header[..count]);
    if count < STORE_HEADER_BYTES {
        let store = reader.finish();
        return Ok(DecodedLsns { store });
    }
    read_lsns_behind(reader, source, room)
}

/// The images that a store's device holds from page `first` on, as many as there is room for:
/// `StoreSize` if it no longer holds them all.
fn reread_images<R: Reread>(store: &mut R, first: usize, images: &mut [u8]) -> Result<(), Fault>
    requires { image_at first + length images.old < 2 ^ 63 }
    ensures read { OnOk result (AreHeld (R.text store.old) first images.old images.new) }
    ensures fault { IfErr result (IsReadFault (R.text store.old) first images.old) }
    ensures named { IfErr result (λ e. (e ≡ ReadStore) ⊎ (e ≡ StoreSize)) }
    ensures same { Keeps (R.text store.old) (R.text store.new) }
    ensures grows { StaysRead R.text R.read_to store.old store.new }
    ensures cause { Blames ReadStore R.failures store.old store.new result }
{
    let offset = STORE_HEADER_BYTES + PAGE_BYTES * first;
    let count = read_from(store, offset as u64, images, Fault::ReadStore)?;
    if count < images.len() {
        return Err(Fault::StoreSize);
    }
    Ok(())
}

/// The images, after their changes, of page `first` and of the pages after it, as many as there is
/// room for.
fn read_changed<R: Reread>(
    store: &mut R,
    changes: &Changes,
    first: usize,
    images: &mut [u8],
) -> Result<(), Fault>
    requires few { length changes.now ≤ PAGES }
    requires whole { length images.old % PAGE_BYTES ≡ 0 }
    requires within { first + length images.old / PAGE_BYTES ≤ length changes.now }
    ensures shown { OnOk result (AreShown (R.text store.old) changes.now first images.new) }
    ensures fault { IfErr result (IsRewriteFault (R.text store.old) changes.now) }
    ensures named { IfErr result IsOfRewriting }
    ensures not_sinks { IfErr result (λ e. e ≢ WriteStore) }
    ensures same { Keeps (R.text store.old) (R.text store.new) }
    ensures grows { StaysRead R.text R.read_to store.old store.new }
    ensures cause { Blames ReadStore R.failures store.old store.new result }
{
    reread_images(store, first, images)?;
    changes.change_images(first, images)
}

/// Writes bytes of a store to its sink, after those that it took before.
fn write_bytes<S: Sink>(sink: &mut S, bytes: &[u8]) -> Result<(), Fault>
    ensures all { OnOk result (Took S.Sink sink.old sink.new bytes.now) }
    ensures beginning { OnErr result (Began S.Sink sink.old sink.new bytes.now) }
    ensures fault { IfErr result (λ e. e ≡ WriteStore) }
    ensures cause { Blames WriteStore S.failures sink.old sink.new result }
    ensures unflushed { Keeps (S.flushed sink.old) (S.flushed sink.new) }
{
    match write_all(sink, bytes) {
        Ok(()) => Ok(()),
        Err(Failed) => Err(Fault::WriteStore),
    }
}

/// Writes the images of all pages after their changes, a piece at a time.
fn write_changed_images<R: Reread, S: Sink>(
    store: &mut R,
    out: &mut S,
    changes: &Changes,
    room: &mut [u8],
) -> Result<(), Fault>
    requires room { length room.old ≡ PIECE }
    requires few { length changes.now ≤ PAGES }
    ensures all { OnOk result (TookAll (R.text store.old) changes.now S.Sink out.old out.new) }
    ensures part { OnErr result (BeganAll (R.text store.old) changes.now S.Sink out.old out.new) }
    ensures fault { IfErr result (IsRewriteFault (R.text store.old) changes.now) }
    ensures named { IfErr result IsOfRewriting }
    ensures same { Keeps (R.text store.old) (R.text store.new) }
    ensures grows { StaysRead R.text R.read_to store.old store.new }
    ensures unflushed { Keeps (S.flushed out.old) (S.flushed out.new) }
    ensures store_source { Blames ReadStore R.failures store.old store.new result }
    ensures store_sink { Blames WriteStore S.failures out.old out.new result }
{
    let count = changes.len();
    let mut first = 0;
    while first < count {
        let images = (count - first).min(PIECE_PAGES);
        let piece = &mut room[..PAGE_BYTES * images];
        read_changed(store, changes, first, piece)?;
        write_bytes(out, piece)?;
        first += images;
    }
    Ok(())
}

/// Writes a store again, with this master and with its pages changed, and flushes it. `store` is
/// the device that holds the store. It is read at offsets, a piece at a time.
///
/// The errors are: `ReadStore`, if `store` failed; `WriteStore`, if `out` failed; `StoreSize`, if
/// `store` no longer holds as many bytes as there are pages; `BadPage` of a page, if its image no
/// longer encodes the page of its number. After an error a prefix of the new store is written, and
/// it is not known which of its bytes are flushed.
pub fn write_changed<R: Reread, S: Sink>(
    store: &mut R,
    out: &mut S,
    master: u64,
    changes: &Changes,
    room: &mut [u8],
) -> Result<(), Fault>
    requires room { length room.old ≡ PIECE }
    requires few { length changes.now ≤ PAGES }
    ensures all { OnOk result (Rewrites (R.text store.old) master changes.now
        S.Sink out.old out.new) }
    ensures part { OnErr result (IsBegun (R.text store.old) master changes.now
        S.Sink out.old out.new) }
    ensures flushed { OnOk result (IsStored S.Sink out.old out.new) }
    ensures fault { IfErr result (IsRewriteFault (R.text store.old) changes.now) }
    ensures named { IfErr result IsOfRewriting }
    ensures same { Keeps (R.text store.old) (R.text store.new) }
    ensures grows { StaysRead R.text R.read_to store.old store.new }
    ensures store_source { Blames ReadStore R.failures store.old store.new result }
    ensures store_sink { Blames WriteStore S.failures out.old out.new result }
{
    let header = store_header(changes.len() as u32, master);
    write_bytes(out, &header)?;
    write_changed_images(store, out, changes, room)?;
    match out.flush() {
        Ok(()) => Ok(()),
        Err(Failed) => Err(Fault::WriteStore),
    }
}
