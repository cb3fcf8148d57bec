//! A store that is read and written piece by piece: only one piece of its bytes is in memory.

ghost use Rattle.std.specs.Prelude.{◌≡◌, ◌≤◌, ◌<◌, length, take, IfOk, IfErr, OnOk, OnErr, IsOkUnless};
ghost use Rattle.std.specs.List.{flat_map};
ghost use Rattle.std.specs.Io.KnownBytes.{IsAtEnd, Keeps};
ghost use Rattle.page.specs.declared.fault.Fault.TheVariants.{NoResource, ReadStore};
ghost use Rattle.page.specs.File.{store_text};
ghost use Rattle.page.specs.Image.{page_text};
ghost use Rattle.device.specs.Failures.{Counts};
ghost use Rattle.recovery.specs.Devices.{IsFaultOf, ReadsStore, AreOut, IsDecodedBehind};
ghost use Rattle.recovery.specs.declared.store_pieces.TheConstants.{PIECE};
ghost use Rattle.recovery.specs.Calls.{Blames, ReadNext, Took, Began};

use device::{Failed, Sink, Source, read_full, write_all};
use page::{
    Fault, PAGE_BYTES, Page, STORE_HEADER_BYTES, Store, StoreReader, encode_pages_into,
    store_header,
};
use std::alloc::Global;

/// How many images a piece has.
pub const PIECE_PAGES: usize = 64;

/// How many bytes a piece has.
pub const PIECE: usize = PIECE_PAGES * PAGE_BYTES;

/// Room for a piece. The only error is `NoResource`.
pub fn room_for_pieces(alloc: Global) -> Result<Vec<u8>, Fault>
    ensures room { IfOk result (λ room. length room.items ≡ PIECE) }
    ensures err { IsOkUnless result NoResource }
{
    Ok(vec![in alloc; 0; PIECE]?)
}

/// What all bytes of a store encode, or the error of these bytes. That error comes after those of
/// the log.
#[derive(Drop)]
pub struct DecodedStore {
    pub store: Result<Store, Fault>,
}

/// The next bytes of a store's source: as many as there is room for, fewer only at its end.
pub fn read_piece<S: Source>(source: &mut S, room: &mut [u8]) -> Result<usize, Fault>
    ensures within { IfOk result (λ count. count ≤ length room.new) }
    ensures read { IfOk result (λ count. ReadNext S.left source.old source.new
        (take count room.new)) }
    ensures end { IfOk result (λ count. count < length room.new → IsAtEnd (S.left source.new)) }
    ensures fault { IfErr result (λ e. e ≡ ReadStore) }
    ensures cause { Blames ReadStore S.failures source.old source.new result }
{
    match read_full(source, room) {
        Ok(count) => Ok(count),
        Err(Failed) => Err(Fault::ReadStore),
    }
}

/// What a store's header and the bytes after it encode. They are read to the source's end even
/// after an error was found, and one piece of them is kept at a time.
fn read_images<S: Source>(
    mut reader: StoreReader,
    source: &mut S,
    room: &mut [u8],
) -> Result<DecodedStore, Fault>
    requires room { length room.old ≡ PIECE }
    requires header { length reader ≡ STORE_HEADER_BYTES }
    ensures read { IfOk result (IsDecodedBehind reader (S.left source.old)) }
    ensures end { OnOk result (IsAtEnd (S.left source.new)) }
    ensures fault { IfErr result (IsFaultOf ReadStore) }
    ensures cause { Blames ReadStore S.failures source.old source.new result }
{
    for _ in 0..u64::MAX {
        let count = read_piece(source, room)?;
        reader.take(&room[..count]);
        if count < PIECE {
            let store = reader.finish();
            return Ok(DecodedStore { store });
        }
    }
    // No source has this many bytes.
    Err(Fault::NoResource)
}

/// The store that all bytes encode which a source has left, or the error of these bytes. The error
/// is `ReadStore` if the source failed.
pub fn read_store<S: Source>(
    alloc: Global,
    source: &mut S,
    room: &mut [u8],
) -> Result<DecodedStore, Fault>
    requires { length room.old ≡ PIECE }
    ensures { ReadsStore S.Source source.old source.new result }
{
    let mut header = [0; STORE_HEADER_BYTES];
    let count = read_piece(source, &mut header)?;
    let reader = StoreReader::begin(alloc, &header[..count]);
    if count < STORE_HEADER_BYTES {
        let store = reader.finish();
        return Ok(DecodedStore { store });
    }
    read_images(reader, source, room)
}

/// Writes the images of pages, a piece at a time.
fn write_images<S: Sink>(sink: &mut S, pages: &[Page], room: &mut [u8]) -> Result<(), Failed>
    requires { length room.old ≡ PIECE }
    ensures all { OnOk result (Took S.Sink sink.old sink.new (flat_map page_text pages.now)) }
    ensures beginning { OnErr result (Began S.Sink sink.old sink.new
        (flat_map page_text pages.now)) }
    ensures cause { Counts (S.failures sink.old) (S.failures sink.new) result }
    ensures unflushed { Keeps (S.flushed sink.old) (S.flushed sink.new) }
{
    let mut rest = pages;
    while !rest.is_empty() {
        let (piece, behind) = rest.split_at(rest.len().min(PIECE_PAGES));
        let text = &mut room[..PAGE_BYTES * piece.len()];
        encode_pages_into(piece, text);
        write_all(sink, text)?;
        rest = behind;
    }
    Ok(())
}

/// Writes a store to a sink, a piece at a time, and flushes it.
pub fn write_store<S: Sink>(sink: &mut S, store: &Store, room: &mut [u8]) -> Result<(), Failed>
    requires { length room.old ≡ PIECE }
    ensures all { OnOk result (AreOut S.Sink sink.old sink.new (store_text store.now)) }
    ensures beginning { OnErr result (Began S.Sink sink.old sink.new (store_text store.now)) }
    ensures cause { Counts (S.failures sink.old) (S.failures sink.new) result }
{
    let pages = store.pages.len() as u32;
    write_all(sink, &store_header(pages, store.master))?;
    write_images(sink, &store.pages, room)?;
    sink.flush()
}
