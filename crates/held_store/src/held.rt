//! A store, in memory without the zeros at the ends of its images.

ghost use Rattle.std.specs.Prelude.{◌≡◌, ◌+◌, ◌-◌, ◌≤◌, ◌<◌, ◌++◌, Some, take, drop, length, vec_len, IfErr, IfOk, IfSome, OnOk};
ghost use Rattle.std.specs.Io.KnownBytes.{IsAtEnd};
ghost use Rattle.device.specs.declared.transfer.ReadFault.TheVariants.{NoMemory};
ghost use Rattle.page.specs.declared.sizes.TheConstants.{STORE_HEADER_BYTES};
ghost use Rattle.held_store.specs.Images.{AreRead, FailsBy, images_text};
ghost use Rattle.held_store.specs.declared.held.TheConstants.{PIECE};

use crate::images::Images;
use device::{Failed, ReadFault, Reread, Source, read_full};
use page::{PAGE_BYTES, STORE_HEADER_BYTES};
use std::alloc::Global;

/// How many bytes are read at once.
const PIECE: usize = 64 * PAGE_BYTES;

/// Room for a piece. The only error is `NoMemory`.
fn room_for_piece(alloc: Global) -> Result<Vec<u8>, ReadFault>
    ensures room { IfOk result (λ room. vec_len room ≡ PIECE) }
    ensures err { IfErr result (λ fault. fault ≡ NoMemory) }
{
    vec![in alloc; 0; PIECE].map_err(|_| ReadFault::NoMemory)
}

/// The bytes that a source has left, as images, and how many they are.
fn read_images<S: Source>(alloc: Global, source: &mut S) -> Result<(Images, usize), ReadFault>
    ensures within { IfOk result (λ read. read.1 ≤ length (images_text read.0)) }
    ensures read { AreRead (S.left source.old) (S.left source.new) result }
    ensures end { OnOk result (IsAtEnd (S.left source.new)) }
    ensures no_failure { OnOk result (S.failures source.new ≡ S.failures source.old) }
    ensures cause { FailsBy (S.failures source.old) (S.failures source.new) result }
{
    let mut room = room_for_piece(alloc)?;
    let mut images = Images::new(alloc);
    let mut size: usize = 0;
    for _ in 0..u64::MAX {
        let count = read_full(source, &mut room).map_err(|_| ReadFault::Failed)?;
        images
            .extend(&room[..count])
            .map_err(|_| ReadFault::NoMemory)?;
        size = size.checked_add(count).ok_or(ReadFault::NoMemory)?;
        if count < PIECE {
            return Ok((images, size));
        }
    }
    // No source has this many bytes.
    Err(ReadFault::NoMemory)
}

/// The bytes of a store, in memory without the zeros at the ends of its images. They can be any
/// bytes, and can be read again. It is also a source of these bytes, and never fails.
#[derive(Drop)]
pub struct HeldStore {
    /// The header of the store. Its last bytes mean nothing if there are fewer bytes in all.
    header: [u8; STORE_HEADER_BYTES],
    images: Images,
    /// How many bytes there are in all, with the header.
    size: usize,
    /// From which of them `read` continues.
    place: usize,
    ghost within: { size ≤ STORE_HEADER_BYTES + length (images_text images) },
}

/// Puts the first of some bytes at the front of a buffer, and returns how many: all, or as many as
/// the buffer takes.
fn copy_front(bytes: &[u8], buffer: &mut [u8]) -> usize
    ensures within { (result ≤ length bytes.now) × (result ≤ length buffer.new) }
    ensures bytes { take result buffer.new ≡ take result bytes.now }
    ensures progress { 0 < length bytes.now → result ≡ 0 → length buffer.new ≡ 0 }
{
    let count = bytes.len().min(buffer.len());
    buffer[..count].copy_from_slice(&bytes[..count]);
    count
}

impl HeldStore {
    ghost use Rattle.held_store.specs.Held.{held_text, bytes_left};

    /// The first of these bytes, as many as `size` says: a header and the images after it.
    fn new(header: [u8; STORE_HEADER_BYTES], images: Images, size: usize) -> HeldStore
        requires { size ≤ STORE_HEADER_BYTES + length (images_text images) }
        ensures text { held_text result ≡ take size (header ++ images_text images) }
        ensures unread { bytes_left result ≡ held_text result }
    {
        HeldStore {
            header,
            images,
            size,
            place: 0,
        }
    }

    /// All bytes that a source has left, by reads of up to 64 KiB. Memory is taken as bytes come,
    /// and for one read. A source without end runs out of memory.
    ///
    /// `Failed` if the source failed; its count of failures has risen by one. `NoMemory` if memory
    /// was refused; no failure is counted. After either error some of the bytes that were left have
    /// been read, and are dropped.
    pub fn read<S: Source>(alloc: Global, source: &mut S) -> Result<HeldStore, ReadFault>
        ensures gave { IfOk result (λ held. IfSome (S.left source.old)
            (λ left. held_text held ≡ left)) }
        ensures unread { IfOk result (λ held. bytes_left held ≡ held_text held) }
        ensures end { OnOk result (IsAtEnd (S.left source.new)) }
        ensures no_failure { OnOk result (S.failures source.new ≡ S.failures source.old) }
        ensures cause { FailsBy (S.failures source.old) (S.failures source.new) result }
    {
        let mut header = [0; STORE_HEADER_BYTES];
        let count = read_full(source, &mut header).map_err(|_| ReadFault::Failed)?;
        if count < STORE_HEADER_BYTES {
            return Ok(HeldStore::new(header, Images::new(alloc), count));
        }
        let (images, more) = read_images(alloc, source)?;
        let size = more.checked_add(count).ok_or(ReadFault::NoMemory)?;
        Ok(HeldStore::new(header, images, size))
    }

    /// Puts bytes from `offset` on at the front of a buffer, and returns how many: 0 only if
    /// `offset` is at or past the end, or if the buffer is empty.
    fn copy_from(&self, offset: usize, buffer: &mut [u8]) -> usize
        ensures within { result ≤ length buffer.new }
        ensures bytes { take result buffer.new ≡ take result (drop offset (held_text self.now)) }
        ensures held { result ≤ length (held_text self.now) - offset }
        ensures progress { result ≡ 0 → 0 < length buffer.new
            → length (held_text self.now) ≤ offset }
    {
        let count = self.size.saturating_sub(offset).min(buffer.len());
        let room = &mut buffer[..count];
        if room.is_empty() {
            return 0;
        }
        match offset.checked_sub(STORE_HEADER_BYTES) {
            Some(place) => self.images.copy_from(place, room),
            None => copy_front(&self.header[offset..], room),
        }
    }
}

impl Source for HeldStore {
    ghost use Rattle.held_store.specs.Held.{bytes_left};

    ghost failures = { λ _. 0 };

    ghost left = { λ held. Some (bytes_left held) };

    fn hint(&self) -> usize {
        self.size.saturating_sub(self.place)
    }

    fn read(&mut self, buffer: &mut [u8]) -> Result<usize, Failed> {
        let count = self.copy_from(self.place, buffer);
        self.place += count;
        Ok(count)
    }
}

impl Reread for HeldStore {
    ghost use Rattle.held_store.specs.Held.{held_text};

    ghost text = { λ held. Some (held_text held) };

    ghost read_to = { λ held. length (held_text held) };

    fn read_at(&mut self, offset: u64, buffer: &mut [u8]) -> Result<usize, Failed> {
        Ok(self.copy_from(offset as usize, buffer))
    }
}
