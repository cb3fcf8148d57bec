//! Images without the zeros at their ends.

ghost use Rattle.std.specs.Prelude.{◌≡◌, ◌+◌, ◌≤◌, ◌<◌, ◌++◌, [], All, take, drop, length, OnOk, OnErr};
ghost use Rattle.page.specs.declared.profile.TheConstants.{PAGE_BYTES};
ghost use Rattle.held_store.specs.Block.{IsWithin, padded};

use crate::block::Block;
use crate::zeros::kept_count;
use page::PAGE_BYTES;
use std::alloc::{AllocError, Global};

/// Fills a buffer with the bytes of an image from `start` on, of which these are kept.
fn fill_from(kept: &[u8], start: usize, buffer: &mut [u8])
    requires kept { length kept.now ≤ PAGE_BYTES }
    requires room { start + length buffer.old ≤ PAGE_BYTES }
    ensures { buffer.new ≡ take (length buffer.old) (drop start (padded kept.now)) }
{
    let rest = &kept[start.min(kept.len())..];
    let count = rest.len().min(buffer.len());
    buffer[..count].copy_from_slice(&rest[..count]);
    buffer[count..].fill(0);
}

/// Images, one after another. The bytes kept of them are one after another too.
#[derive(Drop)]
pub struct Images {
    kept: Vec<u8>,
    blocks: Vec<Block>,
    ghost within: { All (IsWithin kept.items) blocks.items },
}

impl Images {
    ghost use Rattle.held_store.specs.Images.{images_text, Grows};

    /// No images. They take no memory.
    pub fn new(alloc: Global) -> Images
        ensures { images_text result ≡ [] }
    {
        Images {
            kept: Vec::new(alloc),
            blocks: Vec::new(alloc),
        }
    }

    /// Puts an image after the others. Bytes shorter than an image are held with zeros after
    /// them. `AllocError` if memory was refused; then the images are as before.
    pub fn push(&mut self, image: &[u8]) -> Result<(), AllocError>
        requires { length image.now ≤ PAGE_BYTES }
        ensures held { OnOk result (images_text self.new ≡ images_text self.old
            ++ padded image.now) }
        ensures refused { OnErr result (images_text self.new ≡ images_text self.old) }
    {
        let start = self.kept.len();
        let kept = kept_count(image);
        self.kept.extend_from_slice(&image[..kept])?;
        self.blocks.push(Block { start, kept })?;
        Ok(())
    }

    /// Puts many images after the others. If the last bytes are no whole image, they are held with
    /// zeros after them. `AllocError` if memory was refused; then not all images are held.
    pub fn extend(&mut self, images: &[u8]) -> Result<(), AllocError>
        ensures { OnOk result (Grows (images_text self.old) images.now (images_text self.new)) }
    {
        let count = images.len() / PAGE_BYTES;
        for index in 0..count {
            let start = PAGE_BYTES * index;
            self.push(&images[start..start + PAGE_BYTES])?;
        }
        let rest = &images[PAGE_BYTES * count..];
        if rest.is_empty() {
            return Ok(());
        }
        self.push(rest)
    }

    /// Puts bytes of the images from `offset` on at the front of a buffer, and returns how many: no
    /// more than to the end of one image, and 0 only if the buffer is empty.
    pub fn copy_from(&self, offset: usize, buffer: &mut [u8]) -> usize
        requires { offset < length (images_text self.now) }
        ensures within { result ≤ length buffer.new }
        ensures bytes { take result buffer.new ≡ take result (drop offset
            (images_text self.now)) }
        ensures progress { result ≡ 0 → length buffer.new ≡ 0 }
    {
        let block = self.blocks[offset / PAGE_BYTES];
        let kept = &self.kept[block.start..];
        let start = offset % PAGE_BYTES;
        let count = buffer.len().min(PAGE_BYTES - start);
        fill_from(&kept[..block.kept], start, &mut buffer[..count]);
        count
    }
}
