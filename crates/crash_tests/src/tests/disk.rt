//! A disk in memory with a write cache. What was written is there after the next sync. If a crash
//! comes before that, it may be there or not.

use page::{PAGE_BYTES, Page, STORE_HEADER_BYTES, encode_page, store_header};
use seeded::Random;
use std::alloc::{AllocError, Global};
use wal::plain_header;

/// A write of a page that may be lost.
#[derive(Clone, Copy)]
struct Write {
    number: u32,
    image: [u8; PAGE_BYTES],
}

/// The files of an engine.
#[derive(Drop)]
pub struct Disk {
    /// What was written to the log.
    log: Vec<u8>,
    /// How many bytes of the log are synced.
    synced: usize,
    /// The images of the pages that are synced.
    pages: Vec<[u8; PAGE_BYTES]>,
    /// The writes to the store after the last sync.
    writes: Vec<Write>,
    /// The master that is synced.
    pub master: u64,
    /// The masters that were set after that.
    masters: Vec<u64>,
}

/// What a crash leaves, and what a recovery makes of it.
#[derive(Drop)]
pub struct Files {
    pub log: Vec<u8>,
    pub store: Vec<u8>,
}

/// The image in a store of the page with this number.
pub fn image_in(store: &[u8], number: u32) -> Option<&[u8; PAGE_BYTES]> {
    let (_, images) = store.split_at_checked(STORE_HEADER_BYTES)?;
    let (images, _) = images.as_chunks::<PAGE_BYTES>();
    images.get(number as usize)
}

impl Disk {
    /// An empty log, and a store of this many empty pages.
    pub fn new(alloc: Global, count: u32) -> Result<Disk, AllocError> {
        let log = Vec::from_slice(alloc, &plain_header())?;
        let mut pages = Vec::new(alloc);
        for number in 0..count {
            pages.push(encode_page(&Page::empty(number)))?;
        }
        Ok(Disk {
            synced: log.len(),
            log,
            pages,
            writes: Vec::new(alloc),
            master: 0,
            masters: Vec::new(alloc),
        })
    }

    /// Appends to the log.
    pub fn append(&mut self, frames: &[u8]) -> Result<(), AllocError> {
        self.log.extend_from_slice(frames)
    }

    /// Syncs the log.
    pub fn sync_log(&mut self) {
        self.synced = self.log.len();
    }

    /// Writes a page.
    pub fn write_page(&mut self, page: &Page) -> Result<(), AllocError> {
        self.writes.push(Write {
            number: page.number,
            image: encode_page(page),
        })?;
        Ok(())
    }

    /// Sets the master.
    pub fn set_master(&mut self, master: u64) -> Result<(), AllocError> {
        self.masters.push(master)?;
        Ok(())
    }

    /// Syncs the store.
    pub fn sync_store(&mut self) {
        for write in &self.writes {
            if let Some(image) = self.pages.get_mut(write.number as usize) {
                *image = write.image;
            }
        }
        self.writes.clear();
        self.master = self.masters.last().copied().unwrap_or(self.master);
        self.masters.clear();
    }

    /// An image of a page that a crash may leave: the one that is synced, or one that was written
    /// after that.
    fn image(&self, number: u32, random: &mut Random) -> [u8; PAGE_BYTES] {
        let mut image = match self.pages.get(number as usize) {
            Some(image) => *image,
            None => [0; PAGE_BYTES],
        };
        let mut seen = 1;
        for write in &self.writes {
            if write.number == number {
                seen = u32::saturating_add(seen, 1);
                if random.once_in(seen) {
                    image = write.image;
                }
            }
        }
        image
    }

    /// A master that a crash may leave.
    fn master(&self, random: &mut Random) -> u64 {
        let place = random.place(self.masters.len().saturating_add(1));
        self.masters.get(place).copied().unwrap_or(self.master)
    }

    /// A beginning of the log that a crash may leave.
    fn log(&self, random: &mut Random) -> &[u8] {
        let more = self.log.len().saturating_sub(self.synced).saturating_add(1);
        let length = self.synced.saturating_add(random.place(more));
        self.log.get(..length).unwrap_or(&[])
    }

    /// The store of this many pages that a crash leaves.
    fn store(&self, alloc: Global, count: u32, random: &mut Random) -> Result<Vec<u8>, AllocError> {
        let mut store = Vec::from_slice(alloc, &store_header(count, self.master(random)))?;
        for number in 0..count {
            store.extend_from_slice(&self.image(number, random))?;
        }
        Ok(store)
    }

    /// What a crash leaves of the log and of this many pages.
    pub fn crash(
        &self,
        alloc: Global,
        count: u32,
        random: &mut Random,
    ) -> Result<Files, AllocError> {
        Ok(Files {
            log: Vec::from_slice(alloc, self.log(random))?,
            store: self.store(alloc, count, random)?,
        })
    }

    /// A disk on which this log and a store of this many pages, with this master, are synced.
    pub fn of(alloc: Global, files: &Files, count: u32, master: u64) -> Result<Disk, AllocError> {
        let mut pages = Vec::new(alloc);
        for number in 0..count {
            if let Some(image) = image_in(&files.store, number) {
                pages.push(*image)?;
            }
        }
        Ok(Disk {
            log: Vec::from_slice(alloc, &files.log)?,
            synced: files.log.len(),
            pages,
            writes: Vec::new(alloc),
            master,
            masters: Vec::new(alloc),
        })
    }
}
