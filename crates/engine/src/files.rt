//! The files of the engine: a log that grows at its end, and a store whose pages are written where they are.

use anyhow::Result;
use page::{PAGE_BYTES, Page, STORE_HEADER_BYTES, encode_page, store_header};
use std::fs::{self, File, OpenFile, OpenOptions};
use std::io::{self, Seek, SeekFrom, Write};
use std::path::Path;
use std::rt::Files;
use wal::plain_header;

/// Syncs the folder of a file.
fn sync_folder<R: Files>(rt: &R, path: &str) -> io::Result<()> {
    let folder = match Path::new(path).parent() {
        Some(folder) if !folder.as_str().is_empty() => folder.as_str(),
        _ => ".",
    };
    File::open(rt, folder)?.sync_all()
}

/// Makes a file that holds these bytes, and syncs it.
fn make_file<R: Files>(rt: &R, path: &str, bytes: &[u8]) -> io::Result<()> {
    let mut file = File::create(rt, path)?;
    file.write_all(bytes)?;
    file.sync_all()
}

/// Makes the files of a new engine. The log comes last: without it, nothing was acknowledged.
pub fn make<R: Files + AllocGlobal>(rt: &R, log: &str, store: &str, count: u32) -> Result<()> {
    let mut bytes = Vec::from_slice(rt.alloc(), &store_header(count, 0))?;
    for number in 0..count {
        bytes.extend_from_slice(&encode_page(&Page::empty(number)))?;
    }
    make_file(rt, store, &bytes)?;
    sync_folder(rt, store)?;
    let new_log = format!(in rt.alloc(); "{log}.new")?;
    make_file(rt, new_log.as_str(), &plain_header())?;
    fs::rename(rt, new_log.as_str(), log)?;
    sync_folder(rt, log)?;
    Ok(())
}

/// The open files of an engine.
#[derive(Drop)]
pub struct OpenFiles<F> {
    log: F,
    store: F,
}

/// Opens a log to append to it, and a store to write its pages.
pub fn open<R: Files>(rt: &R, log: &str, store: &str) -> io::Result<OpenFiles<R::File>> {
    let mut to_append = OpenOptions::new();
    to_append.append(true);
    let mut to_write = OpenOptions::new();
    to_write.write(true);
    Ok(OpenFiles {
        log: to_append.open(rt, log)?,
        store: to_write.open(rt, store)?,
    })
}

impl<F: OpenFile + Write + Seek> OpenFiles<F> {
    /// Appends frames to the log.
    pub fn append(&mut self, frames: &[u8]) -> io::Result<()> {
        self.log.write_all(frames)
    }

    /// Syncs the log to its disk.
    pub fn sync_log(&mut self) -> io::Result<()> {
        self.log.sync_all()
    }

    /// Syncs the store to its disk.
    pub fn sync_store(&mut self) -> io::Result<()> {
        self.store.sync_all()
    }

    /// Writes a page to its place.
    pub fn write_page(&mut self, page: &Page) -> io::Result<()> {
        let place = STORE_HEADER_BYTES + PAGE_BYTES * page.number as usize;
        self.store.seek(SeekFrom::Start(place as u64))?;
        self.store.write_all(&encode_page(page))
    }

    /// Sets the master of a store of this many pages.
    pub fn set_master(&mut self, count: u32, master: u64) -> io::Result<()> {
        self.store.seek(SeekFrom::Start(0))?;
        self.store.write_all(&store_header(count, master))
    }
}
