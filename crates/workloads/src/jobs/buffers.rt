//! What the calls for C do: a record that numbers and buffers name is written into a buffer, and a
//! recovery is copied into buffers. They stand in a static library, on which no crate can depend; so
//! the functions below them are called here in the same order, with the same copies.

use super::{put_frame, take_report};
use crate::chance::{Chance, low_32};
use crate::digest::Digest;
use crate::shapes::Pair;
use anyhow::{Context, Result};
use aries::{Recovery, recovery_alone};
use page::{VALUE_BYTES, Value};
use std::alloc::Global;
use wal::Record;

/// How many bytes the buffer for frames has.
const ROOM: usize = 1 << 16;

/// The length that names no value.
const ABSENT: u8 = 255;

/// A value as C names it: its length, and its bytes in front.
#[derive(Clone, Copy)]
struct Image {
    length: u8,
    bytes: [u8; VALUE_BYTES],
}

impl Image {
    /// The name of a value.
    fn of(value: Option<Value>) -> Image {
        let mut image = Image {
            length: ABSENT,
            bytes: [0; VALUE_BYTES],
        };
        if let Some(value) = value {
            for (to, byte) in image.bytes.iter_mut().zip(value.as_slice()) {
                *to = *byte;
            }
            image.length = value.as_slice().len() as u8;
        }
        image
    }

    /// The value that is named.
    fn value(&self) -> Result<Option<Value>> {
        if self.length == ABSENT {
            return Ok(None);
        }
        let bytes = self.bytes.get(..self.length as usize).context("no length")?;
        Ok(Value::new(bytes))
    }
}

/// A value by chance: the first eight to sixteen bytes of a number that stands there twice.
fn twice(drawn: u64) -> Option<Value> {
    let mut bytes = [0; 16];
    let (front, back) = bytes.split_at_mut(8);
    front.copy_from_slice(&drawn.to_be_bytes());
    back.copy_from_slice(&drawn.to_be_bytes());
    Value::new(&bytes[..8 + (drawn % 9) as usize])
}

/// A record as C names it.
#[derive(Clone, Copy)]
struct Named {
    prev: u64,
    tx: u32,
    page: u32,
    /// 1 update, 3 commit.
    kind: u8,
    slot: u8,
    before: Image,
    after: Image,
}

impl Named {
    /// A record by chance: a commit now and then, else an update.
    fn by(drawn: u64, before: u64) -> Named {
        Named {
            prev: drawn >> 32,
            tx: low_32(drawn >> 40) | 1,
            page: low_32(drawn >> 8) & 4095,
            kind: if drawn % 11 == 0 { 3 } else { 1 },
            slot: (drawn & 15) as u8,
            before: Image::of(twice(before)),
            after: Image::of(twice(drawn)),
        }
    }

    /// The record that is named.
    fn record(&self) -> Result<Record> {
        let (tx, prev) = (self.tx, self.prev);
        match self.kind {
            1 => Ok(Record::Update {
                tx,
                prev,
                page: self.page,
                slot: self.slot,
                before: self.before.value()?,
                after: self.after.value()?,
            }),
            3 => Ok(Record::Commit { tx, prev }),
            _ => Err(anyhow::Error::msg("no such kind")),
        }
    }
}

/// Copies bytes to the front of a buffer.
fn copy_to(bytes: &[u8], buffer: &mut [u8]) -> Result<()> {
    let (front, _) = buffer
        .split_at_mut_checked(bytes.len())
        .context("a buffer is too short")?;
    front.copy_from_slice(bytes);
    Ok(())
}

/// Writes the frame of a record to the front of a buffer, and gives its length.
fn write_named(alloc: Global, named: &Named, lsn: u64, buffer: &mut [u8]) -> Result<usize> {
    let logged = named.record()?;
    let mut frame = Vec::new(alloc);
    put_frame(&logged, lsn, &mut frame)?;
    copy_to(&frame, buffer)?;
    Ok(frame.len())
}

/// Some thousand records.
fn named_records(alloc: Global, chance: &mut Chance) -> Result<Vec<Named>> {
    let mut records = Vec::new(alloc);
    let mut before = chance.draw();
    for _ in 0..2048 {
        let drawn = chance.draw();
        records.push(Named::by(drawn, before))?;
        before = drawn;
    }
    Ok(records)
}

/// Writes this many frames one after another into a buffer, from its front again where little room
/// is left.
pub fn write_to_buffer(
    alloc: Global,
    count: usize,
    chance: &mut Chance,
    digest: &mut Digest,
) -> Result<()> {
    let records = named_records(alloc, chance)?;
    let mut buffer = vec![in alloc; 0; ROOM]?;
    let (mut lsn, mut end) = (0, 0);
    for named in records.iter().cycle().take(count) {
        lsn = u64::saturating_add(lsn, 1);
        let (_, room) = buffer.split_at_mut_checked(end).context("no room")?;
        end = write_named(alloc, named, lsn, room)?.saturating_add(end);
        if end > ROOM - 256 {
            digest.take(&buffer);
            end = 0;
        }
    }
    digest.take(&buffer);
    Ok(())
}

/// The buffers that a recovery is copied into.
#[derive(Drop)]
pub struct Buffers {
    tail: Vec<u8>,
    store: Vec<u8>,
}

impl Buffers {
    /// Room for what recovery makes of a pair.
    pub fn of(alloc: Global, pair: &Pair) -> Result<Buffers> {
        Ok(Buffers {
            tail: vec![in alloc; 0; pair.log.len().saturating_mul(2)]?,
            store: vec![in alloc; 0; pair.store.len()]?,
        })
    }

    /// Recovers in one thread, and takes what is copied and reported.
    pub fn recover(&mut self, alloc: Global, pair: &Pair, digest: &mut Digest) -> Result<()> {
        let store = Vec::from_slice(alloc, &pair.store)?;
        let Recovery {
            frames,
            store: made,
            report,
            ..
        } = recovery_alone(alloc, &pair.log, store)?;
        copy_to(&frames, &mut self.tail)?;
        copy_to(&made, &mut self.store)?;
        digest.take(self.tail.get(..frames.len()).context("no tail")?);
        digest.take(&self.store);
        take_report(digest, &report);
        Ok(())
    }
}
