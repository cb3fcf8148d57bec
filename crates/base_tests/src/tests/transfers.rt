//! Reading and writing all of devices that are slow or fail, and of files that do.

use checks::{check, check_all, check_at};
use device::{
    Continue, MemorySink, MemorySource, Pace, ReadFault, Sink, SlowSink, SlowSource, read_all,
    read_front, read_rest, write_all,
};
use std::alloc::{AllocError, Global};
use std::test::Fail;

/// Bytes whose values show their places.
fn counted(alloc: Global, length: usize) -> Result<Vec<u8>, AllocError> {
    let mut bytes = Vec::with_capacity(alloc, length)?;
    for place in 0..length {
        bytes.push((place % 251) as u8)?;
    }
    Ok(bytes)
}

/// What a sink took, and whether it was flushed.
#[derive(Clone, Copy)]
struct Written {
    is_beginning: bool,
    taken: usize,
    is_flushed: bool,
}

impl Written {
    /// Whether all of this many bytes are taken and flushed.
    fn is_out(&self, length: usize) -> bool {
        self.is_beginning && self.taken == length && self.is_flushed
    }

    /// Whether the sink failed after this many bytes.
    fn has_failed(&self, taken: usize) -> bool {
        self.is_beginning && self.taken == taken && !self.is_flushed
    }
}

/// Whether a sink takes these bytes, and is flushed.
fn is_out<S: Sink>(sink: &mut S, bytes: &[u8]) -> bool {
    write_all(sink, bytes).is_ok() && sink.flush().is_ok()
}

/// Writes this many bytes to a sink of this pace, and flushes it.
fn write_out(alloc: Global, length: usize, pace: Pace) -> Result<Written, AllocError> {
    let bytes = counted(alloc, length)?;
    let mut sink = SlowSink::new(alloc, length, pace)?;
    let is_flushed = is_out(&mut sink, &bytes);
    let taken = sink.bytes();
    Ok(Written {
        is_beginning: bytes.starts_with(taken),
        taken: taken.len(),
        is_flushed,
    })
}

/// Whether reading all of a source of this many bytes and this pace gives them.
fn is_read(alloc: Global, length: usize, pace: Pace) -> Result<bool, ReadFault> {
    match counted(alloc, length) {
        Ok(bytes) => {
            let read = read_all(alloc, &mut SlowSource::new(&bytes, pace))?;
            Ok(read.as_slice() == bytes.as_slice())
        }
        Err(_) => Err(ReadFault::NoMemory),
    }
}

/// Whether reading all of a source of this many bytes and this pace fails.
fn fails_to_read(alloc: Global, length: usize, pace: Pace) -> bool {
    matches!(is_read(alloc, length, pace), Err(ReadFault::Failed))
}

/// Three bytes, followed by this much room.
fn front_and_room(alloc: Global, room: u32) -> Result<Vec<u8>, AllocError> {
    let mut bytes = Vec::new(alloc);
    bytes.extend_from_slice(b"abc")?;
    bytes.resize(3 + room as usize, 255)?;
    Ok(bytes)
}

/// Whether reading the rest of a source of this many bytes after three bytes, into this much room,
/// gives the three and then all of the source.
fn is_read_behind(alloc: Global, length: usize, room: u32) -> Result<bool, Fail> {
    let rest = counted(alloc, length)?;
    let mut wanted = front_and_room(alloc, 0)?;
    wanted.extend_from_slice(&rest)?;
    let mut bytes = front_and_room(alloc, room)?;
    let filled = bytes.len().min(3);
    read_rest(&mut MemorySource::new(&rest), &mut bytes, filled)?;
    Ok(bytes.as_slice() == wanted.as_slice())
}

#[test]
fn memory_gives_all(rt: HostRuntime) -> Result<(), Fail> {
    let bytes = counted(rt.alloc(), 200_000)?;
    let read = read_all(rt.alloc(), &mut MemorySource::new(&bytes))?;
    check(read.as_slice() == bytes.as_slice(), "read")
}

#[test]
fn a_hint_is_no_length(rt: HostRuntime) -> Result<(), Fail> {
    // A slow source hints at what one call passes.
    for hint in [1, 999, 1000, 1001, 199_999, usize::MAX] {
        let pace = Pace::of_step(hint);
        let is_read = is_read(rt.alloc(), 1000, pace)? && is_read(rt.alloc(), 200_000, pace)?;
        check_at(hint, is_read, "read by a hint of")?;
    }
    Ok(())
}

#[test]
fn memory_gives_its_front(rt: HostRuntime) -> Result<(), Fail> {
    let alloc = rt.alloc();
    let bytes = counted(alloc, 200_000)?;
    let front = read_front(alloc, &mut MemorySource::new(&bytes), 10)?;
    let few = counted(alloc, 7)?;
    let all = read_front(alloc, &mut MemorySource::new(&few), 10)?;
    check_all(&[
        (front.len() >= 10, "as many as are wanted"),
        (front.len() <= 10 + 65_536, "few more"),
        (bytes.starts_with(&front), "a beginning"),
        (all.as_slice() == few.as_slice(), "all of a short source"),
    ])
}

#[test]
fn the_rest_is_read_behind_a_front(rt: HostRuntime) -> Result<(), Fail> {
    let alloc = rt.alloc();
    check_all(&[
        (is_read_behind(alloc, 10, 0)?, "without room"),
        (is_read_behind(alloc, 0, 5)?, "nothing into room"),
        (is_read_behind(alloc, 10, 5)?, "more than the room takes"),
        (is_read_behind(alloc, 2, 5)?, "less than the room takes"),
        (
            is_read_behind(alloc, 200_000, 100_000)?,
            "more than much room",
        ),
        (is_read_behind(alloc, 7, 100_000)?, "less than much room"),
    ])
}

#[test]
fn memory_takes_all(rt: HostRuntime) -> Result<(), Fail> {
    let bytes = counted(rt.alloc(), 200_000)?;
    let mut sink = MemorySink::new(rt.alloc());
    let (front, back) = bytes.split_at(bytes.len().min(7));
    let is_out = write_all(&mut sink, front).is_ok() && is_out(&mut sink, back);
    check(is_out && sink.bytes() == bytes.as_slice(), "taken")
}

#[test]
fn nothing_is_read_and_written(rt: HostRuntime) -> Result<(), Fail> {
    let alloc = rt.alloc();
    let is_read = is_read(alloc, 0, Pace::of_step(1))?;
    let written = write_out(alloc, 0, Pace::failing(1, 2))?;
    check_all(&[(is_read, "read"), (written.is_out(0), "written")])
}

#[test]
fn one_byte_a_call(rt: HostRuntime) -> Result<(), Fail> {
    let alloc = rt.alloc();
    let pace = Pace::of_step(1);
    check_all(&[
        (is_read(alloc, 105, pace)?, "a log read"),
        (is_read(alloc, 1048, pace)?, "a store read"),
        (write_out(alloc, 105, pace)?.is_out(105), "a log written"),
        (
            write_out(alloc, 1048, pace)?.is_out(1048),
            "a store written",
        ),
    ])
}

#[test]
fn log_sink_fails_at_40(rt: HostRuntime) -> Result<(), Fail> {
    let written = write_out(rt.alloc(), 105, Pace::failing(40, 2))?;
    check(written.has_failed(40), "written")
}

#[test]
fn store_sink_fails_at_24(rt: HostRuntime) -> Result<(), Fail> {
    let written = write_out(rt.alloc(), 1048, Pace::failing(24, 2))?;
    check(written.has_failed(24), "written")
}

#[test]
fn flush_fails(rt: HostRuntime) -> Result<(), Fail> {
    let log = write_out(rt.alloc(), 105, Pace::unflushed())?;
    let store = write_out(rt.alloc(), 1048, Pace::unflushed())?;
    check_all(&[
        (log.has_failed(105), "a log"),
        (store.has_failed(1048), "a store"),
    ])
}

#[test]
fn flush_reaches_all_that_memory_took(rt: HostRuntime) -> Result<(), Fail> {
    let mut memory = MemorySink::new(rt.alloc());
    let is_taken = write_all(&mut memory, b"abc").is_ok();
    let is_empty = memory.flushed().is_empty();
    let is_flushed = memory.flush().is_ok() && write_all(&mut memory, b"de").is_ok();
    check_all(&[
        (is_taken && is_flushed, "taken"),
        (is_empty, "flushed by itself"),
        (memory.flushed() == b"abc".as_slice(), "flushed"),
    ])
}

#[test]
fn flush_reaches_all_that_was_taken(rt: HostRuntime) -> Result<(), Fail> {
    let mut slow = SlowSink::new(rt.alloc(), 5, Pace::of_step(2))?;
    let is_out = is_out(&mut slow, b"abcde");
    check(is_out && slow.flushed() == b"abcde".as_slice(), "flushed")
}

#[test]
fn flush_that_fails_reaches_nothing(rt: HostRuntime) -> Result<(), Fail> {
    let mut slow = SlowSink::new(rt.alloc(), 5, Pace::unflushed())?;
    let has_failed = write_all(&mut slow, b"abcde").is_ok() && slow.flush().is_err();
    check(has_failed && slow.flushed().is_empty(), "flushed")
}

/// Bytes that a sink holds are flushed. A cut leaves the first of them, and then more are taken.
#[test]
fn what_is_held_is_cut_and_continued(rt: HostRuntime) -> Result<(), Fail> {
    let alloc = rt.alloc();
    let mut memory = MemorySink::holding(Vec::from_slice(alloc, b"abcde")?);
    let is_held = memory.flushed() == b"abcde".as_slice();
    let is_cut = memory.cut(3).is_ok() && memory.bytes() == b"abc".as_slice();
    let is_whole = memory.cut(4).is_ok() && memory.bytes() == b"abc".as_slice();
    let is_out = is_out(&mut memory, b"xy") && memory.flushed() == b"abcxy".as_slice();
    check_all(&[
        (is_held, "held"),
        (is_cut && is_whole, "cut"),
        (is_out, "continued"),
    ])
}

/// A device that fails at its first call keeps all.
#[test]
fn a_cut_that_fails_cuts_nothing(rt: HostRuntime) -> Result<(), Fail> {
    let mut slow = SlowSink::holding(rt.alloc(), b"abcde", 5, Pace::failing(7, 1))?;
    let has_failed = slow.cut(3).is_err() && slow.bytes() == b"abcde".as_slice();
    let is_cut = slow.cut(3).is_ok() && slow.bytes() == b"abc".as_slice();
    check_all(&[(has_failed, "kept"), (is_cut, "cut")])
}

#[test]
fn store_source_fails(rt: HostRuntime) -> Result<(), Fail> {
    check(
        fails_to_read(rt.alloc(), 1048, Pace::failing(1000, 2)),
        "read",
    )
}

/// At seven bytes a call, a source of 105 bytes is called sixteen times, the last time at its end;
/// a sink is called fifteen times, and once to be flushed.
#[test]
fn each_call_fails_in_turn(rt: HostRuntime) -> Result<(), Fail> {
    let alloc = rt.alloc();
    for call in 1..17u32 {
        let pace = Pace::failing(7, call);
        let written = write_out(alloc, 105, pace)?;
        let calls = call as usize;
        check_at(calls, fails_to_read(alloc, 105, pace), "read at call")?;
        check_at(
            calls,
            written.has_failed(7 * (calls - 1)),
            "written at call",
        )?;
    }
    let pace = Pace::failing(7, 17);
    check(is_read(alloc, 105, pace)?, "read at last")?;
    check(write_out(alloc, 105, pace)?.is_out(105), "written at last")
}
