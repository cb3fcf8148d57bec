//! Sources that several threads read at once: over memory, slow ones, ones that fail, and files.

use checks::{check, check_all, check_at};
use device::{
    Failed, FileSource, MemorySource, Pace, Reread, Share, SharedBytes, SharedFile,
    SharedFileSource, SharedReader, SharedSource, SlowBytes, SlowSource, Source, Span,
    read_full_at,
};
use std::alloc::{AllocError, Global};
use std::fs::{File, OpenOptions};
use std::test::Fail;
use std::thread::Threads;
use std::{fs, thread};

/// What each source here holds.
const HELD: &[u8] = b"abcdefghij";

/// What one of two readers reads, and the span of it.
type Part = (Option<[u8; 5]>, Option<Span>);

/// Reads five bytes from an offset on. `None` if the source failed, or ended before.
fn part_from<H: SharedSource>(shared: &H, from: u32) -> Part {
    let mut reader = SharedReader::new(shared, u64::from(from));
    let mut buffer = [0; 5];
    let is_read = read_full_at(&mut reader, u64::from(from), &mut buffer) == Ok(5);
    (is_read.then_some(buffer), reader.span_from(u64::from(from)))
}

/// What two threads read, one the first half and the other the second.
fn parts_of<R: Threads + Sync, H: SharedSource>(
    rt: &R,
    alloc: Global,
    shared: &H,
) -> Result<Vec<Part>, AllocError> {
    let read = |index: usize| -> Part { part_from(shared, if index == 0 { 0 } else { 5 }) };
    thread::map_indices(rt, alloc, 2, &read)
}

/// Whether these are all bytes that each source here holds.
fn are_all(parts: &[Part]) -> bool {
    match parts {
        [(Some(first), _), (Some(second), _)] => first == b"abcde" && second == b"fghij",
        _ => false,
    }
}

/// Fails a test if two threads do not read all that a source holds, or if it cannot be read again
/// after it counted what they read.
fn check_by_threads<R: Threads + Sync, S: Share>(
    rt: &R,
    alloc: Global,
    source: &mut S,
) -> Result<(), Fail> {
    let parts = parts_of(rt, alloc, source.shared())?;
    for (_, span) in &parts {
        if let Some(span) = span {
            source.count_read(*span);
        }
    }
    let mut buffer = [0; 4];
    let again = read_full_at(source, 5, &mut buffer);
    check_all(&[
        (are_all(&parts), "read by threads"),
        (again == Ok(4) && buffer == *b"fghi", "read again"),
    ])
}

#[test]
fn memory_is_read_by_threads(rt: HostRuntime) -> Result<(), Fail> {
    check_by_threads(&rt, rt.alloc(), &mut MemorySource::new(HELD))
}

#[test]
fn a_slow_source_is_read_by_threads(rt: HostRuntime) -> Result<(), Fail> {
    for step in [1, 3] {
        let mut source = SlowSource::new(HELD, Pace::of_step(step));
        check_by_threads(&rt, rt.alloc(), &mut source)?;
    }
    Ok(())
}

#[test]
fn a_file_is_read_by_threads(rt: HostRuntime) -> Result<(), Fail> {
    let path = "file-to-be-shared";
    fs::write(&rt, path, HELD)?;
    let own = File::open(&rt, path)?;
    let shared = File::open(&rt, path)?;
    // An open file can be read without its name.
    fs::remove_file(&rt, path)?;
    let mut source = SharedFileSource::new(FileSource::sized(own), SharedFile::new(shared));
    check_by_threads(&rt, rt.alloc(), &mut source)?;
    let mut buffer = [0; 4];
    let is_far = source.shared().read_at(1 << 63, &mut buffer) == Err(Failed);
    check_all(&[
        (source.hint() == 10, "its length is a hint"),
        (is_far, "no file is as long as 2^63"),
    ])
}

#[test]
fn a_file_that_is_only_written_fails(rt: HostRuntime) -> Result<(), Fail> {
    let path = "file-to-be-written";
    fs::write(&rt, path, HELD)?;
    let file = OpenOptions::new().write(true).open(&rt, path)?;
    fs::remove_file(&rt, path)?;
    let shared = SharedFile::new(file);
    let (part, _) = part_from(&shared, 0);
    check(part.is_none(), "read though it is only written")
}

/// What two threads read is one call of each, and one of both fails.
#[test]
fn one_of_all_calls_fails(rt: HostRuntime) -> Result<(), Fail> {
    for call in [1u32, 2] {
        let pace = Pace::failing(5, call);
        let source = SlowSource::sharing(HELD, Pace::of_step(5), pace);
        let parts = parts_of(&rt, rt.alloc(), source.shared())?;
        let failed = parts.iter().filter(|(part, _)| part.is_none()).count();
        let parts = parts_of(&rt, rt.alloc(), source.shared())?;
        check_at(call as usize, failed == 1, "one thread fails at call")?;
        check_at(call as usize, are_all(&parts), "none after call")?;
    }
    Ok(())
}

/// The source itself has a pace of its own.
#[test]
fn the_paces_are_two() -> Result<(), Fail> {
    let mut source = SlowSource::sharing(HELD, Pace::of_step(2), Pace::failing(3, 1));
    let mut buffer = [0; 4];
    let own = source.read_at(0, &mut buffer);
    let first = source.shared().read_at(0, &mut buffer);
    let second = source.shared().read_at(1, &mut buffer);
    check_all(&[
        (own == Ok(2), "its own"),
        (first == Err(Failed), "the call that fails"),
        (
            second == Ok(3) && buffer.starts_with(b"bcd"),
            "the next one",
        ),
    ])
}

/// A source that never fails shares one that never fails, with the same step.
#[test]
fn a_pace_that_fails_is_not_shared() -> Result<(), Fail> {
    let source = SlowSource::new(HELD, Pace::failing(3, 1));
    let count = source.shared().read_at(0, &mut [0; 4]);
    check(count == Ok(3), "the shared one failed, or has another step")
}

/// Reads on, and returns how many bytes came and whether they are these.
fn reads_on<H: SharedSource>(reader: &mut SharedReader<H>, wanted: &[u8]) -> bool {
    let mut buffer = [0; 3];
    match reader.read(&mut buffer) {
        Ok(count) => count == wanted.len() && buffer.starts_with(wanted),
        Err(_) => false,
    }
}

#[test]
fn a_reader_reads_on_from_where_it_was_begun() -> Result<(), Fail> {
    let shared = SharedBytes::new(HELD);
    let mut reader = SharedReader::new(&shared, 3);
    let mut other = SharedReader::new(&shared, 8);
    let mut buffer = [0; 2];
    check_all(&[
        (reader.hint() == 0, "no hint"),
        (reads_on(&mut reader, b"def"), "from there on"),
        (reader.read_at(0, &mut buffer) == Ok(2), "at an offset"),
        (reads_on(&mut reader, b"ghi"), "and on"),
        (reads_on(&mut other, b"ij"), "another reader"),
        (reads_on(&mut reader, b"j"), "to the end"),
        (reads_on(&mut reader, b""), "at the end"),
        (
            reader.read_at(u64::MAX, &mut buffer) == Ok(0),
            "far past it",
        ),
    ])
}

#[test]
fn a_reader_goes_on_after_a_failure() -> Result<(), Fail> {
    let shared = SlowBytes::new(HELD, Pace::failing(3, 2));
    let mut reader = SharedReader::new(&shared, 0);
    let mut buffer = [0; 3];
    check_all(&[
        (reads_on(&mut reader, b"abc"), "the first call"),
        (
            reader.read(&mut buffer) == Err(Failed),
            "the one that fails",
        ),
        (reads_on(&mut reader, b"def"), "the next one"),
    ])
}

/// A source with a byte at each offset.
struct Endless;

impl SharedSource for Endless {
    fn read_at(&self, _offset: u64, buffer: &mut [u8]) -> Result<usize, Failed> {
        Ok(buffer.len())
    }
}

/// No offset follows the greatest one, so no byte there can be counted.
#[test]
fn a_reader_fails_at_the_greatest_offset() -> Result<(), Fail> {
    let mut reader = SharedReader::new(&Endless, u64::MAX - 2);
    let mut buffer = [0; 2];
    let is_past = reader.read_at(u64::MAX - 1, &mut buffer) == Err(Failed);
    check_all(&[
        (is_past, "past it"),
        (reader.read(&mut buffer) == Ok(2), "up to it"),
        (reader.read(&mut buffer) == Err(Failed), "from it on"),
        (reader.read(&mut []) == Ok(0), "no room"),
    ])
}
