//! Sources that are read again from an offset: over memory, slow ones, ones that fail, and files.

use checks::{check, check_all, check_at};
use device::{FileSource, MemorySource, Pace, Reread, SlowSource, Source, read_full_at};
use std::fs;
use std::fs::File;
use std::io::Cursor;
use std::test::Fail;

/// What each source here holds.
const HELD: &[u8] = b"abcdefghij";

/// Whether a source gives these bytes from an offset on, into a buffer of four.
fn gives<S: Reread>(source: &mut S, offset: u32, wanted: &[u8]) -> bool {
    let mut buffer = [0; 4];
    match read_full_at(source, u64::from(offset), &mut buffer) {
        Ok(count) => count == wanted.len() && buffer.starts_with(wanted),
        Err(_) => false,
    }
}

/// Whether a source reads nothing into no room.
fn gives_nothing<S: Reread>(source: &mut S) -> bool {
    read_full_at(source, 3, &mut []) == Ok(0) && source.read_at(3, &mut []) == Ok(0)
}

/// Whether a source gives what it holds from each offset, also after other reads at offsets and
/// after a plain read.
fn check_again<S: Reread>(source: &mut S) -> Result<(), Fail> {
    let is_read = source.read(&mut [0; 2]).is_ok();
    check_all(&[
        (is_read, "read"),
        (gives(source, 0, b"abcd"), "from the beginning"),
        (gives(source, 5, b"fghi"), "from the middle"),
        (gives(source, 6, b"ghij"), "just to the end"),
        (gives(source, 7, b"hij"), "to the end"),
        (gives(source, 10, b""), "at the end"),
        (gives(source, 11, b""), "past the end"),
        (gives(source, u32::MAX, b""), "far past the end"),
        (gives(source, 1, b"bcde"), "once more"),
        (gives_nothing(source), "no room"),
    ])
}

#[test]
fn memory_is_read_again() -> Result<(), Fail> {
    let mut memory = MemorySource::new(HELD);
    check_again(&mut memory)?;
    let mut buffer = [0; 4];
    let is_past = memory.read_at(u64::MAX, &mut buffer) == Ok(0);
    check(is_past, "at the greatest offset")
}

#[test]
fn a_slow_source_is_read_again() -> Result<(), Fail> {
    for step in [1, 2, 3, 4, 5] {
        check_again(&mut SlowSource::new(HELD, Pace::of_step(step)))?;
    }
    let mut buffer = [0; 4];
    let count = SlowSource::new(HELD, Pace::of_step(3)).read_at(2, &mut buffer);
    check(
        count == Ok(3) && buffer.starts_with(b"cde"),
        "few bytes a call",
    )
}

/// At two bytes a call, four bytes take two calls.
#[test]
fn each_call_fails_in_turn() -> Result<(), Fail> {
    for call in 1..5u32 {
        let mut source = SlowSource::new(HELD, Pace::failing(2, call));
        let first = gives(&mut source, 0, b"abcd");
        let second = gives(&mut source, 4, b"efgh");
        let third = gives(&mut source, 0, b"abcd");
        let calls = call as usize;
        check_at(calls, first == (call > 2), "the first, failing at call")?;
        check_at(calls, second == (call <= 2), "the second, failing at call")?;
        check_at(calls, third, "after the failure of call")?;
    }
    Ok(())
}

#[test]
fn a_file_over_memory_is_read_again() -> Result<(), Fail> {
    check_again(&mut FileSource::new(Cursor::new(HELD)))
}

#[test]
fn a_file_of_the_system_is_read_again(rt: HostRuntime) -> Result<(), Fail> {
    let path = "file-to-read-again";
    fs::write(&rt, path, HELD)?;
    let file = File::open(&rt, path)?;
    // An open file can be read without its name.
    fs::remove_file(&rt, path)?;
    check_again(&mut FileSource::new(file))
}
