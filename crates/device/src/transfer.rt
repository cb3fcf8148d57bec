//! Functions that read all of a source, or write all bytes to a sink.

ghost use Rattle.std.specs.Prelude.{◌≡◌, ◌+◌, ◌≤◌, ◌<◌, [], ◌++◌, take, drop, length, vec_len, IfErr, IfOk, IfSome, OnErr, OnOk};
ghost use Rattle.std.specs.Io.KnownBytes.{Appends, Consumes, IsAtEnd, Keeps};
ghost use Rattle.device.specs.Failures.{Counts};
ghost use Rattle.device.specs.Transfer.{failures_of, ReadBeginning, ReadBehind, TookBeginning};

use crate::{Failed, Sink, Source};
use std::alloc::{AllocError, Global};

/// Why a source was not read to its end.
#[derive(Clone, Copy, Debug, PartialEq, Eq)]
pub enum ReadFault {
    /// The source failed.
    Failed,
    /// Memory for the bytes was refused.
    NoMemory,
}

/// How many bytes of room a read has, at least.
const PIECE: usize = 64 * 1024;

/// An empty buffer with room for the bytes of the hint and one more read. If so much memory is
/// refused, the buffer has no room, and memory is taken as bytes come.
fn room_for(alloc: Global, hint: usize) -> Vec<u8>
    ensures { result.items ≡ [] }
{
    match Vec::with_capacity(alloc, hint.saturating_add(PIECE)) {
        Ok(bytes) => bytes,
        Err(_) => Vec::new(alloc),
    }
}

/// Makes room for one more read in a buffer of which this many bytes are read. A buffer that has
/// enough room after them stays as it is.
fn make_room(bytes: &mut Vec<u8>, filled: usize) -> Result<(), AllocError>
    requires { filled ≤ vec_len bytes.old }
    ensures front { take filled bytes.new.items ≡ take filled bytes.old.items }
    ensures within { filled ≤ vec_len bytes.new }
    ensures room { OnOk result (filled < vec_len bytes.new) }
{
    match filled.checked_add(PIECE) {
        Some(length) if length <= bytes.len() => Ok(()),
        Some(length) => bytes.resize(length, 0),
        None => Err(AllocError),
    }
}

/// One read into a buffer after the bytes that were read before it.
fn read_behind<S: Source>(source: &mut S, bytes: &mut [u8], filled: usize) -> Result<usize, Failed>
    requires { filled < length bytes.old }
    ensures front { take filled bytes.new ≡ take filled bytes.old }
    ensures within { IfOk result (λ count. filled + count ≤ length bytes.new) }
    ensures bytes { IfOk result (λ count. Consumes (S.left source.old) (S.left source.new)
        (take count (drop filled bytes.new))) }
    ensures end { IfOk result (λ count. count ≡ 0 → IsAtEnd (S.left source.new)) }
    ensures none_read { OnErr result (Keeps (S.left source.old) (S.left source.new)) }
    ensures cause { Counts (S.failures source.old) (S.failures source.new) result }
{
    source.read(&mut bytes[filled..])
}

/// Reads after the first `filled` bytes: once, and then again until there are as many bytes as are
/// wanted or the source is at its end. The rest of the buffer is cut off.
fn read_on<S: Source>(
    source: &mut S,
    bytes: &mut Vec<u8>,
    mut filled: usize,
    wanted: usize,
) -> Result<(), ReadFault>
    requires { filled ≤ vec_len bytes.old }
    ensures read { OnOk result (ReadBehind (S.left source.old) (S.left source.new)
        (take filled bytes.old.items) bytes.new.items) }
    ensures end { OnOk result (vec_len bytes.new < wanted → IsAtEnd (S.left source.new)) }
    ensures no_failure { OnOk result (S.failures source.new ≡ S.failures source.old) }
    ensures cause { IfErr result (λ fault. S.failures source.new
        ≡ S.failures source.old + failures_of fault) }
    ensures beginning { OnErr result (ReadBeginning (S.left source.old) (S.left source.new)) }
{
    loop {
        make_room(bytes, filled).map_err(|_| ReadFault::NoMemory)?;
        let count = read_behind(source, bytes, filled).map_err(|_| ReadFault::Failed)?;
        filled += count;
        if count == 0 || filled >= wanted {
            bytes.truncate(filled);
            return Ok(());
        }
    }
}

/// All bytes that a source has left, by reads of up to 64 KiB. Room is made once if the source's
/// hint is right, and otherwise as bytes come. A source without end runs out of memory.
///
/// `Failed` if the source failed; its count of failures has risen by one. `NoMemory` if memory for
/// the bytes was refused; no failure is counted. After either error a prefix of the bytes that were
/// left has been read, and is dropped.
pub fn read_all<S: Source>(alloc: Global, source: &mut S) -> Result<Vec<u8>, ReadFault>
    ensures all { IfOk result (λ bytes. IfSome (S.left source.old) (λ left. bytes.items ≡ left)) }
    ensures read { IfOk result (λ bytes. Consumes (S.left source.old)
        (S.left source.new) bytes.items) }
    ensures end { OnOk result (IsAtEnd (S.left source.new)) }
    ensures no_failure { OnOk result (S.failures source.new ≡ S.failures source.old) }
    ensures cause { IfErr result (λ fault. S.failures source.new
        ≡ S.failures source.old + failures_of fault) }
    ensures beginning { OnErr result (ReadBeginning (S.left source.old) (S.left source.new)) }
{
    let mut bytes = room_for(alloc, source.hint());
    read_rest(source, &mut bytes, 0)?;
    Ok(bytes)
}

/// Reads all bytes that a source has left into a buffer, after its first `filled` bytes. What the
/// buffer holds after these is lost: it is room for reads as large as it is. If less than 64 KiB of
/// it are free, room for that many more is made as bytes come. A source without end runs out of
/// memory.
///
/// `Failed` if the source failed; its count of failures has risen by one. `NoMemory` if memory for
/// the bytes was refused; no failure is counted. After either error a prefix of the bytes that were
/// left has been read, and the content of the buffer is not specified.
pub fn read_rest<S: Source>(
    source: &mut S,
    bytes: &mut Vec<u8>,
    filled: usize,
) -> Result<(), ReadFault>
    requires { filled ≤ vec_len bytes.old }
    ensures all { OnOk result (IfSome (S.left source.old)
        (λ left. bytes.new.items ≡ take filled bytes.old.items ++ left)) }
    ensures read { OnOk result (ReadBehind (S.left source.old) (S.left source.new)
        (take filled bytes.old.items) bytes.new.items) }
    ensures end { OnOk result (IsAtEnd (S.left source.new)) }
    ensures no_failure { OnOk result (S.failures source.new ≡ S.failures source.old) }
    ensures cause { IfErr result (λ fault. S.failures source.new
        ≡ S.failures source.old + failures_of fault) }
    ensures beginning { OnErr result (ReadBeginning (S.left source.old) (S.left source.new)) }
{
    read_on(source, bytes, filled, usize::MAX)
}

/// The next bytes of a source: `count`, or up to 64 KiB more. There are fewer only if the source is
/// at its end. Room for `count` is made at once if there is memory for it, and otherwise as bytes
/// come. No read is of more than 64 KiB. One read is made even if `count` is 0.
///
/// `Failed` if the source failed; its count of failures has risen by one. `NoMemory` if memory for
/// the bytes was refused; no failure is counted. After either error a prefix of the bytes that were
/// left has been read, and is dropped.
pub fn read_front<S: Source>(
    alloc: Global,
    source: &mut S,
    count: usize,
) -> Result<Vec<u8>, ReadFault>
    ensures read { IfOk result (λ bytes. Consumes (S.left source.old)
        (S.left source.new) bytes.items) }
    ensures end { IfOk result (λ bytes. vec_len bytes < count → IsAtEnd (S.left source.new)) }
    ensures no_failure { OnOk result (S.failures source.new ≡ S.failures source.old) }
    ensures cause { IfErr result (λ fault. S.failures source.new
        ≡ S.failures source.old + failures_of fault) }
    ensures beginning { OnErr result (ReadBeginning (S.left source.old) (S.left source.new)) }
{
    let mut bytes = room_for(alloc, count);
    read_on(source, &mut bytes, 0, count)?;
    Ok(bytes)
}

/// Fills a buffer with the next bytes of a source, and returns how many they are. They are fewer
/// than the buffer takes only if the source is at its end. The rest of the buffer is not specified.
///
/// `Failed` if the source failed; its count of failures has risen by one. A prefix of the bytes
/// that were left has been read, and is dropped.
pub fn read_full<S: Source>(source: &mut S, buffer: &mut [u8]) -> Result<usize, Failed>
    ensures within { IfOk result (λ count. count ≤ length buffer.new) }
    ensures read { IfOk result (λ count. Consumes (S.left source.old) (S.left source.new)
        (take count buffer.new)) }
    ensures end { IfOk result (λ count. count < length buffer.new → IsAtEnd (S.left source.new)) }
    ensures cause { Counts (S.failures source.old) (S.failures source.new) result }
    ensures beginning { OnErr result (ReadBeginning (S.left source.old) (S.left source.new)) }
{
    let mut filled = 0;
    while filled < buffer.len() {
        let count = read_behind(source, buffer, filled)?;
        if count == 0 {
            return Ok(filled);
        }
        filled += count;
    }
    Ok(filled)
}

/// Writes all bytes to a sink, after those that it took before. The sink is not flushed.
///
/// `Failed` if the sink failed; its count of failures has risen by one, and it has taken a prefix
/// of the bytes.
pub fn write_all<S: Sink>(sink: &mut S, bytes: &[u8]) -> Result<(), Failed>
    ensures all { OnOk result (Appends (S.taken sink.old) (S.taken sink.new) bytes.now) }
    ensures cause { Counts (S.failures sink.old) (S.failures sink.new) result }
    ensures beginning { OnErr result
        (TookBeginning (S.taken sink.old) (S.taken sink.new) bytes.now) }
    ensures unflushed { Keeps (S.flushed sink.old) (S.flushed sink.new) }
{
    let mut rest = bytes;
    while !rest.is_empty() {
        let count = sink.write(rest)?;
        rest = &rest[count..];
    }
    Ok(())
}
