//! Rows worked by hand: logs that are read in pieces, from the beginning, and once more from the
//! end.

use super::gathered::undone;
use super::with_appended;
use analysis::analyse;
use checks::check;
use device::MemorySource;
use page::Fault;
use passes::{PassFault, find_marks, gather_for_undo};
use pieces::{Mark, first_mark, piece_log, read_piece};
use std::alloc::Global;
use std::test::Fail;
use tables::Tables;
use undo::{Gathered, Gathering};
use wal::{BASED_HEADER_BYTES, LARGEST_BASE, LONGEST_FRAME, Log, based_header, read_log};
use worked_rows::written::{Row, Text, page_with, two_losers};

/// How many bytes a piece takes at most, with its header. It has room for each frame of these logs,
/// of which the longest has 62 bytes.
const ROOM: usize = 16 + 64;

/// Reads the piece after a mark into the room, and returns it as a log, and how many bytes its
/// frames have. `None` if the log ends there.
fn piece_after<'a>(
    alloc: Global,
    bytes: &[u8],
    mark: Mark,
    room: &'a mut [u8; ROOM],
) -> Result<Option<(Log<'a>, u64)>, Fault> {
    // No log of these rows comes near these limits.
    if mark.lsn > LARGEST_BASE || mark.offset > 1_000_000 {
        return Ok(None);
    }
    let Ok(count) = read_piece(&mut MemorySource::new(bytes), mark, &mut room[..]) else {
        return Ok(None);
    };
    let (log, torn) = piece_log(alloc, mark, &room[..count])?;
    let whole = count.saturating_sub(16).saturating_sub(torn) as u64;
    Ok((log.len() > 0).then_some((log, whole)))
}

/// The mark after the piece that follows this one; `None` if no record does.
fn next_mark(alloc: Global, bytes: &[u8], mark: Mark) -> Result<Option<Mark>, Fault> {
    let mut room = [0; ROOM];
    let Some((log, whole)) = piece_after(alloc, bytes, mark, &mut room)? else {
        return Ok(None);
    };
    Ok(Some(Mark {
        lsn: log.last(),
        offset: mark.offset.saturating_add(whole),
    }))
}

/// The marks before all pieces of a log, and the one after the last.
fn marks_of(alloc: Global, bytes: &[u8]) -> Result<Vec<Mark>, Fault> {
    let mut marks = Vec::new(alloc);
    let mut next = Some(first_mark(alloc, &bytes[..bytes.len().min(16)])?);
    for _ in 0..bytes.len() {
        let Some(mark) = next else {
            return Ok(marks);
        };
        marks.push(mark)?;
        next = next_mark(alloc, bytes, mark)?;
    }
    Ok(marks)
}

/// Gathers what undo looks at in the piece after a mark.
fn take_piece(
    alloc: Global,
    bytes: &[u8],
    mark: Mark,
    gathering: &mut Gathering,
) -> Result<(), Fault> {
    let mut room = [0; ROOM];
    match piece_after(alloc, bytes, mark, &mut room)? {
        Some((log, _)) => gathering.take(alloc, &log),
        None => Ok(()),
    }
}

/// What undo looks at in a log that is read in pieces, the last one first.
pub fn gathered_of(
    alloc: Global,
    bytes: &[u8],
    log: &Log,
    tables: &Tables,
) -> Result<Gathered, Fault> {
    let _room = log.next_lsn();
    let mut gathering = Gathering::begin(alloc, log.base(), log.len(), tables)?;
    for mark in marks_of(alloc, bytes)?.iter().rev() {
        take_piece(alloc, bytes, *mark, &mut gathering)?;
    }
    Ok(gathering.finish())
}

#[test]
fn reads_on_from_mark_to_mark(rt: HostRuntime) -> Result<(), Fail> {
    let alloc = rt.alloc();
    let row = two_losers(alloc)?;
    let marks = marks_of(alloc, &row.given.bytes)?;
    let places = [(0, 8), (1, 41), (2, 74), (3, 108)].map(|(lsn, offset)| Mark { lsn, offset });
    check(marks.as_slice() == places.as_slice(), "two-losers")
}

#[test]
fn begins_behind_a_header(rt: HostRuntime) -> Result<(), Fail> {
    let alloc = rt.alloc();
    let mark = first_mark(alloc, &based_header(1000))?;
    let place = Mark {
        lsn: 1000,
        offset: 16,
    };
    check(mark == place, "based")?;
    let mark = first_mark(alloc, b"ARIESLG1")?;
    check(mark == Mark { lsn: 0, offset: 8 }, "empty-log")?;
    let fault = first_mark(alloc, b"ARIESLG2\0\0\0\0\0\0\0").err();
    check(fault == Some(Fault::BadLogHeader), "base-bad-header-15")
}

/// The fault of the log of `two-losers` with another byte at this place, read in pieces.
fn fault_with(alloc: Global, place: usize, byte: u8) -> Result<Option<Fault>, Fault> {
    let mut bytes = two_losers(alloc)?.given.bytes;
    if let Some(changed) = bytes.get_mut(place) {
        *changed = byte;
    }
    Ok(marks_of(alloc, &bytes).err())
}

#[test]
fn tells_faults_by_their_places_in_the_log(rt: HostRuntime) -> Result<(), Fail> {
    let alloc = rt.alloc();
    let lsn_7 = fault_with(alloc, 41 + 12, 7)?;
    check(lsn_7 == Some(Fault::BadLsn(41)), "an LSN out of step")?;
    let short = fault_with(alloc, 74 + 3, 8)?;
    check(short == Some(Fault::BadLength(74)), "a length too small")?;
    let kind_11 = fault_with(alloc, 74 + 4, 11)?;
    check(kind_11 == Some(Fault::BadRecord(74)), "a kind that is none")
}

/// How many bytes the frames take of the records in `far_losers`: the first update, each end of a
/// transaction, and the last two updates.
const FIRST: u64 = 33;

const END: u64 = 25;

const SECOND: u64 = 33;

const THIRD: u64 = 34;

/// How many ends of transactions there are. With the first update they take more bytes than the
/// longest frame.
const ENDS: u64 = LONGEST_FRAME as u64 / END;

/// How many of them are in the first piece.
const ENDS_AT_FIRST: u64 = (LONGEST_FRAME as u64 - FIRST) / END;

/// The mark after the first piece.
const MIDDLE: Mark = Mark {
    lsn: 1 + ENDS_AT_FIRST,
    offset: 8 + FIRST + END * ENDS_AT_FIRST,
};

/// The place before the last record.
const LAST: Mark = Mark {
    lsn: 2 + ENDS,
    offset: 8 + FIRST + END * ENDS + SECOND,
};

/// The losers of `two-losers`, in a log that a room does not hold at once in which each frame fits:
/// ends of transactions come after the first update.
fn far_losers(alloc: Global) -> Result<Row, Fault> {
    let mut given = Text::new(alloc)?;
    given.first_update(0)?;
    for _ in 0..ENDS {
        given.end(3, 0)?;
    }
    given.update(2, 0, 1, None, Some(b'b'))?;
    given.update(1, 1, 0, Some(b'a'), Some(b'c'))?;
    let mut made = given.copied()?;
    made.clr(1, ENDS + 3, 1, 0, Some(b'a'))?;
    made.clr(2, ENDS + 2, 0, 1, None)?;
    made.end(2, ENDS + 5)?;
    made.clr(1, ENDS + 4, 0, 0, None)?;
    made.end(1, ENDS + 7)?;
    Ok(Row { given, made })
}

/// What undo looks at in a source that holds these bytes, read between the marks of a whole log.
fn gathered_by_marks(
    alloc: Global,
    whole: &[u8],
    bytes: &[u8],
    tables: &Tables,
) -> Result<Gathered, PassFault> {
    let Ok(mut room) = vec![in alloc; 0; BASED_HEADER_BYTES + LONGEST_FRAME] else {
        return Err(PassFault::Fault(Fault::NoResource));
    };
    let (marks, _) = find_marks(alloc, &mut MemorySource::new(whole), &mut room)?;
    gather_for_undo(
        alloc,
        &mut MemorySource::new(bytes),
        &marks,
        &mut room,
        tables,
    )
}

/// The marks that are found in some bytes, and how many of the bytes are torn.
fn found_in(alloc: Global, bytes: &[u8]) -> Result<(Vec<Mark>, usize), PassFault> {
    let Ok(mut room) = vec![in alloc; 0; BASED_HEADER_BYTES + LONGEST_FRAME] else {
        return Err(PassFault::Fault(Fault::NoResource));
    };
    let (marks, torn) = find_marks(alloc, &mut MemorySource::new(bytes), &mut room)?;
    let mut list = Vec::new(alloc);
    for place in 0..marks.len() {
        list.push(marks.at(place))
            .map_err(|_| PassFault::Fault(Fault::NoResource))?;
    }
    Ok((list, torn))
}

#[test]
fn finds_marks_and_what_is_torn(rt: HostRuntime) -> Result<(), Fail> {
    let alloc = rt.alloc();
    let bytes = far_losers(alloc)?.given.bytes;
    let first = Mark { lsn: 0, offset: 8 };
    let end = Mark {
        lsn: LAST.lsn + 1,
        offset: LAST.offset + THIRD,
    };
    let Ok((marks, torn)) = found_in(alloc, &bytes) else {
        return Err(Fail::new("no marks"));
    };
    let found = marks.as_slice() == [first, MIDDLE, end].as_slice();
    check(found && torn == 0, "far losers")?;
    let cut = &bytes[..bytes.len().min(LAST.offset as usize + 26)];
    let Ok((marks, torn)) = found_in(alloc, cut) else {
        return Err(Fail::new("no marks of a log that is cut"));
    };
    let found = marks.as_slice() == [first, MIDDLE, LAST].as_slice();
    check(found && torn == 26, "cut in the last record")
}

#[test]
fn gathers_between_marks(rt: HostRuntime) -> Result<(), Fail> {
    let alloc = rt.alloc();
    let row = far_losers(alloc)?;
    let (log, _) = read_log(alloc, &row.given.bytes)?;
    let tables = analyse(alloc, &log, 0)?;
    let whole = &row.given.bytes;
    let Ok(gathered) = gathered_by_marks(alloc, whole, whole, &tables) else {
        return Err(Fail::new("not gathered"));
    };
    let page = page_with(ENDS + 3, Some(b'c'), Some(b'b'));
    let rollback = undone(alloc, &gathered, &tables, page)?;
    let made = with_appended(&row.given, &rollback.appended)?;
    check(made.as_slice() == row.made.bytes.as_slice(), "far losers")?;
    let cut = &whole[..whole.len().min(LAST.offset as usize)];
    let fault = gathered_by_marks(alloc, whole, cut, &tables).err();
    let in_the_last_piece = PassFault::Fault(Fault::BadLsn(MIDDLE.offset));
    check(fault == Some(in_the_last_piece), "a source that was cut")
}
