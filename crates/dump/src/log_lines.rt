//! The lines of a log.

ghost use Rattle.std.specs.Prelude.{◌≡◌, ◌+◌, ◌<◌, ◌≤◌, ◌^◌, ℕ, ◌++◌, OnOk, IfOk, IfErr, Some};
ghost use Rattle.std.specs.Io.KnownBytes.{Appends, Keeps};
ghost use Rattle.page.specs.declared.fault.Fault.{Fault};
ghost use Rattle.wal.specs.Content.{shown};
ghost use Rattle.wal.specs.Headers.{header_bytes};
ghost use Rattle.wal.specs.Reads.{Reads, Cause};
ghost use Rattle.log_laws.specs.Records.{history, first};
ghost use Rattle.wal.specs.Spelling.{Fits};
ghost use Rattle.dump.specs.LogLines.{log_line, place_behind, line_if_asked, record_lines, torn_line, log_lines, ListsLog, ListsFront, ListsToFault, PrintsBeginning, PrintsFirstLines, IfMemory, fault_at, IsNoFault};

use crate::line::{closing, put_number_field, put_opening, put_text};
use crate::record::{LineRoom, RECORD_ROOM, put_record};
use crate::{Choice, Stop, Style};
use page::Fault;
use std::alloc::{AllocError, Global};
use std::io::Write;
use wal::{Log, LogStart, RecordView, header_bytes, read_log};

/// The most bytes that the line of a header takes, and some more that are kept free.
const HEADER_ROOM: usize = 112;

/// The most bytes that the line of a torn tail takes, and some more that are kept free.
const TORN_ROOM: usize = 80;

/// Appends the line of a log's header.
fn put_start(line: &mut Vec<u8>, style: Style, start: LogStart) -> Result<(), AllocError>
    ensures { OnOk result (line.new.items ≡ line.old.items ++ log_line style start) }
{
    let version = match start {
        LogStart::Version1 => 1,
        LogStart::Version2 { .. } => 2,
    };
    let mut buffer = [0; HEADER_ROOM];
    let at = put_opening(&mut buffer, style, 0, "log");
    let at = put_number_field(&mut buffer, at, style, "version", version);
    let at = put_number_field(&mut buffer, at, style, "BaseLSN", start.base());
    let at = put_text(&mut buffer, at, closing(style));
    line.extend_from_slice(&buffer[..at])
}

/// Prints the line of a record if it is asked for; its frame is at this offset. The content of
/// `room` is not used.
fn print_record<W: Write>(
    view: &RecordView,
    lsn: u64,
    offset: u64,
    choice: &Choice,
    room: &mut LineRoom,
    out: &mut W,
) -> Result<(), Stop>
    requires { Fits (shown view.now) }
    ensures printed { OnOk result (Appends (W.contents out.old) (W.contents out.new)
        (line_if_asked room.old.style choice.now offset lsn (shown view.now))) }
    ensures style { room.new.style ≡ room.old.style }
    ensures err { IfErr result IsNoFault }
    ensures kept { IfErr result (λ e. IfMemory e (Keeps (W.contents out.old) (W.contents out.new))) }
{
    if !choice.asks_for(lsn, view) {
        return Ok(());
    }
    room.line.clear();
    put_record(
        &mut room.line,
        &mut room.buffer,
        room.style,
        offset,
        lsn,
        view,
    )?;
    out.write_all(&room.line)?;
    Ok(())
}

/// Prints the lines of a log's records. The first frame comes after a header of this many bytes.
/// Returns the offset after the last frame.
fn print_records<W: Write>(
    alloc: Global,
    log: &Log,
    header: u64,
    style: Style,
    choice: &Choice,
    out: &mut W,
) -> Result<u64, Stop>
    requires { place_behind header (history log.now) < 2 ^ 64 }
    ensures printed { OnOk result (Appends (W.contents out.old) (W.contents out.new)
        (record_lines style choice.now header (history log.now))) }
    ensures behind { IfOk result (λ place. place ≡ place_behind header (history log.now)) }
    ensures err { IfErr result IsNoFault }
    ensures so_far { IfErr result (λ e. IfMemory e ((lsn : ℕ)
        × Appends (W.contents out.old) (W.contents out.new)
        (record_lines style choice.now header (first lsn (history log.now))))) }
{
    let mut place = header;
    let mut room = LineRoom {
        style,
        buffer: [0; RECORD_ROOM],
        line: Vec::new(alloc),
    };
    for lsn in log.base()..log.last() {
        let view = log.after(lsn);
        print_record(&view, lsn + 1, place, choice, &mut room, out)?;
        place += view.frame_bytes();
    }
    Ok(place)
}

/// Prints the line of a torn tail of this many bytes at this offset; none if it has no bytes.
fn print_torn_tail<W: Write>(
    torn: u64,
    offset: u64,
    style: Style,
    line: &mut Vec<u8>,
    out: &mut W,
) -> Result<(), Stop>
    ensures printed { OnOk result (Appends (W.contents out.old) (W.contents out.new)
        (torn_line style offset torn)) }
    ensures err { IfErr result IsNoFault }
    ensures kept { IfErr result (λ e. IfMemory e (Keeps (W.contents out.old) (W.contents out.new))) }
{
    if torn == 0 {
        return Ok(());
    }
    line.clear();
    let mut buffer = [0; TORN_ROOM];
    let at = put_opening(&mut buffer, style, offset, "torn tail");
    let at = put_number_field(&mut buffer, at, style, "bytes", torn);
    let at = put_text(&mut buffer, at, closing(style));
    line.extend_from_slice(&buffer[..at])?;
    out.write_all(line)?;
    Ok(())
}

/// Prints the lines of a log that was read from these bytes.
fn print_log<W: Write>(
    alloc: Global,
    bytes: &[u8],
    log: &Log,
    torn: usize,
    style: Style,
    choice: &Choice,
    out: &mut W,
) -> Result<(), Stop>
    requires { Reads bytes.now log.now torn }
    ensures printed { OnOk result (Appends (W.contents out.old) (W.contents out.new)
        (log_lines style choice.now log.now torn)) }
    ensures err { IfErr result IsNoFault }
    ensures so_far { IfErr result (λ e. IfMemory e (PrintsBeginning style choice.now log.now
        (W.contents out.old) (W.contents out.new))) }
{
    let start = log.start();
    let mut line = Vec::new(alloc);
    put_start(&mut line, style, start)?;
    out.write_all(&line)?;
    let header = header_bytes(start) as u64;
    let end = print_records(alloc, log, header, style, choice, out)?;
    print_torn_tail(torn as u64, end, style, &mut line, out)
}

/// The offset of the frame that a fault of a log is about.
fn fault_at(fault: &Fault) -> Option<u64>
    ensures { result ≡ fault_at fault.now }
{
    match fault {
        Fault::BadLength(offset) => Some(*offset),
        Fault::BadRecord(offset) => Some(*offset),
        Fault::BadLsn(offset) => Some(*offset),
        _ => None,
    }
}

/// Prints the lines of what comes before the frame that a fault is about.
fn print_front<W: Write>(
    alloc: Global,
    bytes: &[u8],
    fault: &Fault,
    style: Style,
    choice: &Choice,
    out: &mut W,
) -> Result<(), Stop>
    requires { Cause bytes.now fault.now }
    ensures printed { OnOk result (ListsFront style choice.now bytes.now (W.contents out.old)
        (W.contents out.new) (fault_at fault.now)) }
    ensures err { IfErr result IsNoFault }
    ensures so_far { IfErr result (λ e. IfMemory e (PrintsFirstLines style choice.now bytes.now
        (W.contents out.old) (W.contents out.new))) }
{
    let Some(offset) = fault_at(fault) else {
        return Ok(());
    };
    let front = &bytes[..offset as usize];
    match read_log(alloc, front) {
        Ok((log, torn)) => print_log(alloc, front, &log, torn, style, choice, out),
        Err(fault) => Err(Stop::Fault(fault)),
    }
}

/// Prints what a log holds: a line for its header, one for each of its records that is asked for,
/// in the order of the log, and one for its torn tail, if it has one. Each line begins with the
/// offset in bytes of the thing that it describes, and with what that is. The line of a record has
/// its LSN and all of its fields; values are shown as text and in hexadecimal, and tables entry by
/// entry. In text for people, commas separate the fields; in [`Style::Json`] each line is an
/// object.
///
/// Errors: [`Stop::Fault`] with the fault of [`wal::read_log`] if the log is damaged, after all
/// that comes before the damaged frame was listed; [`Stop::Fault`] with `NoResource` if memory was
/// refused; and [`Stop::Print`] if a line could not be printed. After the last two the first of the
/// lines are printed, and only whole lines if memory was refused. The call takes the memory that
/// `read_log` takes, and that of one line.
pub fn list_log<W: Write>(
    alloc: Global,
    bytes: &[u8],
    style: Style,
    choice: &Choice,
    out: &mut W,
) -> Result<(), Stop>
    ensures listed { OnOk result (ListsLog style choice.now bytes.now (W.contents out.old)
        (W.contents out.new)) }
    ensures damaged { IfErr result (ListsToFault style choice.now bytes.now (W.contents out.old)
        (W.contents out.new)) }
{
    match read_log(alloc, bytes) {
        Ok((log, torn)) => print_log(alloc, bytes, &log, torn, style, choice, out),
        Err(fault) => {
            print_front(alloc, bytes, &fault, style, choice, out)?;
            Err(Stop::Fault(fault))
        }
    }
}
