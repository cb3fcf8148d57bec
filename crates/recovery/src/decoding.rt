//! The bytes of a log are decoded, and those of a store are read at the same time.

ghost use Rattle.std.specs.Prelude.{◌≡◌, true, length, is_some, IfSome};
ghost use Rattle.recovery.specs.LogText.{text_of, IsLogText};
ghost use Rattle.recovery.specs.Recovery.{ReadsAs};
ghost use Rattle.recovery.specs.Devices.{ReadsStore};
ghost use Rattle.recovery.specs.declared.store_pieces.TheConstants.{PIECE};

use crate::log_text::{Known, LogText, decode};
use crate::store_pieces::{DecodedStore, read_store};
use device::Source;
use page::Fault;
use std::alloc::Global;
use std::thread::{Threads, join_mut};
use wal::Log;

/// What the bytes of a log encode, found by this many threads. At the same time the thread of the
/// caller finds what the bytes that a store's source has left encode.
fn beside_each_other<'a, S: Source, R: Threads + Sync>(
    rt: &R,
    alloc: Global,
    text: &'a LogText,
    known: Known,
    threads: usize,
    store: &mut S,
    room: &mut [u8],
) -> (Result<(Log<'a>, usize), Fault>, Result<DecodedStore, Fault>)
    requires room { length room.old ≡ PIECE }
    requires known { IsLogText text.now known }
    ensures log { ReadsAs (text_of text.now) result.0 }
    ensures store { ReadsStore S.Source store.old store.new result.1 }
{
    // The closures are borrowed, and what is known is ready for the one call.
    let mut given = Some(known);
    let mut decode_log = || -> Result<(Log, usize), Fault>
        requires known { IfSome given (IsLogText text.now) }
        requires ready { is_some given ≡ true }
        ensures { ReadsAs (text_of text.entry.now) result }
    {
        match given.take() {
            Some(known) => decode(rt, alloc, text, known, threads),
            None => unreachable!(),
        }
    };
    let mut read = || -> Result<DecodedStore, Fault>
        requires { length room.now ≡ PIECE }
        ensures { ReadsStore S.Source store.entry.now store.exit.now result }
    { read_store(alloc, store, room) };
    join_mut(rt, &mut decode_log, &mut read)
}

/// What the bytes of a log encode, and what the bytes that a store's source has left encode, with
/// the errors of [`read_log`](wal::read_log) and [`read_store`]. One worker reads the store, and
/// then decodes the log. With more workers, the thread of the caller reads the store while others
/// decode the log.
pub fn decode_both<'a, S: Source, R: Threads + Sync>(
    rt: &R,
    alloc: Global,
    text: &'a LogText,
    known: Known,
    workers: u32,
    store: &mut S,
    room: &mut [u8],
) -> (Result<(Log<'a>, usize), Fault>, Result<DecodedStore, Fault>)
    requires room { length room.old ≡ PIECE }
    requires known { IsLogText text.now known }
    ensures log { ReadsAs (text_of text.now) result.0 }
    ensures store { ReadsStore S.Source store.old store.new result.1 }
{
    if workers < 2 {
        let read = read_store(alloc, store, room);
        return (decode(rt, alloc, text, known, 1), read);
    }
    beside_each_other(rt, alloc, text, known, workers as usize, store, room)
}
