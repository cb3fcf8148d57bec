//! A stretch of a log without a checkpoint, which a worker reads with a reader of its own: its
//! marks, and what analysis and redo find in it without what is before it.

ghost use Rattle.std.specs.Prelude.{◌≡◌, ◌≤◌, ⊤, All, length, vec_len, IfOk, IfSome, IsOkUnless};
ghost use Rattle.page.specs.declared.fault.Fault.TheVariants.{NoResource};
ghost use Rattle.wal.specs.declared.sizes.TheConstants.{LARGEST_BASE};
ghost use Rattle.passes.specs.Calls.{IsRoom};
ghost use Rattle.passes.specs.Marks.{IsLow};
ghost use Rattle.passes.specs.ReadOn.{IsReadyAfter};
ghost use Rattle.passes.specs.Stretches.{StretchGoesOn, KeepsStretch, IsBegunAt, IsBegunStretch};
ghost use Rattle.passes.specs.Stretches.{IsBegun, IsReadBy, IsTried, AreReadBy};

use crate::pass::Pass;
use crate::read_on::{Reading, read_to_border};
use crate::{Marks, PassFault};
use analysis::FreshStretch;
use changes::Pages;
use device::{SharedReader, SharedSource, Span};
use page::Fault;
use pieces::Mark;
use redo::TallyScan;
use std::alloc::Global;
use std::thread;
use std::thread::Threads;
use wal::Glance;

/// Analysis and redo while a stretch of a log without a checkpoint is read.
#[derive(Drop)]
pub struct StretchPass {
    /// What its records do to the transaction table, and which is the first that changes a page.
    pub tables: FreshStretch,
    /// The tallies of all pages: each is treated as dirty from the first record of the stretch on.
    pub tallies: TallyScan,
}

impl Pass for StretchPass {
    ghost use Rattle.std.proofs.Common.{refl, ◌∙◌};

    ghost is_ready = { λ scan lsn. scan.tallies.upto ≤ lsn };

    ghost passes = { StretchGoesOn };

    ghost keeps = { KeepsStretch };

    ghost stops = { λ scan whole before e. ⊤ };

    ghost may_stop = { λ e. ⊤ };

    ghost begins = { λ scan whole before. (λ from found. found, λ images tables tallied. tallied) };

    ghost goes_on = { λ old now new whole before between after one more. (
      λ from found. more.0 from (one.0 from found),
      λ images tables tallied. more.1 images tables (one.1 images tables tallied),
    ) };

    ghost begins_same = { λ scan. record {
      count = refl;
      base = refl;
      no_transaction_0 = λ none. none;
    } };

    ghost stays_same = { λ old now new one more. record {
      count = more.count ∙ one.count;
      base = more.base ∙ one.base;
      no_transaction_0 = λ none. more.no_transaction_0 (one.no_transaction_0 none);
    } };

    ghost stops_later = { λ old now whole before between e one later. tt };

    ghost stops_for_memory = { λ scan whole before. tt };

    #[inline(always)]
    fn look_at(&mut self, lsn: u64, glance: Glance, _body: &[u8]) -> Result<(), Fault> {
        self.tables.take(lsn, glance)?;
        self.tallies.take(lsn, glance)
    }

    fn is_done(&self) -> bool {
        false
    }
}

/// The scan of a stretch before its first record, which comes after this LSN. The only error is
/// `NoResource`.
fn begin_stretch<P: Pages>(alloc: Global, pages: &P, lsn: u64) -> Result<StretchPass, Fault>
    requires { lsn ≤ LARGEST_BASE }
    ensures begun { IfOk result (IsBegunAt P.Pages pages.now lsn) }
    ensures err { IsOkUnless result NoResource }
{
    Ok(StretchPass {
        tables: FreshStretch::begin(alloc),
        tallies: TallyScan::begin_listed(alloc, pages, lsn + 1, lsn)?,
    })
}

/// A stretch that a worker reads.
#[derive(Drop)]
pub struct Stretch {
    /// What is read of it, from the mark before its first record on. That mark may be guessed wrong.
    pub reading: Reading<StretchPass>,
    /// The offset at which the next stretch begins.
    pub border: u64,
    /// The bytes that the worker has read, once it has read the stretch to its border. It has not if
    /// the device failed, if memory was refused, or if a record has a fault.
    pub span: Option<Span>,
}

/// A stretch before it is read, from this mark up to this offset. The only error is `NoResource`.
fn stretch_at<P: Pages>(
    alloc: Global,
    pages: &P,
    first: Mark,
    border: u64,
) -> Result<Stretch, Fault>
    requires { IsLow first }
    ensures begun { IfOk result (IsBegunStretch P.Pages pages.now) }
    ensures err { IsOkUnless result NoResource }
{
    let reading = Reading {
        marks: Marks::begin(alloc, first)?,
        pass: begin_stretch(alloc, pages, first.lsn)?,
    };
    Ok(Stretch {
        reading,
        border,
        span: None,
    })
}

/// The stretches that begin at these marks, each up to the next one and the last up to an offset.
/// The only error is `NoResource`.
pub fn stretches_at<P: Pages>(
    alloc: Global,
    pages: &P,
    firsts: &[Mark],
    end: u64,
) -> Result<Vec<Stretch>, Fault>
    requires { All IsLow firsts.now }
    ensures each { IfOk result (λ all. All (IsBegunStretch P.Pages pages.now) all.items) }
    ensures err { IsOkUnless result NoResource }
{
    let mut stretches = Vec::new(alloc);
    for number in 0..firsts.len() {
        let border = firsts.get(number + 1).map_or(end, |next| next.offset);
        stretches.push(stretch_at(alloc, pages, firsts[number], border)?)?;
    }
    Ok(stretches)
}

/// A room of this many bytes. The only error is `NoResource`.
fn room_of(alloc: Global, size: usize) -> Result<Vec<u8>, Fault>
    ensures size { IfOk result (λ room. vec_len room ≡ size) }
    ensures err { IsOkUnless result NoResource }
{
    Ok(vec![in alloc; 0; size]?)
}

/// Reads a stretch on to its border, with a reader of its own and into a room of its own with this
/// many bytes. Returns what the reader has read. Errors are those of [`read_to_border`], and
/// `NoResource` if memory was refused.
///
/// It is not inlined. Threads are started by a function that calls itself, and each of those calls
/// would need the stack of a reading, 30 KB.
#[inline(never)]
fn read_stretch<H: SharedSource>(
    alloc: Global,
    shared: &H,
    size: usize,
    border: u64,
    reading: &mut Reading<StretchPass>,
) -> Result<Option<Span>, PassFault>
    requires room { IsRoom size }
    requires ready { IsReadyAfter (λ scan lsn. scan.tallies.upto ≤ lsn) reading.old }
    ensures { IfOk result (λ x. IfSome x
        (IsReadBy (H.text shared.now) size reading.old reading.new)) }
{
    let from = reading.marks.end().offset;
    let mut reader = SharedReader::new(shared, from);
    let mut room = room_of(alloc, size)?;
    read_to_border(&mut reader, reading, border, &mut room)?;
    Ok(reader.span_from(from))
}

/// Tries to read these stretches, each in a thread of its own and into a room of its own with this
/// many bytes.
pub fn read_stretches<R: Threads + Sync, H: SharedSource>(
    rt: &R,
    alloc: Global,
    shared: &H,
    room: usize,
    stretches: &mut [Stretch],
)
    requires room { IsRoom room }
    requires ready { All IsBegun stretches.old }
    ensures len { length stretches.new ≡ length stretches.old }
    ensures each { AreReadBy (H.text shared.now) room stretches.old stretches.new }
{
    let read = |_number: usize, stretch: &mut Stretch|
        requires { IsRoom room × IsBegun stretch.now }
        ensures { IsTried (H.text shared.entry.now) room stretch.entry.now stretch.exit.now }
    {
        let border = stretch.border;
        stretch.span = match read_stretch(alloc, shared, room, border, &mut stretch.reading) {
            Ok(span) => span,
            Err(_) => None,
        };
    };
    let threads = stretches.len().max(1);
    thread::for_each_mut(rt, stretches, threads, &read);
}
