//! What undo appends, in compact form: a CLR is given by the LSN of the update that it compensates.

ghost use Rattle.std.specs.Prelude.{◌≡◌, ℕ, length, map, IfOk, IsOkUnless};
ghost use Rattle.page.specs.declared.fault.Fault.TheVariants.{NoResource};
ghost use Rattle.log_laws.specs.Records.{history};
ghost use Rattle.wal.specs.Content.{content};
ghost use Rattle.wal.specs.Spelling.{Fits, frame};
ghost use Rattle.undo.specs.Appended.{HasUpdate, HaveUpdates, record_of, full_records};

use crate::looked::Looked;
use page::Fault;
use std::alloc::Global;
use wal::{Record, RecordView, value_of};

/// A record that undo appends, in compact form: what else a CLR holds is in the log, in the update
/// that it compensates. It takes 24 bytes, since there may be many of them; a [`Record`] takes
/// more.
#[derive(Clone, Copy, Debug, PartialEq, Eq)]
pub enum Appended {
    /// The CLR of the update at the LSN `update`. `prev` is the LSN of the transaction's previous
    /// record.
    Compensation { update: u64, prev: u64 },
    /// A transaction has ended.
    End { tx: u32, prev: u64 },
}

/// How many bytes the frame of the full record takes.
#[inline]
pub fn frame_bytes_of(log: &Looked, appended: Appended) -> u64
    requires told { HasUpdate log.now appended }
    requires writable { Fits (record_of (history log.now) appended) }
    ensures { (lsn : ℕ) → result ≡ length (frame (record_of (history log.now) appended) lsn) }
{
    match appended {
        Appended::Compensation { update, prev } => {
            let Some(
                RecordView::Update {
                    tx,
                    prev: undo_next,
                    page,
                    slot,
                    before: image,
                    ..
                },
            ) = log.get(update)
            else {
                unreachable!()
            };
            let clr = RecordView::Compensation {
                tx,
                prev,
                page,
                slot,
                undo_next,
                image,
            };
            clr.frame_bytes()
        }
        Appended::End { tx, prev } => RecordView::End { tx, prev }.frame_bytes(),
    }
}

/// The full record, with what it holds.
pub fn record_of(log: &Looked, appended: Appended) -> Record
    requires { HasUpdate log.now appended }
    ensures { content result ≡ record_of (history log.now) appended }
{
    match appended {
        Appended::Compensation { update, prev } => {
            let Some(
                RecordView::Update {
                    tx,
                    prev: next,
                    page,
                    slot,
                    before,
                    ..
                },
            ) = log.get(update)
            else {
                unreachable!()
            };
            Record::Compensation {
                tx,
                prev,
                page,
                slot,
                undo_next: next,
                image: value_of(before),
            }
        }
        Appended::End { tx, prev } => Record::End { tx, prev },
    }
}

/// The full records, with what they hold. The only error is [`Fault::NoResource`], if memory was
/// refused.
pub fn records_of(alloc: Global, log: &Looked, appended: &[Appended]) -> Result<Vec<Record>, Fault>
    requires { HaveUpdates log.now appended.now }
    ensures ok { IfOk result (λ x. map content x.items ≡ full_records log.now appended.now) }
    ensures err { IsOkUnless result NoResource }
{
    let mut records = Vec::with_capacity(alloc, appended.len())?;
    for entry in appended {
        records.push(record_of(log, *entry))?;
    }
    Ok(records)
}
