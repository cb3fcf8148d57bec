//! Records as C reads and writes them.

ghost use Rattle.std.specs.Prelude.{◌≡◌, IfOk, IfErr, OnOk, OnErr};
ghost use Rattle.wal.specs.Spelling.{Fits};
ghost use Rattle.wal.specs.Content.{content, shown};
ghost use Rattle.aries_c.specs.Fault.{not_writable};
ghost use Rattle.aries_c.specs.Image.{NamesImage, NamesNoImage};
ghost use Rattle.aries_c.specs.Record.{Names, IsGivenWhole, IsWritable, NamesNoRecord};

use crate::Fault;
use journal::Image;
use page::Value;
use wal::RecordView;

/// A record of a log. Fields that its kind does not use are 0, and are not looked at.
#[repr(C)]
#[derive(Clone, Copy)]
pub struct Record {
    /// Its LSN, from 1.
    pub lsn: u64,
    /// PrevLSN: the LSN of its transaction's record before it, 0 if there is none.
    pub prev: u64,
    /// UndoNxtLSN of a CLR; for a checkpoint end the LSN of its begin record.
    pub next: u64,
    /// Its transaction, from 1.
    pub tx: u32,
    pub page: u32,
    /// 1 update, 2 CLR, 3 commit, 4 abort, 5 end, 6 checkpoint begin, 7 checkpoint end, 8 prepare.
    pub kind: u8,
    pub slot: u8,
    /// The before image of an update.
    pub before: Image,
    /// The after image of an update; the image of a CLR.
    pub after: Image,
}

/// The value that C gives; not writable if its length is above [`VALUE_BYTES`](page::VALUE_BYTES)
/// and not [`ABSENT`](wal::ABSENT).
fn value_of(image: &Image) -> Result<Option<Value>, Fault>
    ensures found { IfOk result (NamesImage image.now) }
    ensures err { IfErr result (λ e. e ≡ not_writable) }
    ensures only { OnErr result (NamesNoImage image.now) }
{
    if !image.is_valid() {
        return Err(Fault::not_writable());
    }
    Ok(image.value())
}

impl Record {
    /// A record of this kind with only its LSN.
    fn of_kind(lsn: u64, kind: u8) -> Record
        ensures lsn { result.lsn ≡ lsn }
        ensures kind { result.kind ≡ kind }
    {
        Record {
            lsn,
            prev: 0,
            next: 0,
            tx: 0,
            page: 0,
            kind,
            slot: 0,
            before: Image::absent(),
            after: Image::absent(),
        }
    }

    /// A record of this kind with only its transaction and the LSN of that transaction's record
    /// before it.
    fn plain(lsn: u64, kind: u8, tx: u32, prev: u64) -> Record
        ensures lsn { result.lsn ≡ lsn }
        ensures kind { result.kind ≡ kind }
        ensures tx { result.tx ≡ tx }
        ensures prev { result.prev ≡ prev }
    {
        Record {
            tx,
            prev,
            ..Record::of_kind(lsn, kind)
        }
    }

    /// This record of a log, for C.
    pub fn of(lsn: u64, view: &RecordView) -> Record
        requires { Fits (shown view.now) }
        ensures lsn { result.lsn ≡ lsn }
        ensures names { Names result (shown view.now) }
    {
        match view {
            RecordView::Update {
                tx,
                prev,
                page,
                slot,
                before,
                after,
            } => Record {
                page: *page,
                slot: *slot,
                before: Image::lent(*before),
                after: Image::lent(*after),
                ..Record::plain(lsn, 1, *tx, *prev)
            },
            RecordView::Compensation {
                tx,
                prev,
                page,
                slot,
                undo_next,
                image,
            } => Record {
                page: *page,
                slot: *slot,
                next: *undo_next,
                after: Image::lent(*image),
                ..Record::plain(lsn, 2, *tx, *prev)
            },
            RecordView::Commit { tx, prev } => Record::plain(lsn, 3, *tx, *prev),
            RecordView::Abort { tx, prev } => Record::plain(lsn, 4, *tx, *prev),
            RecordView::End { tx, prev } => Record::plain(lsn, 5, *tx, *prev),
            RecordView::CheckpointBegin => Record::of_kind(lsn, 6),
            RecordView::CheckpointEnd { begin, .. } => Record {
                next: *begin,
                ..Record::of_kind(lsn, 7)
            },
            RecordView::Prepare { tx, prev } => Record::plain(lsn, 8, *tx, *prev),
        }
    }

    /// The record that C gives, with or without an encoding. It is not writable if an image is not
    /// valid, for a checkpoint end, and for any other kind.
    fn named(&self) -> Result<wal::Record, Fault>
        ensures names { IfOk result (λ r. Names self.now (content r)) }
        ensures whole { IfOk result (λ r. IsGivenWhole (content r)) }
        ensures err { IfErr result (λ e. e ≡ not_writable) }
        ensures only { OnErr result (NamesNoRecord self.now) }
    {
        let tx = self.tx;
        let prev = self.prev;
        match self.kind {
            1 => Ok(wal::Record::Update {
                tx,
                prev,
                page: self.page,
                slot: self.slot,
                before: value_of(&self.before)?,
                after: value_of(&self.after)?,
            }),
            2 => Ok(wal::Record::Compensation {
                tx,
                prev,
                page: self.page,
                slot: self.slot,
                undo_next: self.next,
                image: value_of(&self.after)?,
            }),
            3 => Ok(wal::Record::Commit { tx, prev }),
            4 => Ok(wal::Record::Abort { tx, prev }),
            5 => Ok(wal::Record::End { tx, prev }),
            6 => Ok(wal::Record::CheckpointBegin),
            8 => Ok(wal::Record::Prepare { tx, prev }),
            _ => Err(Fault::not_writable()),
        }
    }

    /// The record that C gives, if it has an encoding.
    pub fn writable(&self) -> Result<wal::Record, Fault>
        ensures found { IfOk result (λ r. IsWritable self.now (content r)) }
        ensures err { IfErr result (λ e. e ≡ not_writable) }
        ensures only { OnErr result (NamesNoRecord self.now) }
    {
        with_spelling(self.named()?)
    }
}

/// This record, if it has an encoding.
pub fn with_spelling(logged: wal::Record) -> Result<wal::Record, Fault>
    ensures same { IfOk result (λ r. content r ≡ content logged) }
    ensures fits { OnOk result (Fits (content logged)) }
    ensures err { IfErr result (λ e. e ≡ not_writable) }
    ensures only { OnErr result (¬ Fits (content logged)) }
{
    if !logged.is_writable() {
        return Err(Fault::not_writable());
    }
    Ok(logged)
}
