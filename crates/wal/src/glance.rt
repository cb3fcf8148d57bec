//! What is seen of a record at a glance: its transaction, and the cell that it is in.

ghost use Rattle.std.specs.Prelude.{◌≡◌, Some};
ghost use Rattle.log_laws.specs.Records.{LogRecord};
ghost use Rattle.log_laws.specs.Meaning.{cell_of};
ghost use Rattle.wal.specs.Glances.{glance_of, update_glance, compensation_glance, fields_glance, body_glance};

use crate::field::{plain_at, slot_at, u32_at, u64_at};

/// A record without its images, its tables and its PrevLSN.
#[derive(Clone, Copy)]
pub enum Glance {
    /// A transaction changed a slot of a page.
    Update {
        tx: u32,
        page: u32,
        slot: u8,
    },
    /// An update was undone. Undo continues at `undo_next`.
    Compensation {
        tx: u32,
        page: u32,
        slot: u8,
        undo_next: u64,
    },
    /// A transaction has committed.
    Commit {
        tx: u32,
    },
    /// A transaction asked to be rolled back.
    Abort {
        tx: u32,
    },
    /// A transaction has ended.
    End {
        tx: u32,
    },
    /// A transaction has prepared to commit.
    Prepare {
        tx: u32,
    },
    /// A checkpoint began or ended.
    Checkpoint,
}

impl Glance {
    /// The page and the slot of the cell that the record puts an image into; `None` for a record
    /// that changes no cell.
    #[inline(always)]
    pub fn cell(&self) -> Option<(u32, u8)>
        ensures { (r : LogRecord) → self.now ≡ glance_of r → result ≡ cell_of r }
    {
        match self {
            Glance::Update { page, slot, .. } => Some((*page, *slot)),
            Glance::Compensation { page, slot, .. } => Some((*page, *slot)),
            Glance::Commit { .. } => None,
            Glance::Abort { .. } => None,
            Glance::End { .. } => None,
            Glance::Prepare { .. } => None,
            Glance::Checkpoint => None,
        }
    }
}

/// What a glance at the fields of an update shows: the images are not looked at.
#[inline(always)]
#[tactic(auto, unfolding(crate::specs::Glances::update_glance))]
fn update_glance(bytes: &[u8]) -> Option<Glance>
    ensures { result ≡ update_glance bytes.now }
{
    let (tx, _, rest) = plain_at(bytes)?;
    let (page, rest) = u32_at(rest)?;
    let (slot, _) = slot_at(rest)?;
    Some(Glance::Update { tx, page, slot })
}

/// What a glance at the fields of a CLR shows: the image is not looked at.
#[inline(always)]
#[tactic(auto, unfolding(crate::specs::Glances::compensation_glance))]
fn compensation_glance(bytes: &[u8]) -> Option<Glance>
    ensures { result ≡ compensation_glance bytes.now }
{
    let (tx, _, rest) = plain_at(bytes)?;
    let (page, rest) = u32_at(rest)?;
    let (slot, rest) = slot_at(rest)?;
    let (undo_next, _) = u64_at(rest)?;
    Some(Glance::Compensation {
        tx,
        page,
        slot,
        undo_next,
    })
}

/// What a glance at the fields of a record of this kind shows.
#[inline(always)]
#[tactic(auto, unfolding(crate::specs::Glances::fields_glance, crate::specs::Glances::plain_glance))]
fn fields_glance(kind: u8, bytes: &[u8]) -> Option<Glance>
    ensures { result ≡ fields_glance kind bytes.now }
{
    match kind {
        1 => update_glance(bytes),
        2 => compensation_glance(bytes),
        3 => {
            let (tx, _, _) = plain_at(bytes)?;
            Some(Glance::Commit { tx })
        }
        4 => {
            let (tx, _, _) = plain_at(bytes)?;
            Some(Glance::Abort { tx })
        }
        5 => {
            let (tx, _, _) = plain_at(bytes)?;
            Some(Glance::End { tx })
        }
        8 => {
            let (tx, _, _) = plain_at(bytes)?;
            Some(Glance::Prepare { tx })
        }
        _ => Some(Glance::Checkpoint),
    }
}

/// The record with this body, at a glance.
#[inline(always)]
#[tactic(auto, unfolding(crate::specs::Glances::body_glance))]
pub fn body_glance(bytes: &[u8]) -> Option<Glance>
    ensures { result ≡ body_glance bytes.now }
{
    match bytes {
        [] => None,
        [kind, rest @ ..] => {
            let (_, rest) = u64_at(rest)?;
            fields_glance(*kind, rest)
        }
    }
}
