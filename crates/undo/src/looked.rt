//! A log that undo looks at by LSN: all of its records in memory, or only those that were gathered.

ghost use Rattle.std.specs.Prelude.{◌≡◌, ◌+◌, ◌*◌, ◌<◌, ◌≤◌, ◌^◌, length, option_map, IfSome};
ghost use Rattle.wal.specs.Content.{shown};
ghost use Rattle.log_laws.specs.Records.{history, record_at, last_lsn, base_lsn};
ghost use Rattle.wal.specs.Spelling.{Fits};
ghost use Rattle.wal.specs.declared.sizes.TheConstants.{HEADER_BYTES, LARGEST_BASE, SMALLEST_FRAME};

use crate::gathered::Gathered;
use std::marker::Model;
use wal::{Log, RecordView};

/// Where the records are.
#[derive(Clone, Copy)]
pub enum Place<'a> {
    /// All of them are in a log.
    Log(&'a Log<'a>),
    /// Those that undo looks at were gathered.
    Gathered(&'a Gathered),
}

/// A log that undo looks at. Contracts see its content.
#[derive(Drop)]
pub struct Looked<'a> {
    /// Where its records are.
    pub place: Place<'a>,
}

impl<'a> Model for Looked<'a> {
    ghost use Rattle.log_laws.specs.Records.{LogContent};
    ghost use Rattle.undo.specs.Looked.{looked_at};

    ghost Value = { LogContent };

    ghost view = { λ looked. looked_at looked.place };
}

impl<'a> Looked<'a> {
    /// How many records the log has.
    pub fn len(&self) -> u64
        ensures { result ≡ length self.now.records }
    {
        match self.place {
            Place::Log(log) => log.len(),
            Place::Gathered(gathered) => gathered.len(),
        }
    }

    /// The LSN of the record that would follow the last one. There is room for many more LSNs, as
    /// [`Log::next_lsn`](wal::Log::next_lsn) says.
    pub fn next_lsn(&self) -> u64
        ensures next { result ≡ last_lsn (history self.now) + 1 }
        ensures low { base_lsn (history self.now) ≤ LARGEST_BASE }
        ensures room { HEADER_BYTES + SMALLEST_FRAME * length self.now.records < 2 ^ 63 }
    {
        match self.place {
            Place::Log(log) => log.next_lsn(),
            Place::Gathered(gathered) => gathered.next_lsn(),
        }
    }

    /// The record at an LSN. `None` if the LSN is not above the base LSN, or is above the last one.
    /// It takes no memory.
    #[inline(always)]
    pub fn get(&self, lsn: u64) -> Option<RecordView<'a>>
        ensures found { option_map shown result ≡ record_at (history self.now) lsn }
        ensures fits { IfSome result (λ view. Fits (shown view)) }
    {
        match self.place {
            Place::Log(log) => log.get(lsn),
            Place::Gathered(gathered) => gathered.get(lsn),
        }
    }
}
