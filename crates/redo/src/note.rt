//! Notes: which record is in which cell of a part.

ghost use Rattle.std.specs.Prelude.{◌≡◌, ◌<◌, [], ◌∷◌, ◌++◌, length, slice_index_or, IfOk, OnOk, IsOkUnless};
ghost use Rattle.page.specs.declared.fault.Fault.TheVariants.{NoResource};
ghost use Rattle.page.specs.declared.profile.TheConstants.{PAGES, SLOTS};

use page::{CellNumber, Fault, SLOTS};
use std::alloc::Global;
use std::marker::Model;

/// The note of an update or a compensation: its LSN, the place of its page among those of the part,
/// and its slot.
#[derive(Clone, Copy)]
pub struct Note {
    pub lsn: u64,
    pub place: CellNumber,
    pub slot: u8,
}

/// Notes in few bytes: besides its LSN each has a number for its cell, which is `SLOTS` times the
/// place, plus the slot. Contracts see the list of the notes.
#[derive(Drop)]
pub struct NoteList {
    lsns: Vec<u64>,
    cells: Vec<CellNumber>,
}

impl Model for NoteList {
    ghost use Rattle.std.specs.Prelude.{List};
    ghost use Rattle.redo.specs.declared.note.Note.{Note};

    ghost Value = { List Note };

    ghost use Rattle.redo.specs.Notes.{notes_in, AreNotes};

    ghost view = { notes_in };

    ghost invariant = { AreNotes };
}

impl NoteList {
    /// An empty list, with room for this many notes. The only error is `NoResource`.
    pub fn with_capacity(alloc: Global, count: usize) -> Result<NoteList, Fault>
        ensures empty { IfOk result (λ notes. notes ≡ []) }
        ensures err { IsOkUnless result NoResource }
    {
        Ok(NoteList {
            lsns: Vec::with_capacity(alloc, count)?,
            cells: Vec::with_capacity(alloc, count)?,
        })
    }

    /// How many notes there are.
    pub fn len(&self) -> usize
        ensures { result ≡ length self.now }
    {
        self.lsns.len()
    }

    /// The note at an index.
    pub fn get(&self, index: usize) -> Note
        requires { index < length self.now }
        ensures { result ≡ slice_index_or self.now index result }
    {
        let cell = self.cells[index];
        Note {
            lsn: self.lsns[index],
            place: cell / SLOTS as CellNumber,
            slot: (cell % SLOTS as CellNumber) as u8,
        }
    }

    /// Adds a note after the others. The only error is `NoResource`.
    pub fn push(&mut self, note: Note) -> Result<(), Fault>
        requires place { note.place < PAGES }
        requires slot { note.slot < SLOTS }
        ensures ok { OnOk result (self.new ≡ self.old ++ note ∷ []) }
        ensures err { IsOkUnless result NoResource }
    {
        self.cells
            .push(SLOTS as CellNumber * note.place + note.slot as CellNumber)?;
        match self.lsns.push(note.lsn) {
            Ok(()) => Ok(()),
            Err(_) => {
                self.cells.pop();
                Err(Fault::NoResource)
            }
        }
    }
}
