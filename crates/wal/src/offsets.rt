//! Offsets of frames.

ghost use Rattle.std.specs.Prelude.{◌≡◌, ◌<◌, ◌++◌, ◌∷◌, [], ℕ, List, length, slice_index_or, OnOk, IsOkUnless};
ghost use Rattle.page.specs.declared.fault.Fault.TheVariants.{NoResource};

use page::Fault;
use std::alloc::Global;
use std::marker::Model;

/// How many bytes a frame is expected to have when room is made.
const USUAL_FRAME: usize = 32;

/// Offsets in some bytes, in order: 4 bytes each until the first offset past 4 GiB, 8 bytes each
/// from there on. Contracts see the list of them.
#[derive(Drop)]
pub struct Offsets {
    short: Vec<u32>,
    long: Vec<usize>,
}

impl Model for Offsets {
    ghost Value = { List ℕ };

    ghost view = { λ s. s.short.items ++ s.long.items };
}

impl Offsets {
    /// No offsets, with room for one offset of 4 bytes for each 32 of this many bytes, up to 4 GiB.
    /// If so much memory is refused, there is no room, and memory is taken as offsets come.
    pub fn with_room(alloc: Global, bytes: usize) -> Offsets
        ensures { result ≡ [] }
    {
        Offsets {
            short: room_for(alloc, bytes.min(1 << 32) / USUAL_FRAME),
            long: Vec::new(alloc),
        }
    }

    /// How many there are.
    pub fn len(&self) -> usize
        ensures { result ≡ length self.now }
    {
        self.short.len() + self.long.len()
    }

    /// The one at an index.
    #[inline]
    pub fn get(&self, index: usize) -> usize
        requires { index < length self.now }
        ensures { result ≡ slice_index_or self.now index result }
    {
        let short = self.short.len();
        if index < short {
            self.short[index] as usize
        } else {
            self.long[index - short]
        }
    }

    /// Appends an offset. The only error is `NoResource`.
    #[inline(always)]
    pub fn push(&mut self, offset: usize) -> Result<(), Fault>
        ensures ok { OnOk result (self.new ≡ self.old ++ offset ∷ []) }
        ensures err { IsOkUnless result NoResource }
    {
        if self.long.is_empty() && offset < 1 << 32 {
            self.short.push(offset as u32)?;
        } else {
            self.long.push(offset)?;
        }
        Ok(())
    }

    /// Appends other offsets. If there are none yet, the others are taken over without a copy. The
    /// only error is `NoResource`.
    pub fn append(&mut self, others: Offsets) -> Result<(), Fault>
        ensures ok { OnOk result (self.new ≡ self.old ++ others) }
        ensures err { IsOkUnless result NoResource }
    {
        if self.short.is_empty() && self.long.is_empty() {
            *self = others;
            return Ok(());
        }
        let Offsets {
            mut short,
            mut long,
        } = others;
        if self.long.is_empty() {
            self.short.append(&mut short)?;
        } else {
            append_long(&mut self.long, &short)?;
        }
        self.long.append(&mut long)?;
        Ok(())
    }
}

/// No offsets, with room for this many short ones, if memory for them is not refused.
fn room_for(alloc: Global, count: usize) -> Vec<u32>
    ensures { result.items ≡ [] }
{
    match Vec::with_capacity(alloc, count) {
        Ok(room) => room,
        Err(_) => Vec::new(alloc),
    }
}

/// Appends short offsets to long ones. The only error is `NoResource`.
fn append_long(long: &mut Vec<usize>, short: &[u32]) -> Result<(), Fault>
    ensures ok { OnOk result (long.new.items ≡ long.old.items ++ short.now) }
    ensures err { IsOkUnless result NoResource }
{
    for offset in short {
        long.push(*offset as usize)?;
    }
    Ok(())
}
