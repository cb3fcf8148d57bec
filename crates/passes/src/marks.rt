//! The marks of a log, between which it is read in pieces.

ghost use Rattle.std.specs.Prelude.{◌≡◌, ◌⊎◌, ◌+◌, ◌-◌, ◌*◌, ◌^◌, ◌<◌, ◌≤◌, ◌∷◌, [], ◌++◌, drop, length, slice_index_or, IfOk, OnOk, OnErr, IsOkUnless, IsTrue};
ghost use Rattle.page.specs.declared.fault.Fault.TheVariants.{NoResource};
ghost use Rattle.wal.specs.declared.sizes.TheConstants.{HEADER_BYTES, SMALLEST_FRAME};
ghost use Rattle.pieces.specs.declared.mark.Mark.{Mark};
ghost use Rattle.passes.specs.Marks.{IsLow, IsNotBelow, IsWithinOf, AreWithin, lsn_at, IsMarkAmong, IsFirstAmong, IsLastAmong};

use page::Fault;
use pieces::Mark;
use std::alloc::Global;
use std::marker::Model;
use wal::LARGEST_BASE;

/// How many records there are at most between the first mark of a log and its last.
const MOST_RECORDS: u64 = 1 << 59;

/// Whether a mark is low enough to read the log after it.
pub fn is_low(mark: Mark) -> bool
    ensures { IsTrue result → IsLow mark }
{
    mark.lsn <= LARGEST_BASE && mark.offset <= LARGEST_BASE
}

/// The marks of a log, in ascending order of LSN. The first mark is before the first record, the
/// last mark after the last record. Contracts see the list.
#[derive(Drop)]
pub struct Marks {
    list: Vec<Mark>,
}

impl Model for Marks {
    ghost use Rattle.std.specs.Prelude.{List};
    ghost use Rattle.pieces.specs.declared.mark.Mark.{Mark};
    ghost use Rattle.passes.specs.Marks.{AreWithin};

    ghost Value = { List Mark };

    ghost view = { λ marks. marks.list.items };

    ghost invariant = { λ marks. AreWithin marks.list.items };
}

impl Marks {
    /// The list of the first mark only.
    ///
    /// The only error is `NoResource`: memory was refused, or the mark's LSN or its offset is above
    /// 2^63 - 1.
    pub fn begin(alloc: Global, first: Mark) -> Result<Marks, Fault>
        ensures first { IfOk result (λ marks. marks ≡ first ∷ []) }
        ensures err { IsOkUnless result NoResource }
    {
        if !is_low(first) {
            return Err(Fault::NoResource);
        }
        let mut list = Vec::new(alloc);
        list.push(first)?;
        Ok(Marks { list })
    }

    /// The first mark.
    pub fn first(&self) -> Mark
        ensures first { (d : Mark) → result ≡ slice_index_or self.now 0 d }
        ensures base { IsFirstAmong self.now result }
        ensures low { IsLow result }
    {
        self.list[0]
    }

    /// The last mark.
    pub fn end(&self) -> Mark
        ensures end { (d : Mark) → result ≡ slice_index_or self.now (length self.now - 1) d }
        ensures some { 0 < length self.now }
        ensures is_mark { IsMarkAmong self.now result }
        ensures last { IsLastAmong self.now result }
        ensures low { IsLow result }
    {
        self.list[self.list.len() - 1]
    }

    /// Adds a mark after the last one.
    ///
    /// The only error is `NoResource`: memory was refused, or the mark's LSN or its offset is above
    /// 2^63 - 1, or its LSN is below that of the last mark, or more than 2^59 above that of the
    /// first. The list is then as before.
    pub fn push(&mut self, mark: Mark) -> Result<(), Fault>
        ensures pushed { OnOk result (self.new ≡ self.old ++ mark ∷ []) }
        ensures low { OnOk result (IsLow mark) }
        ensures rises { OnOk result (IsNotBelow self.old mark) }
        ensures near { OnOk result (IsWithinOf (2 ^ 59) self.old mark) }
        ensures unchanged { OnErr result (self.new ≡ self.old) }
        ensures err { IsOkUnless result NoResource }
    {
        let base = self.first().lsn;
        if !is_low(mark) || mark.lsn < self.end().lsn || mark.lsn - base > MOST_RECORDS {
            return Err(Fault::NoResource);
        }
        self.list.push(mark)?;
        Ok(())
    }

    /// Adds the marks of a later list after its first, which is the last of these.
    ///
    /// The only error is `NoResource`, as [`push`](Marks::push) has it. Some of the marks are added
    /// then.
    pub fn append(&mut self, later: &Marks) -> Result<(), Fault>
        ensures appended { OnOk result (self.new ≡ self.old ++ drop 1 later.now) }
        ensures some { 0 < length later.now }
        ensures err { IsOkUnless result NoResource }
    {
        for place in 1..later.len() {
            self.push(later.at(place))?;
        }
        Ok(())
    }

    /// How many records are between the first mark and the last.
    pub fn count(&self) -> u64
        ensures count { (d : Mark) → lsn_at self.now 0 d + result
            ≡ lsn_at self.now (length self.now - 1) d }
        ensures few { HEADER_BYTES + SMALLEST_FRAME * result < 2 ^ 63 }
    {
        self.list[self.list.len() - 1].lsn - self.list[0].lsn
    }

    /// How many marks there are.
    pub fn len(&self) -> usize
        ensures len { result ≡ length self.now }
        ensures within { AreWithin self.now }
    {
        self.list.len()
    }

    /// The mark at a place.
    pub fn at(&self, place: usize) -> Mark
        requires { place < length self.now }
        ensures at { (d : Mark) → result ≡ slice_index_or self.now place d }
        ensures is_mark { IsMarkAmong self.now result }
        ensures low { IsLow result }
    {
        self.list[place]
    }

    /// The place of the last mark before the record at an LSN; 0 if there is none before it. This
    /// is a binary search.
    pub fn place_before(&self, lsn: u64) -> usize
        ensures within { result < length self.now }
        ensures before { (d : Mark) → (result ≡ 0) ⊎ (lsn_at self.now result d < lsn) }
        ensures next { (d : Mark) → result + 1 < length self.now
            → lsn ≤ lsn_at self.now (result + 1) d }
    {
        let mut place = 0;
        let mut above = self.list.len();
        while above - place > 1 {
            let middle = place + (above - place) / 2;
            if self.list[middle].lsn < lsn {
                place = middle;
            } else {
                above = middle;
            }
        }
        place
    }
}
