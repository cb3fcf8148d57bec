//! How the pages are divided into parts.

ghost use Rattle.std.specs.Prelude.{◌≡◌, ◌+◌, ◌%◌, ◌<◌, ◌≤◌, ◌∷◌, All, length, IfOk, IfErr, IfSome, OnOk, Some, IsTrue, ◌↔◌, IsOkUnless};
ghost use Rattle.std.specs.List.{slice_get};
ghost use Rattle.page.specs.declared.fault.Fault.TheVariants.{NoResource};
ghost use Rattle.redo.specs.Parting.{ArePages, AreParts, IsDealt, PartingFault, AreMembers, AreLists, by_number, NumberFault};
ghost use Rattle.page.specs.declared.profile.TheConstants.{PAGES};

use crate::lists::{empty_lists, len_at, push_to};
use page::{CellNumber, Fault, PAGES};
use std::alloc::Global;
use std::marker::Model;

/// How many parts a partition has at most.
pub const PARTS: u32 = board::PARTS;

/// Which part each page of a store belongs to: 1 to [`page::PAGES`] pages in 1 to [`PARTS`] parts.
/// The pages of one part are redone by one worker. Contracts see how many parts there are, the part
/// of each page, and each page's place among those of its part.
#[derive(Drop)]
pub struct Parting {
    parts: u32,
    part_of: Vec<u32>,
    place_of: Vec<CellNumber>,
    members: Vec<Vec<u32>>,
}

impl Model for Parting {
    ghost use Rattle.redo.specs.Parting.{PartingContent, parting_of, IsParting};

    ghost Value = { PartingContent };

    ghost view = { parting_of };

    ghost invariant = { IsParting };
}

/// Whether each page is given a part below the count.
fn are_below(parts: u32, part_of: &[u32]) -> bool
    ensures { IsTrue result ↔ All (λ part. part < parts) part_of.now }
{
    part_of.iter().all(|part| *part < parts)
}

/// The pages of each part, and each page's place among them.
fn index(
    alloc: Global,
    parts: u32,
    part_of: &[u32],
) -> Result<(Vec<CellNumber>, Vec<Vec<u32>>), Fault>
    requires { IsDealt (length part_of.now) parts part_of.now }
    ensures places { IfOk result (λ x. length x.0.items ≡ length part_of.now) }
    ensures count { IfOk result (λ x. length x.1.items ≡ parts) }
    ensures lists { IfOk result (λ x. AreLists part_of.now x.0.items x.1.items) }
    ensures low { IfOk result (λ x. All (λ place. place < PAGES) x.0.items) }
    ensures err { IsOkUnless result NoResource }
{
    let mut place_of = Vec::new(alloc);
    let mut members = empty_lists(alloc, parts as usize)?;
    for page in 0..part_of.len() {
        let part = part_of[page] as usize;
        let place = len_at(&members, part);
        place_of.push(place as CellNumber)?;
        push_to(&mut members, part, page as u32)?;
    }
    Ok((place_of, members))
}

impl Parting {
    /// Whether a partition can have this number of pages: 1 to [`page::PAGES`].
    pub fn can_have_pages(count: u32) -> bool
        ensures { IsTrue result ↔ ArePages count }
    {
        (1..=PAGES as u32).contains(&count)
    }

    /// Whether a partition can have this number of parts: 1 to [`PARTS`].
    pub fn can_have_parts(count: u32) -> bool
        ensures { IsTrue result ↔ AreParts count }
    {
        (1..=PARTS).contains(&count)
    }

    /// The partition of `pages` pages into `parts` parts that gives page p the part `part_of[p]`.
    ///
    /// Errors: [`Fault::BadParting`] if `pages` is outside 1 to [`page::PAGES`] or `parts` outside
    /// 1 to [`PARTS`], if there is not one entry for each page, or if an entry is not below
    /// `parts`; [`Fault::NoResource`] if memory was refused.
    pub fn new(alloc: Global, pages: u32, parts: u32, part_of: &[u32]) -> Result<Parting, Fault>
        ensures ok { IfOk result (λ p. (p.parts ≡ parts) × (p.part_of ≡ part_of.now)) }
        ensures dealt { OnOk result (IsDealt pages parts part_of.now) }
        ensures fault { IfErr result (PartingFault pages parts part_of.now) }
    {
        if !Parting::can_have_pages(pages) || !Parting::can_have_parts(parts) {
            return Err(Fault::BadParting);
        }
        if part_of.len() != pages as usize || !are_below(parts, part_of) {
            return Err(Fault::BadParting);
        }
        let (place_of, members) = index(alloc, parts, part_of)?;
        Ok(Parting {
            parts,
            part_of: Vec::from_slice(alloc, part_of)?,
            place_of,
            members,
        })
    }

    /// The partition that gives page p the part p modulo `parts`.
    ///
    /// Errors: [`Fault::BadParting`] if `pages` is outside 1 to [`page::PAGES`] or `parts` outside
    /// 1 to [`PARTS`]; [`Fault::NoResource`] if memory was refused.
    pub fn by_number(alloc: Global, pages: u32, parts: u32) -> Result<Parting, Fault>
        ensures ok { IfOk result (λ p. (p.parts ≡ parts) × (p.part_of ≡ by_number pages parts)) }
        ensures sizes { OnOk result (ArePages pages × AreParts parts) }
        ensures fault { IfErr result (NumberFault pages parts) }
    {
        if !Parting::can_have_pages(pages) || !Parting::can_have_parts(parts) {
            return Err(Fault::BadParting);
        }
        let mut part_of = Vec::new(alloc);
        for page in 0..pages {
            part_of.push(page % parts)?;
        }
        Parting::new(alloc, pages, parts, &part_of)
    }

    /// How many pages there are.
    pub fn pages(&self) -> u32
        ensures { result ≡ length self.now.part_of }
    {
        self.part_of.len() as u32
    }

    /// How many parts there are.
    pub fn parts(&self) -> u32
        ensures parts { result ≡ self.now.parts }
        ensures few { AreParts result }
        ensures below { All (λ part. part < self.now.parts) self.now.part_of }
    {
        self.parts
    }

    /// The part of a page, None if there is no such page.
    pub(crate) fn part_at(&self, page: u32) -> Option<u32>
        ensures part { result ≡ slice_get self.now.part_of page }
        ensures below { IfSome result (λ part. part < self.now.parts) }
        ensures all { length self.now.place_of ≡ length self.now.part_of }
    {
        self.part_of.get(page as usize).copied()
    }

    /// A page's place among those of its part.
    pub(crate) fn place_of(&self, page: u32) -> CellNumber
        requires { page < length self.now.place_of }
        ensures place { slice_get self.now.place_of page ≡ Some result }
        ensures low { result < PAGES }
    {
        self.place_of[page as usize]
    }

    /// The pages of a part, each at its place.
    pub(crate) fn members(&self, part: u32) -> &[u32]
        requires { part < self.now.parts }
        ensures members { AreMembers self.now.part_of self.now.place_of part result.now }
        ensures all { length self.now.place_of ≡ length self.now.part_of }
    {
        &self.members[part as usize]
    }
}
