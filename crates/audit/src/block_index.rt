//! An index of blocks, by their numbers. No choice of numbers makes a search long: a block that does
//! not fit into its bucket is in a map that is kept in order.

ghost use Rattle.std.specs.Prelude.{◌≡◌, ◌≢◌, ◌<◌, ◌≤◌, ◌↔◌, ℕ, IsTrue, [], true, false, Some, OnOk, IfOk, IfSome, IfNone, IsOkUnless, length, slice_index_or, slice_set};
ghost use Rattle.std.specs.Ordering.{nat_cmp};
ghost use Rattle.std.specs.BTreeMap.{get};
ghost use Rattle.page.specs.declared.fault.Fault.TheVariants.{NoResource};
ghost use Rattle.audit.specs.Finished.{place_of, AreDistinct, IsIndexOf};
ghost use Rattle.audit.specs.BlockIndex.{hash_of, home_of, tag_of, has_at, tag_at, place_at, IsFree, IsFull, IsKept};

use crate::finish_table::Block;
use page::Fault;
use std::alloc::Global;
use std::collections::BTreeMap;

/// How many blocks a bucket has room for.
pub const ENTRIES: usize = 8;

/// The tag of an entry that is free.
pub const FREE: u8 = 0;

/// The factor that puts neighbouring numbers far apart: 2^32 divided by the golden ratio.
const FACTOR: u32 = 0x9E37_79B9;

/// The factor of the second round. With one round, numbers at equal distances may share buckets.
const SECOND_FACTOR: u32 = 0x85EB_CA6B;

/// Half of the bits of a number.
const HALF: u32 = 1 << 16;

/// The places of blocks. An entry is a block's tag, a byte of a hash of its number, and its place.
/// A search reads the tags first: eight of them are 8 bytes, and their places are 32. Entries are
/// filled from the front, so a bucket is full if its last entry is not free.
#[derive(Drop)]
pub struct BlockIndex {
    /// The tags of each bucket.
    pub tags: Vec<[u8; ENTRIES]>,
    /// The places of each bucket.
    pub places: Vec<[u32; ENTRIES]>,
    /// By their numbers, the blocks whose bucket is full, or that have no bucket.
    pub others: BTreeMap<u32, u32>,
}

/// A hash of a number. Between two products, the upper half and the lower half change places.
#[inline(always)]
fn hash(number: u32) -> u32
    ensures { result ≡ hash_of number }
{
    let first = number.wrapping_mul(FACTOR);
    (first % HALF * HALF + first / HALF).wrapping_mul(SECOND_FACTOR)
}

/// The bucket of a hash, if there are this many buckets.
#[inline(always)]
fn home(hash: u32, count: usize) -> usize
    ensures { result ≡ home_of hash count }
{
    (hash as usize).wrapping_mul(count) >> 32
}

/// The tag of a hash, which is never `FREE`.
#[inline(always)]
fn tag(hash: u32) -> u8
    ensures { result ≡ tag_of hash }
{
    ((hash % 256) as u8).max(1)
}

/// Whether a tag is one of eight. All of them are looked at, without a branch.
#[inline(always)]
fn is_among(tags: &[u8; ENTRIES], tag: u8) -> bool
    ensures { result ≡ false → (k d : ℕ) → k < 8 → slice_index_or tags.now k d ≢ tag }
{
    let mut found = false;
    for entry in 0..ENTRIES {
        found |= tags[entry] == tag;
    }
    found
}

/// Whether the block at a place has this number.
#[inline(always)]
fn has_at(blocks: &[Block], number: u32, place: u32) -> bool
    ensures { result ≡ has_at blocks.now number place }
{
    match blocks.get(place as usize) {
        Some(block) => block.number == number,
        None => false,
    }
}

/// The place of the block with this number, if it is in an entry with this tag.
fn search(
    blocks: &[Block],
    number: u32,
    tags: &[u8; ENTRIES],
    places: &[u32; ENTRIES],
    tag: u8,
) -> Option<u32>
    ensures found { IfSome result (λ p. has_at blocks.now number p ≡ true) }
    ensures none { IfNone result ((k d : ℕ) → k < 8 → slice_index_or tags.now k d ≡ tag
        → has_at blocks.now number (slice_index_or places.now k d) ≡ false) }
{
    for entry in 0..ENTRIES {
        if tags[entry] == tag && has_at(blocks, number, places[entry]) {
            return Some(places[entry]);
        }
    }
    None
}

/// The first free entry; `ENTRIES` if no entry is free.
fn first_free(tags: &[u8; ENTRIES]) -> usize
    ensures free { result < ENTRIES → (d : ℕ) → slice_index_or tags.now result d ≡ FREE }
    ensures full { ENTRIES ≤ result → (d : ℕ) → slice_index_or tags.now 7 d ≢ FREE }
{
    for entry in 0..ENTRIES {
        if tags[entry] == FREE {
            return entry;
        }
    }
    ENTRIES
}

/// Sets the tag of an entry.
fn put_tag(tags: &mut [u8; ENTRIES], entry: usize, tag: u8)
    requires { entry < ENTRIES }
    ensures count { length tags.old ≡ ENTRIES }
    ensures put { tags.new ≡ slice_set tags.old entry tag }
{
    tags[entry] = tag;
}

/// Sets the place of an entry.
fn put_place(places: &mut [u32; ENTRIES], entry: usize, place: u32)
    requires { entry < ENTRIES }
    ensures count { length places.old ≡ ENTRIES }
    ensures put { places.new ≡ slice_set places.old entry place }
{
    places[entry] = place;
}

impl BlockIndex {
    /// An index of no block.
    pub fn new(alloc: Global) -> BlockIndex
        ensures { IsIndexOf [] result }
    {
        BlockIndex {
            tags: Vec::new(alloc),
            places: Vec::new(alloc),
            others: BTreeMap::new(alloc),
        }
    }

    /// An index of no block, with this many buckets. The only error is `NoResource`.
    pub fn with_buckets(alloc: Global, count: usize) -> Result<BlockIndex, Fault>
        ensures ok { IfOk result (λ index. IsIndexOf [] index) }
        ensures err { IsOkUnless result NoResource }
    {
        let tags = vec![in alloc; [FREE; ENTRIES]; count]?;
        let places = vec![in alloc; [0; ENTRIES]; count]?;
        Ok(BlockIndex {
            tags,
            places,
            others: BTreeMap::new(alloc),
        })
    }

    /// The place of the block with this number, if it is among the others.
    fn other(&self, blocks: &[Block], number: u32) -> Option<u32>
        ensures found { IfSome result (λ p. has_at blocks.now number p ≡ true) }
        ensures none { IfNone result ((p : ℕ) → get nat_cmp self.now.others number ≡ Some p
            → has_at blocks.now number p ≡ false) }
    {
        match self.others.get(&number) {
            Some(place) if has_at(blocks, number, *place) => Some(*place),
            _ => None,
        }
    }

    /// The place of the block with this number, if it is in this bucket. Most numbers are new: then
    /// only the tags are read.
    #[inline(always)]
    fn in_bucket(&self, blocks: &[Block], number: u32, bucket: usize, tag: u8) -> Option<u32>
        requires bucket { bucket < length self.now.tags.items }
        requires sized { length self.now.places.items ≡ length self.now.tags.items }
        ensures found { IfSome result (λ p. has_at blocks.now number p ≡ true) }
        ensures none { IfNone result ((k : ℕ) → k < 8 → tag_at self.now bucket k ≡ tag
            → has_at blocks.now number (place_at self.now bucket k) ≡ false) }
    {
        let tags = &self.tags[bucket];
        if !is_among(tags, tag) {
            return None;
        }
        search(blocks, number, tags, &self.places[bucket], tag)
    }

    /// Whether the last entry of a bucket is free.
    fn has_room(&self, bucket: usize) -> bool
        requires { bucket < length self.now.tags.items }
        ensures { IsTrue result ↔ tag_at self.now bucket 7 ≡ FREE }
    {
        self.tags[bucket][ENTRIES - 1] == FREE
    }

    /// The place of the block with this number; None if no block has it.
    #[inline(always)]
    pub fn get(&self, blocks: &[Block], number: u32) -> Option<u32>
        requires distinct { AreDistinct blocks.now }
        requires index { IsIndexOf blocks.now self.now }
        ensures { result ≡ place_of blocks.now number }
    {
        let hash = hash(number);
        let home = home(hash, self.tags.len());
        if home < self.tags.len() {
            if let Some(place) = self.in_bucket(blocks, number, home, tag(hash)) {
                return Some(place);
            }
            if self.has_room(home) {
                return None;
            }
        }
        self.other(blocks, number)
    }

    /// The bucket of a hash, and the first free entry there. None if no entry is free, or if there is
    /// no bucket.
    fn free_entry(&self, hash: u32) -> Option<(usize, usize)>
        ensures free { IfSome result (IsFree self.now hash) }
        ensures full { IfNone result (IsFull self.now hash) }
    {
        let home = home(hash, self.tags.len());
        if home >= self.tags.len() {
            return None;
        }
        let entry = first_free(&self.tags[home]);
        if entry >= ENTRIES {
            return None;
        }
        Some((home, entry))
    }

    /// Notes the place of a block with a new number. The only error is `NoResource`. The other blocks
    /// keep their places, also after an error.
    pub fn insert(&mut self, number: u32, place: u32) -> Result<(), Fault>
        requires sized { length self.old.places.items ≡ length self.old.tags.items }
        ensures ok { OnOk result (IsKept self.new number place) }
        ensures others { (n p : ℕ) → n ≢ number → IsKept self.old n p → IsKept self.new n p }
        ensures sized { length self.new.places.items ≡ length self.new.tags.items }
        ensures err { IsOkUnless result NoResource }
    {
        let hash = hash(number);
        match self.free_entry(hash) {
            Some((home, entry)) => {
                put_tag(&mut self.tags[home], entry, tag(hash));
                put_place(&mut self.places[home], entry, place);
            }
            None => {
                self.others.insert(number, place)?;
            }
        }
        Ok(())
    }
}
