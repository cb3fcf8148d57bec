//! The finished transactions: half a byte each, and 1 to 3 bytes with the index, if their numbers are
//! close together.

ghost use Rattle.std.specs.Prelude.{◌≡◌, ◌==◌, ◌/◌, ◌%◌, ◌++◌, ◌∷◌, [], ℕ, Some, None, OnOk, OnErr, IfOk, IsOkUnless, if◌then◌else◌};
ghost use Rattle.page.specs.declared.fault.Fault.TheVariants.{NoResource};
ghost use Rattle.audit.specs.declared.finish_table.TheConstants.{BLOCK};
ghost use Rattle.audit.specs.Finishes.{IsNoted};
ghost use Rattle.audit.specs.Finished.{finish_in, place_of, empty_block, AreDistinct, IsIndexOf};

use crate::block_index::BlockIndex;
use crate::finishes::Finishes;
use crate::standing::Finish;
use page::Fault;
use std::alloc::Global;
use std::marker::Model;

/// How many transactions a block holds.
pub const BLOCK: usize = 16;

/// How many buckets the first index has.
const FIRST_BUCKETS: usize = 8;

/// How many blocks a bucket of an index has on average when the index grows.
const FULL: usize = 4;

/// How many times as many buckets the index has after that.
const GROWTH: usize = 4;

/// How 16 transactions with neighbouring numbers have finished, in 8 bytes.
#[derive(Clone, Copy)]
pub struct Block {
    /// Their numbers divided by 16.
    pub number: u32,
    /// How each has finished; its place is the last four bits of its number.
    pub finishes: Finishes,
}

/// How each finished transaction has finished. They are in blocks of 16 with neighbouring numbers:
/// engines count their transactions, so blocks are full. Contracts see the list of the blocks.
#[derive(Drop)]
pub struct FinishTable {
    /// In the order of their first finish.
    blocks: Vec<Block>,
    /// The place of each block, by its number.
    index: BlockIndex,
    /// The place of the block that was used last; any number before the first.
    newest: usize,
}

impl Model for FinishTable {
    ghost use Rattle.std.specs.Prelude.{List};
    ghost use Rattle.audit.specs.declared.finish_table.Block.{Block};
    ghost use Rattle.audit.specs.Finished.{AreDistinct, IsIndexOf};

    ghost Value = { List Block };

    ghost view = { λ t. t.blocks.items };

    ghost invariant = { λ t. AreDistinct t.blocks.items × IsIndexOf t.blocks.items t.index };
}

/// Notes in its block how a transaction has finished.
#[inline(always)]
fn put(block: &mut Block, tx: u32, finish: Finish)
    ensures number { block.new.number ≡ block.old.number }
    ensures noted { IsNoted block.old.finishes (tx % BLOCK) finish block.new.finishes }
{
    block.finishes = block.finishes.with_finish(tx % BLOCK as u32, finish);
}

/// A place as an index keeps it. The only error is `NoResource`, if the place is too large for an
/// index.
fn index_place(place: usize) -> Result<u32, Fault>
    ensures ok { IfOk result (λ p. p ≡ place) }
    ensures err { IsOkUnless result NoResource }
{
    u32::try_from(place).map_err(|_| Fault::NoResource)
}

/// An index of the blocks with `count` buckets. The only error is `NoResource`.
fn index_of(alloc: Global, blocks: &[Block], count: usize) -> Result<BlockIndex, Fault>
    requires { AreDistinct blocks.now }
    ensures ok { IfOk result (λ index. IsIndexOf blocks.now index) }
    ensures err { IsOkUnless result NoResource }
{
    let mut index = BlockIndex::with_buckets(alloc, count)?;
    for place in 0..blocks.len() {
        index.insert(blocks[place].number, index_place(place)?)?;
    }
    Ok(index)
}

/// Makes an index of the blocks larger if there are four blocks a bucket or more. The only error is
/// `NoResource`.
fn make_room(blocks: &Vec<Block>, index: &mut BlockIndex) -> Result<(), Fault>
    requires distinct { AreDistinct blocks.now.items }
    requires index { IsIndexOf blocks.now.items index.old }
    ensures index { IsIndexOf blocks.now.items index.new }
    ensures err { IsOkUnless result NoResource }
{
    let count = index.tags.len();
    if blocks.len() / FULL >= count {
        let more = count.saturating_mul(GROWTH).max(FIRST_BUCKETS);
        *index = index_of(*blocks.allocator(), blocks, more)?;
    }
    Ok(())
}

/// Appends a block in which no transaction has finished. The only error is `NoResource`, and then
/// the blocks are unchanged.
fn push_block(blocks: &mut Vec<Block>, number: u32) -> Result<(), Fault>
    ensures ok { OnOk result (blocks.new.items ≡ blocks.old.items ++ empty_block number ∷ []) }
    ensures unchanged { OnErr result (blocks.new.items ≡ blocks.old.items) }
    ensures err { IsOkUnless result NoResource }
{
    blocks.push(Block {
        number,
        finishes: Finishes::none(),
    })?;
    Ok(())
}

/// Appends a block in which no transaction has finished, and puts it into the index. The only error
/// is `NoResource`, and then the blocks are unchanged.
fn add_block(blocks: &mut Vec<Block>, index: &mut BlockIndex, number: u32) -> Result<(), Fault>
    requires distinct { AreDistinct blocks.old.items }
    requires index { IsIndexOf blocks.old.items index.old }
    requires new { place_of blocks.old.items number ≡ None }
    ensures ok { OnOk result (blocks.new.items ≡ blocks.old.items ++ empty_block number ∷ []) }
    ensures unchanged { OnErr result (blocks.new.items ≡ blocks.old.items) }
    ensures index { IsIndexOf blocks.new.items index.new }
    ensures err { IsOkUnless result NoResource }
{
    let count = blocks.len();
    let place = index_place(count)?;
    push_block(blocks, number)?;
    if let Err(fault) = index.insert(number, place) {
        blocks.truncate(count);
        return Err(fault);
    }
    Ok(())
}

impl FinishTable {
    /// A table in which no transaction has finished.
    pub fn new(alloc: Global) -> FinishTable
        ensures { (t : ℕ) → finish_in result t ≡ None }
    {
        FinishTable {
            blocks: Vec::new(alloc),
            index: BlockIndex::new(alloc),
            newest: 0,
        }
    }

    /// The place of the block with a number, None if there is none. The block that was used last is
    /// tried first.
    #[inline(always)]
    fn find(&self, number: u32) -> Option<usize>
        ensures { result ≡ place_of self.now number }
    {
        if let Some(block) = self.blocks.get(self.newest) {
            if block.number == number {
                return Some(self.newest);
            }
        }
        match self.index.get(&self.blocks, number) {
            Some(place) => Some(place as usize),
            None => None,
        }
    }

    /// How a transaction has finished, None if it has not.
    pub fn get(&self, tx: u32) -> Option<Finish>
        ensures { result ≡ finish_in self.now tx }
    {
        match self.find(tx / BLOCK as u32) {
            Some(place) => self.blocks[place].finishes.get(tx % BLOCK as u32),
            None => None,
        }
    }

    /// Adds a block with a number that no block has, and returns its place. The only error is
    /// `NoResource`.
    fn add(&mut self, number: u32) -> Result<usize, Fault>
        requires new { place_of self.old number ≡ None }
        ensures place { IfOk result (λ place. place_of self.new number ≡ Some place) }
        ensures same { OnOk result ((t : ℕ) → finish_in self.new t ≡ finish_in self.old t) }
        ensures err { IsOkUnless result NoResource }
    {
        make_room(&self.blocks, &mut self.index)?;
        let place = self.blocks.len();
        add_block(&mut self.blocks, &mut self.index, number)?;
        Ok(place)
    }

    /// The place of the block with a number; a new block is added if there is none. The only error
    /// is `NoResource`.
    fn find_or_add(&mut self, number: u32) -> Result<usize, Fault>
        ensures place { IfOk result (λ place. place_of self.new number ≡ Some place) }
        ensures same { OnOk result ((t : ℕ) → finish_in self.new t ≡ finish_in self.old t) }
        ensures err { IsOkUnless result NoResource }
    {
        match self.find(number) {
            Some(place) => Ok(place),
            None => self.add(number),
        }
    }

    /// Notes how a transaction has finished. The only error is `NoResource`.
    pub fn note(&mut self, tx: u32, finish: Finish) -> Result<(), Fault>
        ensures ok { OnOk result ((t : ℕ) → finish_in self.new t
            ≡ (if tx == t then Some finish else finish_in self.old t)) }
        ensures err { IsOkUnless result NoResource }
    {
        let place = self.find_or_add(tx / BLOCK as u32)?;
        self.newest = place;
        put(&mut self.blocks[place], tx, finish);
        Ok(())
    }
}
