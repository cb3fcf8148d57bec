//! The PageLSNs of a store whose bytes come piece by piece.

ghost use Rattle.std.specs.Prelude.{◌≡◌, ◌-◌, ◌%◌, ◌≤◌, ◌++◌, IfOk, IfErr, MatchResult, length};
ghost use Rattle.std.specs.Vec.{vec_capacity};
ghost use Rattle.page.specs.Store.{StoreContent};
ghost use Rattle.page.specs.File.{SpellsStore, StoreFault};
ghost use Rattle.page.specs.declared.profile.TheConstants.{PAGES, PAGE_BYTES};
ghost use Rattle.page.specs.declared.sizes.TheConstants.{STORE_HEADER_BYTES};
ghost use Rattle.page.specs.Lsns.{AreLsnsOf, SpellsLsns, ReadsLsns};

use crate::Fault;
use crate::came::Came;
use crate::file::header_at;
use crate::image::lsn_at;
use crate::profile::PAGE_BYTES;
use crate::sizes::STORE_HEADER_BYTES;
use std::alloc::Global;
use std::marker::Model;

/// Takes the PageLSNs of the pages whose images follow each other here. The first image is that of
/// page `lsns.len()`. It stops at the page count and before a bad page. Returns whether a page was
/// bad before, or is now.
fn take_lsns(lsns: &mut Vec<u64>, count: u32, bad: bool, images: &[u8]) -> bool
    requires few { count ≤ PAGES }
    requires room { count ≤ vec_capacity lsns.old }
    ensures room { count ≤ vec_capacity lsns.new }
    ensures read { ReadsLsns images.now count lsns.old.items bad lsns.new.items result }
{
    if bad {
        return true;
    }
    if lsns.len() >= count as usize {
        return false;
    }
    let mut rest = images;
    while lsns.len() < count as usize {
        let Some((image, behind)) = rest.split_first_chunk::<PAGE_BYTES>() else {
            return false;
        };
        let Some(lsn) = lsn_at(image, lsns.len() as u32) else {
            return true;
        };
        lsns.push(lsn).unwrap();
        rest = behind;
    }
    false
}

/// The master and the PageLSNs of a store.
#[derive(Drop)]
pub struct StoreLsns {
    /// The LSN of the begin record of the checkpoint to restart from, 0 if there is none.
    pub master: u64,
    /// The PageLSN of each page.
    pub lsns: Vec<u64>,
}

/// Reads the PageLSNs of a store whose bytes come piece by piece. It keeps 8 bytes for each page.
/// Contracts see it as the bytes that have come.
#[derive(Drop)]
pub struct LsnReader {
    /// The page count in the header. 0 if the header is not that of a store, or if memory was
    /// refused.
    count: u32,
    /// The master in the header.
    master: u64,
    /// The PageLSNs of the pages read so far, with room for all.
    lsns: Vec<u64>,
    /// How many bytes have come, or the largest number if there are more.
    size: u64,
    /// Whether the image after the pages read so far has come and does not encode the page of its
    /// number.
    bad: bool,
    /// Whether memory for the PageLSNs was refused.
    refused: bool,
    /// The bytes that have come.
    came: Came,
}

impl Model for LsnReader {
    ghost use Rattle.std.specs.Prelude.{◌≤◌, ℕ, List};
    ghost use Rattle.std.specs.Vec.{vec_capacity};
    ghost use Rattle.page.specs.declared.profile.TheConstants.{PAGES};
    ghost use Rattle.page.specs.Lsns.{LsnsSoFar};

    ghost Value = { List ℕ };

    ghost view = { λ r. r.came.bytes };

    ghost invariant = { λ r. LsnsSoFar r.came.bytes r.count r.master r.lsns.items r.size r.bad r.refused
        × (r.count ≤ PAGES) × (r.count ≤ vec_capacity r.lsns) };
}

impl LsnReader {
    /// Begins with the first bytes of a store's file: the bytes of the header, or all bytes if
    /// there are fewer. This call takes the memory for the PageLSNs. If memory is refused, or the
    /// header is not that of a store, later bytes can still be taken; `finish` returns the error.
    pub fn begin(alloc: Global, header: &[u8]) -> LsnReader
        requires { length header.now ≤ STORE_HEADER_BYTES }
        ensures { result ≡ header.now }
    {
        let (count, master) = match header_at(header) {
            Some(numbers) => numbers,
            None => (0, 0),
        };
        let size = header.len() as u64;
        let came = Came::joined(&(&Came::new(), header));
        let Ok(lsns) = Vec::with_capacity(alloc, count as usize) else {
            return LsnReader {
                count: 0,
                master,
                lsns: Vec::new(alloc),
                size,
                bad: false,
                refused: true,
                came,
            };
        };
        LsnReader {
            count,
            master,
            lsns,
            size,
            bad: false,
            refused: false,
            came,
        }
    }

    /// Takes the bytes that follow those taken so far. Together they are a header and whole images:
    /// only the last piece may end inside an image.
    pub fn take(&mut self, images: &[u8])
        requires header { STORE_HEADER_BYTES ≤ length self.old }
        requires whole { (length self.old - STORE_HEADER_BYTES) % PAGE_BYTES ≡ 0 }
        ensures { self.new ≡ self.old ++ images.now }
    {
        self.bad = take_lsns(&mut self.lsns, self.count, self.bad, images);
        self.size = self.size.saturating_add(images.len() as u64);
        self.came = Came::joined(&(&self.came, images));
    }

    /// The master and the PageLSNs of the store that the bytes encode, after all bytes have come.
    /// Otherwise the error is the first of these that holds: `BadStoreHeader`, `StoreSize`,
    /// `BadPage` of the lowest page whose image does not encode the page of its number. Or it is
    /// `NoResource`, if memory was refused.
    pub fn finish(self) -> Result<StoreLsns, Fault>
        ensures found { IfOk result (SpellsLsns self) }
        ensures only { (store : StoreContent) → SpellsStore self store
            → MatchResult result (AreLsnsOf store) (λ e. e ≡ Fault.NoResource) }
        ensures fault { IfErr result (StoreFault self) }
    {
        let LsnReader {
            count,
            master,
            lsns,
            size,
            bad,
            refused,
            came: _,
        } = self;
        if refused {
            return Err(Fault::NoResource);
        }
        if count == 0 {
            return Err(Fault::BadStoreHeader);
        }
        if size != (STORE_HEADER_BYTES + PAGE_BYTES * count as usize) as u64 {
            return Err(Fault::StoreSize);
        }
        if bad {
            return Err(Fault::BadPage(lsns.len() as u32));
        }
        Ok(StoreLsns { master, lsns })
    }
}
