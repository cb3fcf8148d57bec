//! A page.

ghost use Rattle.std.specs.Prelude.{◌≡◌, ◌<◌, None, slice_get, slice_set, replicate, Some};
ghost use Rattle.page.specs.declared.profile.TheConstants.{SLOTS};

use crate::Value;
use crate::profile::SLOTS;

/// A page: [`SLOTS`] slots, each absent or a value.
#[derive(Clone, Copy)]
pub struct Page {
    /// The page's number, from 0.
    pub number: u32,
    /// PageLSN: the LSN of the record of the latest update in the page, 0 if there is none.
    pub lsn: u64,
    /// What the slots hold, `None` for an absent slot.
    pub slots: [Option<Value>; SLOTS],
}

impl Page {
    /// The empty page of this number: PageLSN 0 and all slots absent.
    pub fn empty(number: u32) -> Page
        ensures { result ≡ record { number = number; lsn = 0; slots = replicate SLOTS None } }
    {
        Page {
            number,
            lsn: 0,
            slots: [None; SLOTS],
        }
    }

    /// What slot `i` holds.
    pub fn slot(&self, i: usize) -> Option<Value>
        requires { i < SLOTS }
        ensures { slice_get self.now.slots i ≡ Some result }
    {
        self.slots[i]
    }

    /// Puts a value into slot `i`, or makes it absent, as the record at this LSN did. The PageLSN
    /// becomes this LSN.
    pub fn set(&mut self, i: usize, value: Option<Value>, lsn: u64)
        requires { i < SLOTS }
        ensures { self.new
            ≡ record self.old { lsn = lsn; slots = slice_set self.old.slots i value } }
    {
        self.slots[i] = value;
        self.lsn = lsn;
    }
}
