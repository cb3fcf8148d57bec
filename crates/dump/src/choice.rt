//! Which records are asked for.

ghost use Rattle.std.specs.Prelude.{◌≡◌};
ghost use Rattle.wal.specs.Content.{shown};
ghost use Rattle.dump.specs.Choice.{meets, is_asked_for};

use wal::RecordView;

/// Which records are asked for. A field that is `None` asks for nothing.
#[derive(Clone, Copy, Debug)]
pub struct Choice {
    /// The smallest LSN.
    pub from: u64,
    /// The largest LSN.
    pub to: u64,
    /// The records of this transaction.
    pub transaction: Option<u32>,
    /// The updates and CLRs of this page.
    pub page: Option<u32>,
}

/// Whether a number is the one that is asked for.
pub fn meets(asked: Option<u32>, number: Option<u32>) -> bool
    ensures { result ≡ meets asked number }
{
    match (asked, number) {
        (None, _) => true,
        (Some(_), None) => false,
        (Some(asked), Some(number)) => asked == number,
    }
}

impl Choice {
    /// Whether it asks for a record with this LSN.
    pub fn asks_for(&self, lsn: u64, view: &RecordView) -> bool
        ensures { result ≡ is_asked_for self.now lsn (shown view.now) }
    {
        let page = view.change().map(|change| change.page);
        self.from <= lsn
            && lsn <= self.to
            && meets(self.transaction, view.tx())
            && meets(self.page, page)
    }
}
