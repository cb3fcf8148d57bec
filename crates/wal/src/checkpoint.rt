//! The checkpoint that a master names.

ghost use Rattle.std.specs.Prelude.{◌≡◌, ◌≤◌, option_map, IfSome};
ghost use Rattle.log_laws.specs.Records.{CheckpointEnd, history, base_lsn};
ghost use Rattle.wal.specs.Spelling.{Fits};
ghost use Rattle.log_laws.specs.Checkpoint.{first_end, checkpoint_at};

use crate::log::Log;
use crate::view::{DirtyTable, RecordView, TransactionTable};

impl<'a> Log<'a> {
    /// The tables of the first checkpoint end after the LSN `master` that names `master`.
    fn checkpoint_end(&self, master: u64) -> Option<(TransactionTable<'a>, DirtyTable<'a>)>
        requires { base_lsn (history self.now) ≤ master }
        ensures found { option_map (λ x. (x.0, x.1)) result ≡ first_end master (history self.now) }
        ensures fits { IfSome result (λ x. Fits (CheckpointEnd master x.0 x.1)) }
    {
        for lsn in master..self.last() {
            if let RecordView::CheckpointEnd {
                begin,
                transactions,
                dirty,
            } = self.after(lsn)
            {
                if begin == master {
                    return Some((transactions, dirty));
                }
            }
        }
        None
    }

    /// The tables of the checkpoint whose begin record has the LSN `master`: those of the first
    /// later checkpoint end that names it. `None` if the record there is not a checkpoint begin, or
    /// if no later end names it. The entries stay in the log's bytes, and no memory is taken.
    pub fn checkpoint(&self, master: u64) -> Option<(TransactionTable<'a>, DirtyTable<'a>)>
        ensures tables { option_map (λ x. (x.0, x.1)) result
            ≡ checkpoint_at master (history self.now) }
        ensures fits { IfSome result (λ x. Fits (CheckpointEnd master x.0 x.1)) }
    {
        match self.get(master) {
            Some(RecordView::CheckpointBegin) => self.checkpoint_end(master),
            _ => None,
        }
    }
}
