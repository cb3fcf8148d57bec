//! A pass: what looks at the records of a log, one after another.

ghost use Rattle.std.specs.Prelude.{ℕ, ◌+◌, ◌<◌, ◌^◌, IfErr, OnOk, IsTrue};
ghost use Rattle.page.specs.declared.fault.Fault.{Fault};
ghost use Rattle.page.specs.declared.fault.Fault.TheVariants.{NoResource};
ghost use Rattle.log_laws.specs.Records.{LogContent};
ghost use Rattle.passes.specs.Pieces.{HasNextRecord, NeedsNoMore, PassesRecord, StopsAtRecord};

use page::Fault;
use wal::Glance;

/// What looks at the records of a log in their order: analysis or redo.
///
/// Contracts see what it has done between two moments, given the whole log, the log before the first
/// record that it took between them, and the log up to the last one.
pub trait Pass {
    /// The next record may come after this LSN.
    ghost is_ready: { Self → (lsn : ℕ) → Type 0 };

    /// It has taken what is between the two logs.
    ghost passes: { (old new : Self) (whole before after : LogContent) → Type 0 };

    /// What a record leaves as it was.
    ghost keeps: { (old new : Self) → Type 0 };

    /// It has this fault at a record that comes after the log before.
    ghost stops: { Self → (whole before : LogContent) → Fault → Type 0 };

    /// It can have this fault, whatever the log is.
    ghost may_stop: { Fault → Type 0 };

    /// Before the first record it has taken nothing, and with more records it has taken both.
    ghost begins: { (scan : Self) (whole before : LogContent)
        → passes scan scan whole before before };

    ghost goes_on: { (old now new : Self) (whole before between after : LogContent)
        → passes old now whole before between → passes now new whole between after
        → passes old new whole before after };

    /// All records leave what each of them leaves.
    ghost begins_same: { (scan : Self) → keeps scan scan };

    ghost stays_same: { (old now new : Self) → keeps old now → keeps now new → keeps old new };

    /// A fault after some records is one of the pass over all of them, and so is a lack of memory.
    ghost stops_later: { (old now : Self) (whole before between : LogContent) (e : Fault)
        → passes old now whole before between → stops now whole between e
        → stops old whole before e };

    ghost stops_for_memory: { (scan : Self) (whole before : LogContent)
        → stops scan whole before NoResource };

    /// Looks at the record after an LSN, given at a glance and by its body. After an error the pass
    /// cannot go on.
    fn look_at(&mut self, lsn: u64, glance: Glance, body: &[u8]) -> Result<(), Fault>
        requires ready { is_ready self.old lsn }
        requires room { lsn + 1 < 2 ^ 64 }
        requires next { HasNextRecord lsn glance body.now }
        ensures ready { OnOk result (is_ready self.new (lsn + 1)) }
        ensures keeps { OnOk result (keeps self.old self.new) }
        ensures passed { OnOk result (PassesRecord passes self.old self.new lsn glance body.now) }
        ensures fault { IfErr result (StopsAtRecord stops self.old lsn glance body.now) }
        ensures named { IfErr result may_stop };

    /// Whether no more records are needed.
    fn is_done(&self) -> bool
        ensures { IsTrue result → NeedsNoMore passes self.now };
}
