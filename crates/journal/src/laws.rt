//! Laws of the journal. Each function is a law: what it ensures follows from the definitions only.

ghost use Rattle.journal.specs.JournalState.{FramesAreLog};
ghost use Rattle.journal.specs.Theorems.{ArchiveReopens, CrashIsLawful, CrashRecovers, RestartReopens};
ghost use Rattle.journal.specs.Files.{FileReads};
ghost use Rattle.journal.specs.Lives.{LivesSurvive};
ghost use Rattle.journal.specs.Rollbacks.{CanRollBack, JournalCanRollBack};
ghost use Rattle.journal.specs.Traces.{EngineSurvives, CheckpointMayBeMaster, ForcedFileReads, CurrentMayBeWritten, EarlierMayBeWritten, SyncedMayBeMaster};

/// What a crash at any moment leaves on the disk is lawful.
pub fn crash_is_lawful()
    ensures { CrashIsLawful }
{}

/// A log file that ends at any byte after what the journal was opened with reads as the log up to
/// some LSN, and a torn tail.
pub fn file_reads()
    ensures { FileReads }
{}

/// After a crash at any moment, a recovery leaves exactly the effects of the committed transactions
/// and of those in doubt.
pub fn crash_recovers()
    ensures { CrashRecovers }
{}

/// A journal can be opened with what a restart left, if its LSNs are in range.
pub fn restart_reopens()
    ensures { RestartReopens }
{}

/// A journal can be opened with what an archive leaves, and with what is there between its steps. A
/// recovery of the new log changes no page.
pub fn archive_reopens()
    ensures { ArchiveReopens }
{}

/// An engine that keeps the rules may stop at any moment. Then a recovery leaves exactly the
/// effects of the committed transactions and of those in doubt, and a transaction whose commit was
/// forced is committed.
pub fn engine_survives()
    ensures { EngineSurvives }
{}

/// The newest image of a page may be written when the log is on the disk up to its PageLSN.
pub fn current_may_be_written()
    ensures { CurrentMayBeWritten }
{}

/// A log file of an engine that ends at any byte after what was forced reads as the log up to an
/// LSN that is not below what was forced, and a torn tail.
pub fn forced_file_reads()
    ensures { ForcedFileReads }
{}

/// A checkpoint that the journal took may become the master when its end record was forced, and no
/// page on the disk can be older than an image that was reported before its begin record.
pub fn checkpoint_may_be_master()
    ensures { CheckpointMayBeMaster }
{}

/// After any number of stops and recoveries an engine may stop again: what it leaves is lawful, and
/// each transaction whose commit was ever forced is committed.
pub fn lives_survive()
    ensures { LivesSurvive }
{}

/// An image that was the newest of its page at an earlier moment may still be written, if no newer
/// image was reported and the log is on the disk up to its PageLSN.
pub fn earlier_may_be_written()
    ensures { EarlierMayBeWritten }
{}

/// A checkpoint may become the master when the store was synced after its begin record and its end
/// record was forced. The engine must write the images of a page in their order, and report only
/// what it has written.
pub fn synced_may_be_master()
    ensures { SyncedMayBeMaster }
{}

/// A transaction that is unfinished and not prepared can be rolled back, where there is an LSN for
/// the CLR of each of its pending updates and for its end.
pub fn can_roll_back()
    ensures { CanRollBack }
{}

/// A journal always has the LSNs for the rollback of such a transaction.
pub fn journal_can_roll_back()
    ensures { JournalCanRollBack }
{}

/// The frames that a journal has are the bytes of its log after those that were taken.
pub fn frames_are_log()
    ensures { FramesAreLog }
{}
