//! Laws of logs. Each function is a law: what it ensures follows from the definitions only.

ghost use Rattle.log_laws.specs.Theorems.{LawfulByRecord, HopsMeetPending, ReplayIsWinners, TailSettles, LosersEnd, CutsResume, RedoReplays, RedoSuffices, UndoIsTail, TableTellsDoubt, StoreSettles, RestartGoesOn};

/// A log is lawful if and only if each record obeys the laws after the records before it.
pub fn lawful_by_record()
    ensures { LawfulByRecord }
{}

/// In a lawful log, the hops of a transaction from its undo-next meet its pending updates, the
/// newest first, and none of the hops is bad.
pub fn hops_meet_pending()
    ensures { HopsMeetPending }
{}

/// A replay of a lawful log and its tail gives what the winners leave.
pub fn replay_is_winners()
    ensures { ReplayIsWinners }
{}

/// A lawful log with its tail is lawful, has no loser and no tail, and has the same transactions in
/// doubt and the same winners.
pub fn tail_settles()
    ensures { TailSettles }
{}

/// In the tail of a lawful log as many transactions end as there are losers.
pub fn losers_end()
    ensures { LosersEnd }
{}

/// A lawful log that was cut within its tail is lawful, and its tail completes it to the same log.
pub fn cuts_resume()
    ensures { CutsResume }
{}

/// If redo of a page that keeps the page law skips nothing, the page becomes what the log makes of
/// it.
pub fn redo_replays()
    ensures { RedoReplays }
{}

/// For a lawful log and its store: if the dirty page table and redo_lsn reach all that the pages
/// lack, redo makes each page what the log makes of it.
pub fn redo_suffices()
    ensures { RedoSuffices }
{}

/// Undo of a lawful log, by the losers of the true table, appends the tail, and no hop is bad.
pub fn undo_is_tail()
    ensures { UndoIsTail }
{}

/// In the true table of a log, the prepared transactions are those in doubt, and the others are the
/// losers.
pub fn table_tells_doubt()
    ensures { TableTellsDoubt }
{}

/// What a restart leaves is lawful, and a further restart leaves the store as it is.
pub fn store_settles()
    ensures { StoreSettles }
{}

/// What an interrupted restart leaves is lawful, and a further restart continues to the same log
/// and the same store.
pub fn restart_goes_on()
    ensures { RestartGoesOn }
{}
