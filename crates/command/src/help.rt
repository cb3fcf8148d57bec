//! The texts of `--help` besides the options, and the messages for wrong lines of `recover`.

/// The option `--verbose`.
pub(crate) const VERBOSE: &str =
    "Print on standard error how long each part took, and in which file a fault lies";

/// The program.
pub(crate) const ARIES: &str = "Statuses:\n  \
    0  success, or help or the version was asked for\n  \
    1  failure: `fault N: text` on standard error; without that line, printing failed\n  \
    2  wrong command line\n\
    \n\
    More: aries recover --help, aries(1), aries-formats(5)";

/// The three forms of the command `recover`.
pub(crate) const RECOVER_USAGE: &str =
    "aries recover [OPTIONS] --log <FILE> --store <FILE> --out-log <FILE> --out-store <FILE>\n       \
    aries recover [OPTIONS] --in-place --log <FILE> --store <FILE> --out-store <FILE>\n       \
    aries recover [OPTIONS] --in-place --log <FILE> --store <FILE> --replace";

/// The option `--out-log`.
pub(crate) const OUT_LOG: &str = "The new log; the file must not exist";

/// The option `--out-store`.
pub(crate) const OUT_STORE: &str = "The recovered store; the file must not exist";

/// The option `--in-place`.
pub(crate) const IN_PLACE: &str = "Continue the log file in place, instead of making a new log";

/// The option `--replace`.
pub(crate) const REPLACE: &str =
    "Put the recovered store in place of the old one; only with --in-place";

/// A line of `recover` that does not say where the new log goes.
pub(crate) const NO_LOG: &str = "'--out-log <FILE>' is needed, or '--in-place'";

/// A line of `recover` that makes a new log and replaces the store.
pub(crate) const REPLACE_ALONE: &str =
    "the argument '--replace' cannot be used without '--in-place'";

/// A line of `recover` that both continues the log and makes a new one.
pub(crate) const TWO_LOGS: &str =
    "the argument '--in-place' cannot be used with '--out-log <FILE>'";

/// A line of `recover` that does not say where the recovered store goes.
pub(crate) const NO_STORE: &str =
    "'--out-store <FILE>' is needed, or '--replace' with '--in-place'";

/// A line of `recover` that puts the recovered store in two places.
pub(crate) const TWO_STORES: &str =
    "the argument '--replace' cannot be used with '--out-store <FILE>'";

/// The command `recover`.
pub(crate) const RECOVER: &str = "Examples:\n  \
    aries recover --log log --store store --out-log new-log --out-store new-store\n  \
    aries recover --in-place --log log --store store --replace\n\
    \n\
    It prints eight lines:\n  \
    records      whole records of the log\n  \
    torn         bytes of an incomplete record at the log's end, which are dropped\n  \
    redo-from    the LSN at which redo began, 0 if it had no record to consider\n  \
    redone       records that redo applied\n  \
    losers       transactions that were rolled back\n  \
    compensated  compensation records appended\n  \
    ended        end records appended\n  \
    pages        pages of the store\n\
    If transactions are in doubt (prepared, neither committed nor aborted), it also prints\n\
    `in-doubt` with their count, and `transaction` with the number of each.\n\
    \n\
    Statuses:\n  \
    0  everything is written and synced; put the new files in place of the old ones, the log first\n  \
    1  failure: `fault N: text` on standard error; without that line, printing failed\n  \
    2  wrong command line\n\
    \n\
    For faults 2 to 5 the line before says which file and why. If `torn` is above 128, see TORN BYTES\n\
    in aries(1).\n\
    \n\
    Without --in-place the old files are never changed. Put the new ones in place only after status 0,\n\
    or after an audit of them. A run that failed may leave new files: empty, in part or whole. Remove\n\
    them, and run it again. Fault 4 or 5 at once usually means that such a file exists. After fault 1\n\
    the new files are empty, or whole if memory for the report was refused.\n\
    \n\
    With --in-place the log file is continued after its last whole record. With --replace the\n\
    recovered store then takes the place of the old one. Stop the engine first, and run it as the\n\
    owner of the files or as root. If the run is interrupted, run it again: the next run finishes what\n\
    was begun. If it refuses a file, the line before the fault says why; aries(1) says what to do.\n\
    \n\
    A folder that aries_files keeps recovers itself when it is opened. Run no recovery on it.";

/// The command `audit`.
pub(crate) const AUDIT: &str = "Example:\n  \
    aries audit --log log --store store\n\
    \n\
    It prints `lawful` if the log and the store keep the laws in aries-formats(5).\n\
    \n\
    Statuses:\n  \
    0  lawful\n  \
    1  not lawful, or not read: `fault N: text` on standard error; without that line, printing failed\n  \
    2  wrong command line";
