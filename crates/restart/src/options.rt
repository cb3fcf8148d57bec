//! The options of a recovery.

ghost use Rattle.std.specs.Prelude.{OnOk, IfErr};
ghost use Rattle.restart.specs.Options.{AreInRange, OptionsFault};
ghost use Rattle.restart.specs.Results.{IsErrWhen};

use page::Fault;
use redo::{Parting, are_workers};

/// The options of a restart. What it writes does not depend on them.
#[derive(Clone, Copy, Debug, PartialEq, Eq)]
pub struct Options {
    /// How many threads redo the pages, 1 to [`redo::WORKERS`].
    pub workers: u32,
    /// Into how many parts the pages are divided, 1 to [`redo::PARTS`]: page p goes to part p
    /// modulo parts.
    pub parts: u32,
}

/// Returns an error for options out of their ranges: [`Fault::BadWorkers`] if `workers` is, then
/// [`Fault::BadParting`] if `parts` is.
pub fn check_options(options: &Options) -> Result<(), Fault>
    ensures ok { OnOk result (AreInRange options.now) }
    ensures fault { IfErr result (OptionsFault options.now) }
    ensures refused { IsErrWhen result (OptionsFault options.now) }
{
    if !are_workers(options.workers) {
        return Err(Fault::BadWorkers);
    }
    if !Parting::can_have_parts(options.parts) {
        return Err(Fault::BadParting);
    }
    Ok(())
}
