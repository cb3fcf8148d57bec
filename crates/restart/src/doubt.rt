//! The transactions in doubt, which a restart leaves as they are and reports.

ghost use Rattle.std.specs.Prelude.{◌≡◌, IfOk, IsOkUnless};
ghost use Rattle.page.specs.declared.fault.Fault.TheVariants.{NoResource};
ghost use Rattle.log_laws.specs.Undo.{is_prepared, doubtful_in};
ghost use Rattle.restart.specs.Restart.{AreAllButLosers};

use page::Fault;
use std::alloc::Global;
use tables::Tables;
use wal::State;

/// Whether a transaction in this state is in doubt.
fn is_prepared(state: State) -> bool
    ensures { result ≡ is_prepared state }
{
    match state {
        State::Active => false,
        State::Aborting => false,
        State::Prepared => true,
    }
}

/// The numbers of the transactions that the tables have as prepared, in ascending order. The only
/// error is [`Fault::NoResource`], if memory was refused.
pub fn in_doubt(alloc: Global, tables: &Tables) -> Result<Vec<u32>, Fault>
    ensures ok { IfOk result (λ x. x.items ≡ doubtful_in tables.now.transactions) }
    ensures others { IfOk result (λ x. AreAllButLosers tables.now x.items) }
    ensures err { IsOkUnless result NoResource }
{
    let mut numbers = Vec::new(alloc);
    for (tx, entry) in &tables.transactions {
        if is_prepared(entry.state) {
            numbers.push(*tx)?;
        }
    }
    Ok(numbers)
}
