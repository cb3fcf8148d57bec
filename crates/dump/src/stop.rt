//! What ends a listing before its end.

ghost use Rattle.std.specs.Prelude.{◌≡◌};
ghost use Rattle.page.specs.declared.fault.Fault.TheVariants.{NoResource};
ghost use Rattle.dump.specs.declared.stop.Stop.TheVariants as stop;

use page::Fault;
use std::alloc::AllocError;
use std::io;

/// What ends a listing before its end.
#[derive(Debug, Drop)]
pub enum Stop {
    /// The file is damaged, or memory was refused.
    Fault(Fault),
    /// A line could not be printed.
    Print(io::Error),
}

impl From<AllocError> for Stop {
    ghost from_gives = { λ _ e. e ≡ stop.Fault NoResource };

    fn from(_error: AllocError) -> Stop {
        Stop::Fault(Fault::NoResource)
    }
}

impl From<Fault> for Stop {
    ghost from_gives = { λ fault e. e ≡ stop.Fault fault };

    fn from(fault: Fault) -> Stop {
        Stop::Fault(fault)
    }
}

impl From<io::Error> for Stop {
    ghost from_gives = { λ error e. e ≡ stop.Print error };

    fn from(error: io::Error) -> Stop {
        Stop::Print(error)
    }
}
