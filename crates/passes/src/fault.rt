//! Why a pass over a log stops before its end.

ghost use Rattle.std.specs.Prelude.{◌≡◌};
ghost use Rattle.passes.specs.declared.fault.PassFault.TheVariants as fault;

use page::Fault;

/// Why a pass over a log stops before its end.
#[derive(Clone, Copy, Debug, PartialEq, Eq)]
pub enum PassFault {
    /// The source failed.
    Failed,
    /// Memory was refused; the log or the store has this fault; a frame does not fit in the room;
    /// or the source no longer holds what it held when its marks were made.
    Fault(Fault),
}

impl From<device::Failed> for PassFault {
    ghost from_gives = { λ _ e. e ≡ fault.Failed };

    fn from(_failed: device::Failed) -> PassFault {
        PassFault::Failed
    }
}

impl From<Fault> for PassFault {
    ghost from_gives = { λ x e. e ≡ fault.Fault x };

    fn from(fault: Fault) -> PassFault {
        PassFault::Fault(fault)
    }
}
