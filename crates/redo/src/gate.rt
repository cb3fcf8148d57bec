//! The gate, which is called for each part before the work on it.

ghost use Rattle.std.specs.Prelude.{◌≡◌};

/// Called once for each part, by the worker that drew it, before the work on the part. Workers are
/// numbered from 0. What a gate does changes no page.
pub trait Gate: Sync {
    /// Called for a part, with the worker that drew it.
    fn enter(&self, worker: u32, part: u32);
}

/// A gate that does nothing.
pub struct OpenGate;

impl Gate for OpenGate {
    fn enter(&self, _worker: u32, _part: u32) {}
}

/// Shows that the gate was called for a part. Only that call makes one, and the work on the part
/// takes it. So the work comes after the call.
#[derive(Drop)]
pub(crate) struct Entered {
    part: u32,
}

impl Entered {
    /// The part.
    pub(crate) fn part(&self) -> u32
        ensures { result ≡ self.now.part }
    {
        self.part
    }
}

/// Calls the gate for a part that a worker drew.
pub(crate) fn pass_gate<G: Gate>(gate: &G, worker: u32, part: u32) -> Entered
    ensures { result.part ≡ part }
{
    gate.enter(worker, part);
    Entered { part }
}
