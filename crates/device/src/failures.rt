//! A count of failures that only contracts see.

ghost use Rattle.std.specs.Prelude.{◌≡◌, ℕ, ◌+◌};
ghost use Rattle.std.specs.Borrow.{ftrue};

use std::marker::Model;

/// How often a device has failed: `count` in clauses. It takes no memory, and its calls do nothing
/// when the program runs. So the count has no maximum either.
#[derive(Drop)]
pub struct Failures {
    pub ghost count: { ℕ },
}

impl Model for Failures {
    ghost also_owns = { λ _. ftrue };
}

impl Failures {
    /// No failures yet.
    pub fn new() -> Failures
        ensures { result.count ≡ 0 }
    {
        Failures {}
    }

    /// The count after one more failure.
    fn risen(&self) -> Failures
        ensures { result.count ≡ self.now.count + 1 }
    {
        Failures {}
    }

    /// Counts one more failure.
    pub fn rise(&mut self)
        ensures { self.new.count ≡ self.old.count + 1 }
    {
        *self = self.risen();
    }
}
