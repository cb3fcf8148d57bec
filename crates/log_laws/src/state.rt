//! The state of a transaction.

/// The state of a transaction in a transaction table.
#[derive(Clone, Copy, Debug, PartialEq, Eq)]
pub enum State {
    /// It is working.
    Active,
    /// It has asked to be rolled back.
    Aborting,
    /// It has prepared to commit, and waits for the decision (two-phase commit). A restart leaves
    /// it in doubt: its changes stay, and it is listed.
    Prepared,
}
