//! The tests of undo, and of a restart on values.
#![tactic(auto)]

#[cfg(test)]
mod tests;
