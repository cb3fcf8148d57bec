//! The tests of redo.
#![tactic(auto)]

#[cfg(test)]
mod tests;
