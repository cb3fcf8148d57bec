//! The tests of the journal by random crashes.
#![tactic(auto)]

#[cfg(test)]
mod tests;
