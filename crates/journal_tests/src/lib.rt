//! The tests of the journal: cases worked by hand, and the code of README.
#![tactic(auto)]

#[cfg(test)]
mod tests;
