//! The tests of recovery over devices, and of its gate.
#![tactic(auto)]

#[cfg(test)]
mod in_memory;
#[cfg(test)]
mod tests;
