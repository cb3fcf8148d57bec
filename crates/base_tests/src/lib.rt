//! The tests of the crates that read no log: pages, their faults and their changes, boards
//! that hand out numbers, devices.
#![tactic(auto)]

#[cfg(test)]
mod tests;
