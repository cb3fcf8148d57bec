//! The tests of the crates that read a log and change no page: reading and writing a log, by one
//! thread and by several, the tables that analysis finds in it, and its audit.
#![tactic(auto)]

#[cfg(test)]
mod tests;
