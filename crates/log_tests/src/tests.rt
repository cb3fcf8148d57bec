//! The tables of analysis, the verdicts of an audit, the texts of logs, logs that several threads read; and records for
//! them.

mod analysed;
mod parts;
mod passing;
mod records;
mod stretches;
mod texts;
mod verdicts;
