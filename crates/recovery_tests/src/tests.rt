//! Recovery over devices, and its gate.

mod devices;
mod gate;
mod long_logs;
mod recoveries;
mod workers;
