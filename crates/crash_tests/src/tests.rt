//! An engine that works at random over a journal, its disk, and its crashes.

mod crashes;
mod disk;
mod engine;
mod model;
