//! The bytes of a log that are kept.

ghost use Rattle.std.specs.Prelude.{◌≡◌, ◌≤◌, ◌++◌, ℕ, List, length, OnOk, OnErr};
ghost use Rattle.std.specs.Io.KnownBytes.{Keeps};
ghost use Rattle.device.specs.Failures.{Counts};
ghost use Rattle.recovery.specs.LogText.{kept_of};
ghost use Rattle.recovery.specs.Calls.{Took, Began};

use crate::log_text::LogText;
use crate::recovery::Remade;
use device::{Failed, Sink, write_all};
use std::marker::Model;

/// The bytes of a log, or the first of them, borrowed in the two parts in which they are in memory.
/// Contracts see all of them, one part after the other.
#[derive(Drop)]
pub struct LogBytes<'a> {
    front: &'a [u8],
    back: &'a [u8],
}

impl<'a> Model for LogBytes<'a> {
    ghost Value = { List ℕ };

    ghost view = { λ bytes. bytes.front.now ++ bytes.back.now };
}

impl<'a> LogBytes<'a> {
    /// The bytes without the torn tail of the log from which this was made.
    pub fn kept_of(text: &'a LogText, remade: &Remade) -> LogBytes<'a>
        requires { text.now.from ≤ length text.now.back.items }
        ensures { result ≡ kept_of text.now remade.now.report.torn }
    {
        let torn = remade.report.torn as usize;
        let (_, back) = text.back.split_at(text.from);
        let torn_in_front = text.front.len().min(torn.saturating_sub(back.len()));
        let (front, _) = text.front.split_at(text.front.len() - torn_in_front);
        let (back, _) = back.split_at(back.len().saturating_sub(torn));
        LogBytes { front, back }
    }

    /// Writes all of them to a sink, after those that it took before. The sink is not flushed.
    pub fn write<S: Sink>(&self, sink: &mut S) -> Result<(), Failed>
        ensures all { OnOk result (Took S.Sink sink.old sink.new self.now) }
        ensures cause { Counts (S.failures sink.old) (S.failures sink.new) result }
        ensures beginning { OnErr result (Began S.Sink sink.old sink.new self.now) }
        ensures unflushed { Keeps (S.flushed sink.old) (S.flushed sink.new) }
    {
        write_all(sink, self.front)?;
        write_all(sink, self.back)
    }
}
