//! The body of a record as it is in the log, and what can be read from it.

ghost use Rattle.std.specs.Prelude.{◌≡◌, None, Some, IfSome, drop, option_map};
ghost use Rattle.wal.specs.Content.{shown};
ghost use Rattle.wal.specs.Frames.{IsPlace, frame_at};
ghost use Rattle.wal.specs.Glances.{glance_of};
ghost use Rattle.log_laws.specs.Meaning.{image_in};
ghost use Rattle.log_laws.specs.Records.{LogRecord};
ghost use Rattle.wal.specs.Spelling.{Fits};

use crate::frame::body_view;
use crate::glance::{Glance, body_glance};
use crate::image::body_image;
use crate::view::{RecordView, value_of};
use page::Value;
use std::marker::Model;

/// The body of a record as it is in the log, with nothing decoded; empty for a missing record.
/// Contracts see the record, if there is one.
#[derive(Drop)]
pub struct Body<'a> {
    bytes: &'a [u8],
}

impl<'a> Model for Body<'a> {
    ghost use Rattle.std.specs.Prelude.{Option, option_map};
    ghost use Rattle.log_laws.specs.Records.{LogRecord};
    ghost use Rattle.wal.specs.Reading.{body_at};
    ghost use Rattle.wal.specs.Frames.{IsBody};

    ghost Value = { Option LogRecord };

    ghost view = { λ b. option_map (λ x. x.0) (body_at b.bytes.now) };

    ghost invariant = { λ b. IsBody b.bytes.now };
}

impl<'a> Body<'a> {
    /// The body of no record.
    #[tactic(auto, unfolding(crate::specs::Reading::body_at))]
    pub(crate) fn none() -> Body<'a>
        ensures { result ≡ None }
    {
        Body { bytes: &[] }
    }

    /// The body of the frame at an offset.
    #[inline(always)]
    pub(crate) fn at(bytes: &'a [u8], offset: usize) -> Body<'a>
        requires { IsPlace bytes.now offset }
        ensures { result ≡ option_map (λ x. x.0) (frame_at (drop offset bytes.now)) }
    {
        let (front, rest) = bytes[offset..].split_at(4);
        let size = u32::from_be_bytes([front[0], front[1], front[2], front[3]]) as usize;
        Body {
            bytes: &rest[..size],
        }
    }

    /// The record, which takes no memory; `None` if there is none. What it shows fits the grammar.
    #[inline(always)]
    pub fn view(&self) -> Option<RecordView<'a>>
        ensures found { option_map shown result ≡ self.now }
        ensures fits { IfSome result (λ view. Fits (shown view)) }
    {
        body_view(self.bytes)
    }

    /// The record at a glance; `None` if there is none. Nothing else of the record is decoded.
    #[inline(always)]
    pub fn glance(&self) -> Option<Glance>
        ensures seen { result ≡ option_map glance_of self.now }
        ensures fits { (r : LogRecord) → self.now ≡ Some r → Fits r }
    {
        body_glance(self.bytes)
    }

    /// The image that the record put into its cell. `None` if the record made the slot absent, if
    /// it is in no cell, and if the record is missing. Nothing else of the record is decoded.
    pub fn image(&self) -> Option<Value>
        ensures { result ≡ image_in self.now }
    {
        if self.bytes.is_empty() {
            return None;
        }
        value_of(body_image(self.bytes))
    }
}
