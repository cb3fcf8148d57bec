//! The image that a record put into its cell, without the rest of the record.

ghost use Rattle.std.specs.Prelude.{◌≡◌, true, is_some, option_map};
ghost use Rattle.log_laws.specs.Meaning.{image_in};
ghost use Rattle.wal.specs.Reading.{update_at, compensation_at, fields_at, body_at};

use crate::field::{image_at, plain_at, slot_at, u32_at, u64_at};

/// The image after an update, from its fields. `None` if the slot then has no value.
#[inline(always)]
#[tactic(auto, unfolding(crate::specs::Reading::update_at))]
fn update_image(bytes: &[u8]) -> Option<&[u8]>
    ensures { option_map (λ s. s.now) result
        ≡ image_in (option_map (λ x. x.0) (update_at bytes.now)) }
{
    let (_, _, rest) = plain_at(bytes)?;
    let (_, rest) = u32_at(rest)?;
    let (_, rest) = slot_at(rest)?;
    let (_, rest) = image_at(rest)?;
    let (after, _) = image_at(rest)?;
    after
}

/// The image of a CLR, from its fields. `None` if the slot then has no value.
#[inline(always)]
#[tactic(auto, unfolding(crate::specs::Reading::compensation_at))]
fn compensation_image(bytes: &[u8]) -> Option<&[u8]>
    ensures { option_map (λ s. s.now) result
        ≡ image_in (option_map (λ x. x.0) (compensation_at bytes.now)) }
{
    let (_, _, rest) = plain_at(bytes)?;
    let (_, rest) = u32_at(rest)?;
    let (_, rest) = slot_at(rest)?;
    let (_, rest) = u64_at(rest)?;
    let (image, _) = image_at(rest)?;
    image
}

/// The image that a record of this kind put into its cell, from its fields. `None` if the slot then
/// has no value, and if the record is in no cell.
#[inline(always)]
#[tactic(auto, using(crate::proofs::Images::others_put), unfolding(crate::specs::Reading::fields_at))]
fn fields_image(kind: u8, bytes: &[u8]) -> Option<&[u8]>
    ensures { option_map (λ s. s.now) result
        ≡ image_in (option_map (λ x. x.0) (fields_at kind bytes.now)) }
{
    match kind {
        1 => update_image(bytes),
        2 => compensation_image(bytes),
        _ => None,
    }
}

/// The image that the record with this body put into its cell. `None` if the record made the slot
/// absent, and if it is in no cell.
#[inline(always)]
#[tactic(auto, unfolding(crate::specs::Reading::body_at))]
pub fn body_image(bytes: &[u8]) -> Option<&[u8]>
    requires { is_some (body_at bytes.now) ≡ true }
    ensures { option_map (λ s. s.now) result
        ≡ image_in (option_map (λ x. x.0) (body_at bytes.now)) }
{
    match bytes {
        [] => None,
        [kind, rest @ ..] => {
            let (_, rest) = u64_at(rest)?;
            fields_image(*kind, rest)
        }
    }
}
