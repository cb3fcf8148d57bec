//! What a slot holds.

ghost use Rattle.std.specs.Prelude.{◌≡◌, ◌≤◌, ◌-◌, ◌++◌, ℕ, List, length, take, replicate, IfSome, IsSome, ◌↔◌};
ghost use Rattle.page.specs.declared.profile.TheConstants.{VALUE_BYTES};
ghost use mathlib.Core.Path.{sym, ap, ap₂, ◌∙◌};

use crate::profile::VALUE_BYTES;
use std::marker::Model;

/// A value of 0 to [`VALUE_BYTES`] bytes, kept in place: copying it takes no memory. Contracts see
/// it as the list of its bytes.
#[derive(Clone, Copy)]
pub struct Value {
    bytes: [u8; VALUE_BYTES],
    len: u8,
}

impl Model for Value {
    ghost Value = { List ℕ };

    ghost view = { λ v. take v.len v.bytes };

    ghost invariant = { λ v. (v.len ≤ VALUE_BYTES) × (length (take v.len v.bytes) ≡ v.len) × (v.bytes ≡ take v.len v.bytes ++ replicate (VALUE_BYTES - v.len) 0) };

    ghost inverse = { λ d. record { bytes = d ++ replicate (VALUE_BYTES - length d) 0; len = length d } };

    ghost inverse_ok = { λ a h. ap₂ (λ b n. record { bytes = b; len = n }) (ap (λ n. take a.len a.bytes ++ replicate (VALUE_BYTES - n) 0) h.1 ∙ sym h.2) h.1 };
}

impl Value {
    /// The value of these bytes. `None` if there are more than
    /// [`VALUE_BYTES`].
    pub fn new(bytes: &[u8]) -> Option<Value>
        ensures found { IfSome result (λ v. v ≡ bytes.now) }
        ensures fits { IsSome result ↔ (length bytes.now ≤ VALUE_BYTES) }
    {
        let len = bytes.len();
        if len > VALUE_BYTES {
            return None;
        }
        let mut all = [0; VALUE_BYTES];
        all[..len].copy_from_slice(bytes);
        Some(Value {
            bytes: all,
            len: len as u8,
        })
    }

    /// Its bytes.
    pub fn as_slice(&self) -> &[u8]
        ensures value { result.now ≡ self.now }
        ensures short { length result.now ≤ VALUE_BYTES }
    {
        &self.bytes[..self.len as usize]
    }

    /// Its bytes, followed by zeros up to the largest length of a value.
    #[inline(always)]
    pub(crate) fn padded(&self) -> &[u8; VALUE_BYTES]
        ensures front { take (length self.now) result.now ≡ self.now }
        ensures count { length result.now ≡ VALUE_BYTES }
        ensures short { length self.now ≤ VALUE_BYTES }
    {
        &self.bytes
    }
}
