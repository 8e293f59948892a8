//! How long an image may be.

ghost use Rattle.std.specs.Prelude.{◌≡◌, ◌≤◌, ◌↔◌, ℕ, IsSome, IfSome};

use std::marker::Model;

const LEAST: u32 = 2;

const MOST: u32 = 1 << 30;

/// The usual limit of an image, and of what is read of one input: 16 MiB.
pub const USUAL_LIMIT: u32 = 1 << 24;

/// The greatest length of an image, in bytes: at least 2 and at most 1,073,741,824.
#[derive(Clone, Copy, Debug)]
pub struct Limits {
    image: u32,
}

impl Model for Limits {
    ghost Value = { ℕ };

    ghost view = { λ l. l.image };

    ghost invariant = { λ l. (2 ≤ l.image) × (l.image ≤ 1073741824) };

    ghost inverse = { λ n. record { image = n } };
}

impl Limits {
    /// Returns a limit of `image` bytes, or `None` if it is out of range.
    pub fn of(image: u32) -> Option<Limits>
        ensures range { IsSome result ↔ ((2 ≤ image) × (image ≤ 1073741824)) }
        ensures value { IfSome result (λ l. l ≡ image) }
    {
        if image < LEAST || image > MOST {
            return None;
        }
        Some(Limits { image })
    }

    /// Returns the limit of 16,777,216 bytes.
    pub fn usual() -> Limits
        ensures { result ≡ 16777216 }
    {
        Limits { image: USUAL_LIMIT }
    }

    /// Returns the greatest length of an image, in bytes.
    pub fn image(&self) -> u32
        ensures value { result ≡ self.now }
        ensures least { 2 ≤ result }
        ensures most { result ≤ 1073741824 }
    {
        self.image
    }
}
