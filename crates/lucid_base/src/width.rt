// Widths: how many bits a number has.
ghost use Rattle.std.specs.Prelude.{◌≡◌, ◌-◌, ◌^◌, ◌≤◌, ◌↔◌, nat_lt, IfSome, IsSome};
ghost use Rattle.lucid_base.specs.Ops.{low_of};

use std::marker::Model;

/// A number of bits from 1 to 64, which contracts see as that number. It is kept in a word, so that a number with its width has no bytes
/// that mean nothing and is copied by words.
#[derive(Clone, Copy, PartialEq, Eq)]
pub struct Width {
    bits: u64,
}

impl Model for Width {
    ghost use Rattle.std.specs.Prelude.{ℕ, ◌≤◌};

    ghost Value = { ℕ };

    ghost view = { λ w. w.bits };

    ghost invariant = { λ w. (1 ≤ w.bits) × (w.bits ≤ 64) };

    ghost inverse = { λ n. record { bits = n } };
}

impl Width {
    /// Returns the width of `w` bits, or None if `w` is 0 or above 64.
    pub fn new(w: u64) -> Option<Width>
        ensures valid { IsSome result ↔ ((1 ≤ w) × (w ≤ 64)) }
        ensures value { IfSome result (λ width. width ≡ w) }
    {
        if 1 <= w && w <= 64 {
            Some(Width { bits: w })
        } else {
            None
        }
    }

    /// Returns the width of a bool.
    pub fn bool() -> Width
        ensures { result ≡ 1 }
    {
        Width { bits: 1 }
    }

    /// Returns the width of an `int` that states none, of a time and of a switch's number.
    pub fn int() -> Width
        ensures { result ≡ 32 }
    {
        Width { bits: 32 }
    }

    /// Returns the number of bits.
    pub fn get(self) -> u8
        ensures value { result ≡ self }
        ensures least { 1 ≤ result }
        ensures most { result ≤ 64 }
    {
        self.bits as u8
    }

    /// Returns whether `value` fits in this many bits.
    pub fn fits(self, value: u64) -> bool
        ensures { result ≡ nat_lt value (2 ^ self) }
    {
        value <= self.most()
    }

    /// Returns the greatest number of this width, which has every bit set.
    pub(crate) fn most(self) -> u64
        ensures value { result ≡ 2 ^ self - 1 }
        ensures in_word { self ≤ 64 }
    {
        u64::MAX >> (64 - self.bits)
    }

    /// Returns the low bits of `n`.
    pub(crate) fn low(self, n: u64) -> u64
        ensures value { result ≡ low_of self n }
        ensures in_word { self ≤ 64 }
    {
        n & self.most()
    }
}
