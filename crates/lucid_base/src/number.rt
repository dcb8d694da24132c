// Makes a number of a stated width from a machine word. It is apart from the type, which its definition in specs/Bits names.
ghost use Rattle.std.specs.Prelude.{◌≡◌, ◌<◌, ◌^◌};
ghost use Rattle.lucid_base.specs.Bits.{bits_of};

use crate::{Bits, Width};

impl Bits {
    /// Returns the number `value` of `width` bits, in which it fits (`Width::fits`).
    pub fn new(width: Width, value: u64) -> Bits
        requires { value < 2 ^ width }
        ensures { result ≡ bits_of width value }
    {
        Bits { width, value }
    }

    /// Returns the low bits of `n`, as a number of `width` bits.
    pub fn low(width: Width, n: u64) -> Bits
        ensures { result ≡ bits_of width n }
    {
        Bits {
            width,
            value: width.low(n),
        }
    }
}
