// Numbers of a stated width.
ghost use Rattle.std.specs.Prelude.{◌≡◌, ◌<◌, ◌^◌};
ghost use Rattle.lucid_base.specs.Bool.{bit_of};

use crate::Width;

/// A number of `width` bits. A bool is such a number of width 1.
#[derive(Clone, Copy, PartialEq, Eq)]
pub struct Bits {
    pub width: Width,
    pub value: u64,
    pub ghost fits: { value < 2 ^ width },
}

impl Bits {
    /// Returns the bool as a number: 1 if it holds, else 0.
    pub fn from_bool(b: bool) -> Bits
        ensures width { result.width ≡ 1 }
        ensures value { result.value ≡ bit_of b }
    {
        Bits {
            width: Width::bool(),
            value: if b { 1 } else { 0 },
        }
    }
}
