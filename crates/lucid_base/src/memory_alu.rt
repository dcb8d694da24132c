// A memop as plain values: a computation of the memory of one stage on a cell and an argument, by the table in specs/Memop.
ghost use Rattle.std.specs.Prelude.{◌≡◌, ◌<◌, ◌^◌};
ghost use Rattle.lucid_base.specs.Memop.{operand_of, side_of, apply_of, memop_value};

use crate::{BinOp, Bits, CmpOp, Width, apply_bin, compare};

/// An operand of a memop: the stored number, the argument, or a number of the program, which counts by its low bits.
#[derive(Clone, Copy, PartialEq, Eq)]
pub enum MemArg {
    Stored,
    Arg,
    Fixed(u64),
}

/// The result on one side of a memop's test: an operand, or an operation on two.
#[derive(Clone, Copy, PartialEq, Eq)]
pub enum MemSide {
    One(MemArg),
    Two(BinOp, MemArg, MemArg),
}

/// A memop over cells of `width` bits: `yes` if the test holds or there is none, else `no`.
#[derive(Clone, Copy, PartialEq, Eq)]
pub struct MemAlu {
    pub width: Width,
    pub test: Option<(CmpOp, MemArg, MemArg)>,
    pub yes: MemSide,
    pub no: MemSide,
}

impl MemAlu {
    /// Computes the memop on the stored number and an argument. Both fit its width, and so does the result.
    pub fn apply(&self, stored: u64, arg: u64) -> u64
        requires stored { stored < 2 ^ self.now.width }
        requires arg { arg < 2 ^ self.now.width }
        ensures value { result ≡ apply_of self.now stored arg }
        ensures fits { result < 2 ^ self.now.width }
    {
        let width = self.width;
        let takes_yes = match &self.test {
            Some((op, left, right)) => compare(
                *op,
                left.bits(width, stored, arg),
                right.bits(width, stored, arg),
            ),
            None => true,
        };
        let side = if takes_yes { &self.yes } else { &self.no };
        side.bits(width, stored, arg).value
    }

    /// Computes the memop on the low bits of any stored number and argument.
    pub fn apply_low(&self, stored: u64, arg: u64) -> Bits
        ensures { result ≡ memop_value self.now stored arg }
    {
        let width = self.width;
        Bits {
            width,
            value: self.apply(width.low(stored), width.low(arg)),
        }
    }
}

impl MemArg {
    fn bits(self, width: Width, stored: u64, arg: u64) -> Bits
        requires stored { stored < 2 ^ width }
        requires arg { arg < 2 ^ width }
        ensures width { result.width ≡ width }
        ensures value { result.value ≡ operand_of self width stored arg }
    {
        let value = match self {
            MemArg::Stored => stored,
            MemArg::Arg => arg,
            MemArg::Fixed(n) => width.low(n),
        };
        Bits { width, value }
    }
}

impl MemSide {
    fn bits(&self, width: Width, stored: u64, arg: u64) -> Bits
        requires stored { stored < 2 ^ width }
        requires arg { arg < 2 ^ width }
        ensures width { result.width ≡ width }
        ensures value { result.value ≡ side_of self.now width stored arg }
    {
        match self {
            MemSide::One(operand) => operand.bits(width, stored, arg),
            MemSide::Two(op, left, right) => apply_bin(
                *op,
                left.bits(width, stored, arg),
                right.bits(width, stored, arg),
            ),
        }
    }
}
