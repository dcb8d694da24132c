// Drawn numbers, and values made of them alone.
ghost use Rattle.std.specs.Prelude.{◌<◌};

use lucid_base::{BinOp, CmpOp, MemAlu, MemArg, MemSide, UnOp, Width};

/// Numbers that follow from a first one.
#[derive(Drop)]
pub(crate) struct Draws {
    pub(crate) state: u64,
}

impl Draws {
    pub(crate) fn below(&mut self, n: u64) -> u64
        requires { 0 < n }
        ensures { result < n }
    {
        self.state = self
            .state
            .wrapping_mul(6_364_136_223_846_793_005)
            .wrapping_add(1_442_695_040_888_963_407);
        (self.state >> 33) % n
    }

    /// Small numbers mostly.
    pub(crate) fn number(&mut self) -> u64 {
        if self.below(4) == 0 {
            self.state
        } else {
            self.below(4)
        }
    }

    pub(crate) fn width(&mut self) -> Width {
        let bits = [1, 1, 2, 8, 32, 64];
        match Width::new(bits[self.below(6) as usize]) {
            None => Width::int(),
            Some(width) => width,
        }
    }

    pub(crate) fn unary(&mut self) -> UnOp {
        match self.below(4) {
            0 => UnOp::Neg,
            1 => UnOp::Flip,
            2 => UnOp::Shl(self.below(10)),
            _ => UnOp::Shr(self.below(10)),
        }
    }

    pub(crate) fn binary(&mut self) -> BinOp {
        match self.below(7) {
            0 => BinOp::Add,
            1 => BinOp::Sub,
            2 => BinOp::And,
            3 => BinOp::Or,
            4 => BinOp::Xor,
            5 => BinOp::SatAdd,
            _ => BinOp::SatSub,
        }
    }

    /// `Direct` looks for Eq, so that is drawn most.
    pub(crate) fn comparison(&mut self) -> CmpOp {
        match self.below(8) {
            0 => CmpOp::Ne,
            1 => CmpOp::Lt,
            2 => CmpOp::Gt,
            3 => CmpOp::Le,
            4 => CmpOp::Ge,
            _ => CmpOp::Eq,
        }
    }

    pub(crate) fn memop(&mut self, width: Width) -> MemAlu {
        let test = (self.comparison(), self.given(), self.given());
        MemAlu {
            width,
            test: if self.below(2) == 0 { Some(test) } else { None },
            yes: self.side(),
            no: self.side(),
        }
    }

    fn side(&mut self) -> MemSide {
        if self.below(3) == 0 {
            MemSide::One(self.given())
        } else {
            MemSide::Two(self.binary(), self.given(), self.given())
        }
    }

    /// An operand of a memop.
    fn given(&mut self) -> MemArg {
        match self.below(5) {
            0 => MemArg::Fixed(self.below(2)),
            1 | 2 => MemArg::Arg,
            _ => MemArg::Stored,
        }
    }
}
