// The operations of an expression, each by the formula of its name in specs/Ops.
ghost use Rattle.std.specs.Prelude.{◌≡◌, ◌<◌, ◌≤◌, ◌^◌, ℕ};
ghost use Rattle.lucid_base.specs.Ops.{un_of, bin_of, cmp_of, low_of, IsShiftBy};

use crate::{Bits, Width};

/// Operations on one operand. Neg, Flip, Shl and Shr are `-`, `~`, `<<` and `>>`, the last two by a fixed amount.
#[derive(Clone, Copy, PartialEq, Eq)]
pub enum UnOp {
    Neg,
    Flip,
    Shl(u64),
    Shr(u64),
}

/// Operations on two operands of one width. SatAdd and SatSub are `|+|` and `|-|`, which stop at the ends of the width.
#[derive(Clone, Copy, PartialEq, Eq)]
pub enum BinOp {
    Add,
    Sub,
    And,
    Or,
    Xor,
    SatAdd,
    SatSub,
}

/// How two operands of one width compare, as unsigned numbers.
#[derive(Clone, Copy, PartialEq, Eq)]
pub enum CmpOp {
    Eq,
    Ne,
    Lt,
    Gt,
    Le,
    Ge,
}

/// Computes the operation on `a`, at its width. A shift by the width or more gives 0.
pub fn apply_un(op: UnOp, a: Bits) -> Bits
    ensures width { result.width ≡ a.width }
    ensures value { result.value ≡ un_of op a.width a.value }
    ensures shifted_out { (k : ℕ) → IsShiftBy k op → a.width ≤ k → result.value ≡ 0 }
{
    let width = a.width;
    Bits {
        width,
        value: un_value(op, width, a.value),
    }
}

fn un_value(op: UnOp, width: Width, a: u64) -> u64
    requires { a < 2 ^ width }
    ensures { result ≡ un_of op width a }
{
    let bits = u64::from(width.get());
    match op {
        UnOp::Neg => width.low(a.wrapping_neg()),
        UnOp::Flip => width.most() - a,
        UnOp::Shl(by) => if by < bits { width.low(a << by) } else { 0 },
        UnOp::Shr(by) => if by < bits { a >> by } else { 0 },
    }
}

/// Computes the operation on `a` and `b`, at their one width.
pub fn apply_bin(op: BinOp, a: Bits, b: Bits) -> Bits
    requires { a.width ≡ b.width }
    ensures width { result.width ≡ a.width }
    ensures value { result.value ≡ bin_of op a.width a.value b.value }
{
    let width = a.width;
    Bits {
        width,
        value: bin_value(op, width, a.value, b.value),
    }
}

fn bin_value(op: BinOp, width: Width, a: u64, b: u64) -> u64
    requires { b < 2 ^ width }
    ensures { result ≡ bin_of op width a b }
{
    match op {
        BinOp::Add => width.low(a.wrapping_add(b)),
        BinOp::Sub => width.low(a.wrapping_sub(b)),
        BinOp::And => a & b,
        BinOp::Or => a | b,
        BinOp::Xor => a ^ b,
        BinOp::SatAdd => a.saturating_add(b).min(width.most()),
        BinOp::SatSub => a.saturating_sub(b),
    }
}

/// Returns whether `a` and `b`, of one width, compare so.
pub fn compare(op: CmpOp, a: Bits, b: Bits) -> bool
    requires { a.width ≡ b.width }
    ensures { result ≡ cmp_of op a.value b.value }
{
    let (a, b) = (a.value, b.value);
    match op {
        CmpOp::Eq => a == b,
        CmpOp::Ne => a != b,
        CmpOp::Lt => a < b,
        CmpOp::Gt => a > b,
        CmpOp::Le => a <= b,
        CmpOp::Ge => a >= b,
    }
}

/// Returns the low bits of `a`, at the width `to`. A wider `to` keeps the number.
pub fn cast(a: Bits, to: Width) -> Bits
    ensures width { result.width ≡ to }
    ensures value { result.value ≡ low_of to a.value }
{
    Bits {
        width: to,
        value: to.low(a.value),
    }
}
