// Types, stated widths, and the operators of the signs between two operands.
ghost use Rattle.std.specs.Prelude.{◌≡◌};
ghost use Rattle.lucid_types_spec.specs.Operators.{arithmetic, comparison, logic};
ghost use Rattle.lucid_types_spec.specs.Types.{stated};
ghost use Rattle.lucid_types_laws.specs.Reading.{same_type};
ghost use Rattle.lucid_types_expressions.specs.Forms.{is_int};

use lucid_base::{BinOp, CmpOp};
use lucid_parse_tree::Infix;
use lucid_types_spec::ValueType;

/// Returns whether the types are one.
pub fn same_type(t: ValueType, u: ValueType) -> bool
    ensures { result ≡ same_type t u }
{
    t == u
}

/// Returns whether the type is an int's.
pub fn is_int(t: ValueType) -> bool
    ensures { result ≡ is_int t }
{
    match t {
        ValueType::Int(_) => true,
        ValueType::Bool => false,
    }
}

/// The width of `int<<w>>`, or of `int`.
pub fn stated(width: Option<u64>) -> u64
    ensures { result ≡ stated width }
{
    match width {
        Some(w) => w,
        None => 32,
    }
}

/// The operation of ints that gives an int.
pub fn arithmetic(sign: Infix) -> Option<BinOp>
    ensures { result ≡ arithmetic sign }
{
    match sign {
        Infix::Plus => Some(BinOp::Add),
        Infix::Minus => Some(BinOp::Sub),
        Infix::And => Some(BinOp::And),
        Infix::Or => Some(BinOp::Or),
        Infix::Caret => Some(BinOp::Xor),
        Infix::SatAdd => Some(BinOp::SatAdd),
        Infix::SatSub => Some(BinOp::SatSub),
        _ => None,
    }
}

/// The comparison of ints.
pub fn comparison(sign: Infix) -> Option<CmpOp>
    ensures { result ≡ comparison sign }
{
    match sign {
        Infix::EqualEqual => Some(CmpOp::Eq),
        Infix::NotEqual => Some(CmpOp::Ne),
        Infix::Less => Some(CmpOp::Lt),
        Infix::Greater => Some(CmpOp::Gt),
        Infix::LessEqual => Some(CmpOp::Le),
        Infix::GreaterEqual => Some(CmpOp::Ge),
        _ => None,
    }
}

/// The operation of bools.
pub fn logic(sign: Infix) -> Option<BinOp>
    ensures { result ≡ logic sign }
{
    match sign {
        Infix::AndAnd => Some(BinOp::And),
        Infix::OrOr => Some(BinOp::Or),
        _ => None,
    }
}
