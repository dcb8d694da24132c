// Operators between and before operands, and how tightly they bind.
ghost use Rattle.std.specs.Prelude.{◌≡◌, ◌≤◌, ◌+◌};
ghost use Rattle.lucid_parse_spec.specs.Operators as spec;
ghost use Rattle.lucid_parse_spec.specs.ReadExpression.{pre_of, infix_of, next_level, next_left};

use lucid_lex::Sign;
use lucid_parse_tree::{Infix, Pre};

// The levels, from the loosest on.
/// The level of any expression.
pub const DISJUNCTION: u8 = 1;

const CONJUNCTION: u8 = 2;

const COMPARISON: u8 = 3;

const BIT_OR: u8 = 4;

const BIT_XOR: u8 = 5;

const BIT_AND: u8 = 6;

const SHIFT: u8 = 7;

const SUM: u8 = 8;
/// The level of an operand by itself.
pub const TIGHTEST: u8 = 9;

/// An operator after an operand: an infix sign, whose right operand follows, or a whole shift.
#[derive(Clone, Copy)]
pub enum Next {
    Infix(Infix),
    Shift(bool, u64),
}

impl Next {
    /// Returns how tightly it binds.
    pub fn level(self) -> u8
        ensures { result ≡ next_level self }
    {
        match self {
            Next::Infix(op) => level(op),
            Next::Shift(_, _) => SHIFT,
        }
    }

    /// Returns the least level of an operand on its left.
    pub fn left(self) -> u8
        ensures { result ≡ next_left self }
    {
        match self {
            Next::Infix(op) => left_level(op),
            Next::Shift(_, _) => SHIFT,
        }
    }
}

/// Returns how tightly an infix sign binds.
fn level(op: Infix) -> u8
    ensures value { result ≡ spec.level op }
    ensures small { result ≤ 8 }
{
    match op {
        Infix::OrOr => DISJUNCTION,
        Infix::AndAnd => CONJUNCTION,
        Infix::EqualEqual
        | Infix::NotEqual
        | Infix::Less
        | Infix::Greater
        | Infix::LessEqual
        | Infix::GreaterEqual => COMPARISON,
        Infix::Or => BIT_OR,
        Infix::Caret => BIT_XOR,
        Infix::And => BIT_AND,
        Infix::Plus | Infix::Minus | Infix::SatAdd | Infix::SatSub => SUM,
    }
}

/// Returns the least level of a left operand. Comparisons don't group.
fn left_level(op: Infix) -> u8
    ensures { result ≡ spec.left_level op }
{
    match op {
        Infix::EqualEqual
        | Infix::NotEqual
        | Infix::Less
        | Infix::Greater
        | Infix::LessEqual
        | Infix::GreaterEqual => COMPARISON + 1,
        _ => level(op),
    }
}

/// Returns the least level of a right operand. Signs of one level group to the left.
pub fn right_level(op: Infix) -> u8
    ensures { result ≡ spec.level op + 1 }
{
    level(op) + 1
}

/// Returns the least level of the operand of a prefix sign or a cast: both bind more tightly than infix operators.
pub fn unary_level() -> u8
    ensures { result ≡ spec.tightest }
{
    TIGHTEST
}

/// Returns the sign before an operand.
pub fn pre_of(sign: Sign) -> Option<Pre>
    ensures { result ≡ pre_of sign }
{
    match sign {
        Sign::Minus => Some(Pre::Minus),
        Sign::Tilde => Some(Pre::Tilde),
        Sign::Not => Some(Pre::Not),
        _ => None,
    }
}

/// Returns the sign between operands.
pub fn infix_of(sign: Sign) -> Option<Infix>
    ensures { result ≡ infix_of sign }
{
    match sign {
        Sign::OrOr => Some(Infix::OrOr),
        Sign::AndAnd => Some(Infix::AndAnd),
        Sign::EqualEqual => Some(Infix::EqualEqual),
        Sign::NotEqual => Some(Infix::NotEqual),
        Sign::Less => Some(Infix::Less),
        Sign::Greater => Some(Infix::Greater),
        Sign::LessEqual => Some(Infix::LessEqual),
        Sign::GreaterEqual => Some(Infix::GreaterEqual),
        Sign::Or => Some(Infix::Or),
        Sign::Caret => Some(Infix::Caret),
        Sign::And => Some(Infix::And),
        Sign::Plus => Some(Infix::Plus),
        Sign::Minus => Some(Infix::Minus),
        Sign::SatAdd => Some(Infix::SatAdd),
        Sign::SatSub => Some(Infix::SatSub),
        _ => None,
    }
}
