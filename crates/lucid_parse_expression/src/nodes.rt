// Expressions made of parsed parts: each allocates for its parts, and takes and gives the rest of the tokens. They are outside the cycle of
// expressions, whose proof grows with each value that is live while a call may fail, and with each such call.
ghost use Rattle.std.specs.Prelude.{Some};
ghost use Rattle.lucid_parse_expression.specs.Nodes as spec;
ghost use Rattle.lucid_parse_expression.specs.Reads.{Reads};
ghost use Rattle.lucid_parse_expression.specs.Tokens.{said};
ghost use Rattle.lucid_parse_tree.specs.declared.tree.E.TheVariants as e;

use crate::array::array_of;
use crate::ascii::Ascii;
use crate::error::Stop;
use crate::parts::{ended, some};
use crate::tokens::Tokens;
use lucid_base::{Boxed, Id, Items};
use lucid_lex::Sign;
use lucid_parse_spec::Method;
use lucid_parse_tree::{E, Infix, Pre};
use std::alloc::Global;

#[inline(never)]
pub(crate) fn infix<'a>(
    alloc: Global,
    op: Infix,
    left: E,
    right: (E, Tokens<'a>),
) -> Result<(E, Tokens<'a>), Stop>
    ensures { Reads result (Some (e.Infix op left right.entry.0, said right.entry.1)) }
{
    let (right, rest) = right;
    let left = Boxed::new(alloc, left);
    let right = Boxed::new(alloc, right);
    Ok((E::Infix(op, left?, right?), rest))
}

#[inline(never)]
pub(crate) fn shifted<'a>(
    alloc: Global,
    up: bool,
    by: u64,
    left: (E, Tokens<'a>),
) -> Result<(E, Tokens<'a>), Stop>
    ensures { Reads result (Some (e.Shift left.entry.0 up by, said left.entry.1)) }
{
    let (left, rest) = left;
    Ok((E::Shift(Boxed::new(alloc, left)?, up, by), rest))
}

#[inline(never)]
pub(crate) fn prefixed<'a>(
    alloc: Global,
    pre: Pre,
    operand: (E, Tokens<'a>),
) -> Result<(E, Tokens<'a>), Stop>
    ensures { Reads result (Some (e.Prefix pre operand.entry.0, said operand.entry.1)) }
{
    let (operand, rest) = operand;
    Ok((E::Prefix(pre, Boxed::new(alloc, operand)?), rest))
}

#[inline(never)]
pub(crate) fn cast<'a>(
    alloc: Global,
    width: Option<u64>,
    operand: (E, Tokens<'a>),
) -> Result<(E, Tokens<'a>), Stop>
    ensures { Reads result (Some (e.Cast width operand.entry.0, said operand.entry.1)) }
{
    let (operand, rest) = operand;
    Ok((E::Cast(width, Boxed::new(alloc, operand)?), rest))
}

/// The expression that was read, up to the close parenthesis after it.
#[inline(never)]
pub(crate) fn in_parentheses<'a>(
    alloc: Global,
    inner: (E, Tokens<'a>),
) -> Result<(E, Tokens<'a>), Stop>
    ensures { Reads result (spec.in_parentheses (inner.entry.0, said inner.entry.1)) }
{
    let (inner, rest) = ended(Sign::CloseParen, inner)?;
    Ok((E::Paren(Boxed::new(alloc, inner)?), rest))
}

#[inline(never)]
pub(crate) fn called<'a>(
    alloc: Global,
    name: Ascii<'a>,
    arguments: (Items<E>, Tokens<'a>),
) -> Result<(E, Tokens<'a>), Stop>
    ensures { Reads result (Some (e.Call name.entry.bytes.now arguments.entry.0, said arguments.entry.1)) }
{
    let (arguments, rest) = arguments;
    Ok((E::Call(Id::new(alloc, name.bytes)?, arguments), rest))
}

/// A hash has an operand at least.
#[inline(never)]
pub(crate) fn hash<'a>(
    width: u64,
    operands: (Items<E>, Tokens<'a>),
) -> Result<(E, Tokens<'a>), Stop>
    ensures { Reads result (spec.hash width (operands.entry.0, said operands.entry.1)) }
{
    let (operands, rest) = operands;
    Ok((E::Hash(width, some(operands)?), rest))
}

/// The call on an array by this method that is given these expressions.
#[inline(never)]
pub(crate) fn array<'a>(
    alloc: Global,
    method: Method,
    given: (Items<E>, Tokens<'a>),
) -> Result<(E, Tokens<'a>), Stop>
    ensures { Reads result (spec.array method (given.entry.0, said given.entry.1)) }
{
    let (call, rest) = array_of(alloc, method, given)?;
    Ok((E::Array(call), rest))
}
