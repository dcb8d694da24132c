// Expressions, by how tightly their signs bind. `depth` bounds their nesting; if it is the number of the tokens, it never runs out, and
// the limits on nesting, which are tried before, bound the recursion by far less.
ghost use Rattle.std.specs.Prelude.{length};
ghost use Rattle.lucid_parse_spec.specs.Reader.{separated};
ghost use Rattle.lucid_parse_expression.specs.Nodes.{array_value, cast_head, time};
ghost use Rattle.lucid_parse_expression.specs.Reads.{Reads, Leaves};
ghost use Rattle.lucid_parse_expression.specs.Tokens.{said};
ghost use Rattle.lucid_parse_spec.specs.Operators.{disjunction, tightest};
ghost use Rattle.lucid_parse_spec.specs.ReadExpression as spec;

use crate::array::{array_method, array_of};
use crate::ascii::Ascii;
use crate::commas::{added, one};
use crate::error::Stop;
use crate::lexeme::Lexeme;
use crate::nodes::{array, called, cast, hash, in_parentheses, infix, prefixed, shifted};
use crate::operator::next_within;
use crate::parts::{after, ended, expect, expect_name, width, width_if};
use crate::tokens::Tokens;
use lucid_base::{Boxed, Id, Items};
use lucid_lex::{Sign, Word};
use lucid_parse_spec::{DISJUNCTION, Next, TIGHTEST, pre_of, right_level, unary_level};
use lucid_parse_tree::{A, E};
use std::alloc::Global;

/// An expression.
#[tactic(auto, unfolding(lucid_parse_spec::specs::ReadExpression::expression))]
pub fn expression(alloc: Global, tokens: Tokens) -> Result<(E, Tokens), Stop>
    ensures { Reads result (spec.expression (said tokens.entry)) }
{
    expression_at(alloc, tokens.len(), DISJUNCTION, tokens)
}

/// The arguments of a call, after its open parenthesis.
#[tactic(auto, unfolding(lucid_parse_spec::specs::ReadExpression::call_arguments))]
pub fn call_arguments(alloc: Global, tokens: Tokens) -> Result<(Items<E>, Tokens), Stop>
    ensures { Reads result (spec.call_arguments (said tokens.entry)) }
{
    arguments(alloc, tokens.len(), tokens)
}

/// Expressions, each behind a comma.
#[tactic(auto, unfolding(lucid_parse_spec::specs::ReadExpression::operands))]
pub fn operands(alloc: Global, tokens: Tokens) -> Result<(Items<E>, Tokens), Stop>
    ensures { Reads result (spec.operands (said tokens.entry)) }
{
    match after(Sign::Comma, tokens) {
        None => Ok((Items::new(alloc), tokens)),
        Some(rest) => expressions(alloc, rest.len(), rest),
    }
}

/// A call on an array, behind `Array`.
#[tactic(auto, unfolding(lucid_parse_spec::specs::ReadExpression::whole_array_call, lucid_parse_spec::specs::ReadExpression::array_call))]
pub fn array_call(alloc: Global, tokens: Tokens) -> Result<(Boxed<A>, Tokens), Stop>
    ensures { Reads result (spec.whole_array_call (said tokens.entry)) }
{
    let (method, rest) = array_method(tokens)?;
    array_of(alloc, method, arguments(alloc, tokens.len(), rest)?)
}

/// An expression of at least this level. Its parts that recurse are not inlined, so that deep expressions take little stack.
#[cycle(expression)]
#[tactic(auto, unfolding(lucid_parse_spec::specs::ReadExpression::expression_at))]
fn expression_at(
    alloc: Global,
    depth: usize,
    least: u8,
    tokens: Tokens,
) -> Result<(E, Tokens), Stop>
    ensures { Reads result (spec.expression_at depth least (said tokens.entry)) }
{
    if depth == 0 {
        return Err(Stop::NoTree);
    }
    let first = operand(alloc, depth - 1, tokens)?;
    climb(alloc, depth - 1, least, first)
}

/// An operand with all operators that follow it and bind at least this tightly.
#[cycle(expression)]
#[inline(never)]
#[tactic(auto, unfolding(lucid_parse_spec::specs::ReadExpression::climb))]
fn climb<'a>(
    alloc: Global,
    depth: usize,
    least: u8,
    first: (E, Tokens<'a>),
) -> Result<(E, Tokens<'a>), Stop>
    ensures { Reads result (spec.climb (spec.expression_at depth) least (length (said first.entry.1)) tightest first.entry.0 (said first.entry.1)) }
{
    let (mut left, mut rest) = first;
    let mut tight = TIGHTEST;
    for _turn in 0..rest.len() {
        match next_within(least, tight, rest) {
            None => return Ok((left, rest)),
            Some((next, more)) => {
                let (grown, after) = grown(alloc, depth, left, next, more)?;
                tight = next.level();
                left = grown;
                rest = after;
            }
        }
    }
    Ok((left, rest))
}

/// The left operand with the operators that follow it.
#[cycle(expression)]
#[inline(never)]
fn grown(
    alloc: Global,
    depth: usize,
    left: E,
    next: Next,
    tokens: Tokens,
) -> Result<(E, Tokens), Stop>
    ensures { Reads result (spec.grown (spec.expression_at depth) left next (said tokens.entry)) }
{
    match next {
        Next::Infix(op) => {
            match expression_at(alloc, depth, right_level(op), tokens) {
                Ok(right) => infix(alloc, op, left, right),
                Err(stop) => {
                    drop(left);
                    Err(stop)
                }
            }
        }
        Next::Shift(up, by) => shifted(alloc, up, by, (left, tokens)),
    }
}

#[cycle(expression)]
#[tactic(auto, unfolding(lucid_parse_spec::specs::ReadExpression::operand))]
#[inline(never)]
fn operand(alloc: Global, depth: usize, tokens: Tokens) -> Result<(E, Tokens), Stop>
    ensures { Reads result (spec.operand (spec.expression_at depth) (said tokens.entry)) }
{
    match tokens.split() {
        Some((Lexeme::Number(n), rest)) => Ok((E::Number(n), rest)),
        Some((Lexeme::Name(name), rest)) => named(alloc, depth, name, rest),
        Some((Lexeme::Word(Word::True), rest)) => Ok((E::Truth(true), rest)),
        Some((Lexeme::Word(Word::False), rest)) => Ok((E::Truth(false), rest)),
        Some((Lexeme::Word(Word::Me), rest)) => Ok((E::Me, rest)),
        Some((Lexeme::Word(Word::SysCalls), rest)) => time(rest),
        Some((Lexeme::Word(Word::Hash), rest)) => hash_value(alloc, depth, rest),
        Some((Lexeme::Word(Word::ArrayCalls), rest)) => array_value(alloc, depth, rest),
        Some((Lexeme::Sign(Sign::OpenParen), rest)) => in_parens(alloc, depth, rest),
        Some((Lexeme::Sign(sign), rest)) => signed(alloc, depth, sign, rest),
        _ => Err(Stop::NoTree),
    }
}

/// A prefix sign with its operand, behind the sign.
#[cycle(expression)]
#[inline(never)]
fn signed(alloc: Global, depth: usize, sign: Sign, tokens: Tokens) -> Result<(E, Tokens), Stop>
    ensures { Reads result (spec.prefixed (spec.expression_at depth) (said tokens.entry) (spec.pre_of sign)) }
{
    match pre_of(sign) {
        Some(pre) => prefixed(
            alloc,
            pre,
            expression_at(alloc, depth, unary_level(), tokens)?,
        ),
        None => Err(Stop::NoTree),
    }
}

/// A hash, behind its word.
#[cycle(expression)]
#[inline(never)]
fn hash_value(alloc: Global, depth: usize, tokens: Tokens) -> Result<(E, Tokens), Stop>
    ensures { Reads result (spec.hash (spec.expression_at depth) (said tokens.entry)) }
{
    let (width, rest) = hash_head(tokens)?;
    hash(width, arguments(alloc, depth, rest)?)
}

/// A call of an array, behind `Array`.
#[cycle(expression)]
#[inline(never)]
#[tactic(auto, unfolding(lucid_parse_spec::specs::ReadExpression::array_call))]
fn array_value(alloc: Global, depth: usize, tokens: Tokens) -> Result<(E, Tokens), Stop>
    ensures { Reads result (array_value (spec.expression_at depth) (said tokens.entry)) }
{
    let (method, rest) = array_method(tokens)?;
    array(alloc, method, arguments(alloc, depth, rest)?)
}

/// An expression that begins with a name.
#[cycle(expression)]
#[tactic(auto, unfolding(lucid_parse_spec::specs::ReadExpression::named))]
#[inline(never)]
fn named<'a>(
    alloc: Global,
    depth: usize,
    name: Ascii<'a>,
    tokens: Tokens<'a>,
) -> Result<(E, Tokens<'a>), Stop>
    ensures { Reads result (spec.named (spec.expression_at depth) name.entry.bytes.now (said tokens.entry)) }
{
    match after(Sign::OpenParen, tokens) {
        None => Ok((E::Name(Id::new(alloc, name.bytes)?), tokens)),
        Some(rest) => called(alloc, name, arguments(alloc, depth, rest)?),
    }
}

/// The arguments of a call, after its open parenthesis.
#[cycle(expression)]
#[tactic(auto, unfolding(lucid_parse_spec::specs::ReadExpression::arguments))]
fn arguments(alloc: Global, depth: usize, tokens: Tokens) -> Result<(Items<E>, Tokens), Stop>
    ensures { Reads result (spec.arguments (spec.expression_at depth) (said tokens.entry)) }
{
    match after(Sign::CloseParen, tokens) {
        Some(rest) => Ok((Items::new(alloc), rest)),
        None => ended(Sign::CloseParen, expressions(alloc, depth, tokens)?),
    }
}

/// Expressions with commas between them.
#[cycle(expression)]
#[tactic(auto, unfolding(lucid_parse_spec::specs::Reader::separated, lucid_parse_spec::specs::Reader::repeat))]
#[inline(never)]
fn expressions(alloc: Global, depth: usize, tokens: Tokens) -> Result<(Items<E>, Tokens), Stop>
    ensures { Reads result (separated (spec.expression_at depth disjunction) (said tokens.entry)) }
{
    let (mut all, mut rest) = one(alloc, expression_at(alloc, depth, DISJUNCTION, tokens)?)?;
    for _turn in 0..rest.len() {
        match after(Sign::Comma, rest) {
            None => return Ok((all, rest)),
            Some(more) => match expression_at(alloc, depth, DISJUNCTION, more) {
                Ok(next) => {
                    let (longer, after) = added(all, next)?;
                    all = longer;
                    rest = after;
                }
                Err(stop) => {
                    drop(all);
                    return Err(stop);
                }
            },
        }
    }
    Ok((all, rest))
}

/// The time, behind `Sys`.
fn time(tokens: Tokens) -> Result<(E, Tokens), Stop>
    ensures { Reads result (time (said tokens.entry)) }
{
    let rest = expect_time(tokens)?;
    Ok((E::Time, rest))
}

/// Passes over `.time()`.
#[tactic(auto, unfolding(lucid_parse_spec::specs::ReadExpression::after_time))]
fn expect_time(tokens: Tokens) -> Result<Tokens, Stop>
    ensures { Leaves result (spec.after_time (said tokens.entry)) }
{
    let rest = expect(Sign::Dot, tokens)?;
    let rest = expect_name(b"time", rest)?;
    let rest = expect(Sign::OpenParen, rest)?;
    expect(Sign::CloseParen, rest)
}

/// The width of a hash, up to the open parenthesis.
#[tactic(auto, unfolding(lucid_parse_spec::specs::ReadExpression::hash_head))]
fn hash_head(tokens: Tokens) -> Result<(u64, Tokens), Stop>
    ensures { Reads result (spec.hash_head (said tokens.entry)) }
{
    ended(Sign::OpenParen, width(tokens)?)
}

/// The width of a cast, up to the close parenthesis.
fn cast_head(tokens: Tokens) -> Result<(Option<u64>, Tokens), Stop>
    ensures { Reads result (cast_head (said tokens.entry)) }
{
    ended(Sign::CloseParen, width_if(tokens)?)
}

/// Behind an open parenthesis: the type of a cast and its operand, or an expression.
#[cycle(expression)]
#[tactic(auto, unfolding(lucid_parse_spec::specs::ReadExpression::in_parens))]
#[inline(never)]
fn in_parens(alloc: Global, depth: usize, tokens: Tokens) -> Result<(E, Tokens), Stop>
    ensures { Reads result (spec.in_parens (spec.expression_at depth) (said tokens.entry)) }
{
    match tokens.split() {
        Some((Lexeme::Word(Word::Int), rest)) => {
            let (width, rest) = cast_head(rest)?;
            cast(
                alloc,
                width,
                expression_at(alloc, depth, unary_level(), rest)?,
            )
        }
        _ => in_parentheses(alloc, expression_at(alloc, depth, DISJUNCTION, tokens)?),
    }
}
