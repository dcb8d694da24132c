// Calls on arrays: the method, and then its arguments, which are read as a list of expressions and taken apart here.
ghost use Rattle.lucid_parse_expression.specs.Nodes as nodes;
ghost use Rattle.lucid_parse_expression.specs.Reads.{Reads, Gives};
ghost use Rattle.lucid_parse_expression.specs.Tokens.{said};
ghost use Rattle.lucid_parse_spec.specs.declared.method.Method.TheVariants as methods;
ghost use Rattle.lucid_parse_spec.specs.ReadExpression as spec;

use crate::error::Stop;
use crate::lexeme::Lexeme;
use crate::parts::{ended, expect};
use crate::tokens::Tokens;
use lucid_base::{Boxed, Id, Items};
use lucid_lex::Sign;
use lucid_parse_spec::Method;
use lucid_parse_tree::{A, E};
use std::alloc::Global;

/// Reads the tokens after `Array`, up to the open parenthesis.
#[tactic(auto, unfolding(lucid_parse_spec::specs::ReadExpression::array_method))]
pub(crate) fn array_method(tokens: Tokens) -> Result<(Method, Tokens), Stop>
    ensures { Reads result (spec.array_method (said tokens.entry)) }
{
    let rest = expect(Sign::Dot, tokens)?;
    match rest.split() {
        Some((Lexeme::Name(name), rest)) => match Method::of(name.bytes) {
            Some(method) => ended(Sign::OpenParen, (method, rest)),
            None => Err(Stop::NoTree),
        },
        _ => Err(Stop::NoTree),
    }
}

/// The call by this method with the expressions that were read, all of them. It is boxed at once, since a proof pays much for each path
/// that drops a call by value.
pub(crate) fn array_of<'a>(
    alloc: Global,
    method: Method,
    read: (Items<E>, Tokens<'a>),
) -> Result<(Boxed<A>, Tokens<'a>), Stop>
    ensures { Reads result (nodes.array_call method (read.entry.0, said read.entry.1)) }
{
    let (given, rest) = read;
    let call = call_of(method, given)?;
    Ok((Boxed::new(alloc, call)?, rest))
}

#[tactic(auto, unfolding(lucid_parse_spec::specs::ReadExpression::array_of))]
fn call_of(method: Method, given: Items<E>) -> Result<A, Stop>
    ensures { Gives result (spec.array_of method given) }
{
    let (name, given) = first_name(given)?;
    array_at(name, method, given)
}

/// Reads the tokens after the array's name.
#[tactic(auto, unfolding(lucid_parse_spec::specs::ReadExpression::array_at))]
fn array_at(name: Id, method: Method, given: Items<E>) -> Result<A, Stop>
    ensures { Gives result (spec.array_at name method given) }
{
    let (index, given) = first(given)?;
    array_with(name, index, method, given)
}

/// Reads the tokens after the index. The call is made last, when nothing remains, so that no path drops a whole call.
fn array_with(name: Id, index: E, method: Method, given: Items<E>) -> Result<A, Stop>
    ensures { Gives result (spec.array_with name index method given) }
{
    match method {
        Method::Get => get_call(name, index, given),
        Method::Set => set_call(name, index, given),
        Method::Getm => getm_call(name, index, given),
        Method::Setm => setm_call(name, index, given),
        Method::Update => update_call(name, index, given),
    }
}

#[tactic(auto, unfolding(lucid_parse_spec::specs::ReadExpression::array_with))]
fn get_call(name: Id, index: E, given: Items<E>) -> Result<A, Stop>
    ensures { Gives result (spec.array_with name index methods.Get given) }
{
    if given.is_empty() {
        Ok(A::Get(name, index))
    } else {
        drop(index);
        Err(Stop::NoTree)
    }
}

#[tactic(auto, unfolding(lucid_parse_spec::specs::ReadExpression::array_with))]
fn set_call(name: Id, index: E, given: Items<E>) -> Result<A, Stop>
    ensures { Gives result (spec.array_with name index methods.Set given) }
{
    match last(given) {
        Ok(value) => Ok(A::Set(name, index, value)),
        Err(stop) => {
            drop(index);
            Err(stop)
        }
    }
}

#[tactic(auto, unfolding(lucid_parse_spec::specs::ReadExpression::array_with))]
fn getm_call(name: Id, index: E, given: Items<E>) -> Result<A, Stop>
    ensures { Gives result (spec.array_with name index methods.Getm given) }
{
    match last_memop(given) {
        Ok((memop, argument)) => Ok(A::Getm(name, index, memop, argument)),
        Err(stop) => {
            drop(index);
            Err(stop)
        }
    }
}

#[tactic(auto, unfolding(lucid_parse_spec::specs::ReadExpression::array_with))]
fn setm_call(name: Id, index: E, given: Items<E>) -> Result<A, Stop>
    ensures { Gives result (spec.array_with name index methods.Setm given) }
{
    match last_memop(given) {
        Ok((memop, argument)) => Ok(A::Setm(name, index, memop, argument)),
        Err(stop) => {
            drop(index);
            Err(stop)
        }
    }
}

#[tactic(auto, unfolding(lucid_parse_spec::specs::ReadExpression::array_with))]
fn update_call(name: Id, index: E, given: Items<E>) -> Result<A, Stop>
    ensures { Gives result (spec.array_with name index methods.Update given) }
{
    match last_memops(given) {
        Ok((get, set)) => Ok(A::Update(name, index, get.0, get.1, set.0, set.1)),
        Err(stop) => {
            drop(index);
            Err(stop)
        }
    }
}

/// The last expression, which is the only one.
#[tactic(auto, unfolding(lucid_parse_spec::specs::ReadExpression::last))]
fn last(given: Items<E>) -> Result<E, Stop>
    ensures { Gives result (spec.last given) }
{
    let (last, left) = first(given)?;
    if left.is_empty() {
        Ok(last)
    } else {
        drop(last);
        Err(Stop::NoTree)
    }
}

/// A memop and its argument, and nothing else.
#[tactic(auto, unfolding(lucid_parse_spec::specs::ReadExpression::last_memop))]
fn last_memop(given: Items<E>) -> Result<(Id, E), Stop>
    ensures { Gives result (spec.last_memop given) }
{
    let (memop, given) = first_name(given)?;
    let argument = last(given)?;
    Ok((memop, argument))
}

/// Two memops, each with its argument, and nothing else.
#[tactic(auto, unfolding(lucid_parse_spec::specs::ReadExpression::last_memops))]
fn last_memops(given: Items<E>) -> Result<((Id, E), (Id, E)), Stop>
    ensures { Gives result (spec.last_memops given) }
{
    let (get, given) = memop_part(given)?;
    match last_memop(given) {
        Ok(set) => Ok((get, set)),
        Err(stop) => {
            drop(get);
            Err(stop)
        }
    }
}

/// A memop and its argument.
#[tactic(auto, unfolding(lucid_parse_spec::specs::ReadExpression::memop_part))]
fn memop_part(given: Items<E>) -> Result<((Id, E), Items<E>), Stop>
    ensures { Gives result (spec.memop_part given) }
{
    let (memop, given) = first_name(given)?;
    let (argument, given) = first(given)?;
    Ok(((memop, argument), given))
}

/// The first expression and the others, if the first is a name.
#[tactic(auto, unfolding(lucid_parse_spec::specs::ReadExpression::first_name))]
fn first_name(given: Items<E>) -> Result<(Id, Items<E>), Stop>
    ensures { Gives result (spec.first_name given) }
{
    let (first, given) = first(given)?;
    match first {
        E::Name(name) => Ok((name, given)),
        other => {
            drop(other);
            Err(Stop::NoTree)
        }
    }
}

/// The first expression and the others.
fn first(given: Items<E>) -> Result<(E, Items<E>), Stop>
    ensures { Gives result (spec.first given) }
{
    let mut given = given;
    if given.is_empty() {
        return Err(Stop::NoTree);
    }
    let first = given.remove(0);
    Ok((first, given))
}
