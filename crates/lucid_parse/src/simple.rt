// Statements without statements in them.
ghost use Rattle.lucid_parse_expression.specs.Reads.{Reads};
ghost use Rattle.lucid_parse_expression.specs.Tokens.{said};
ghost use Rattle.lucid_parse_spec.specs.ReadStatement as spec;

use crate::event::event;
use crate::parts::with_name;
use lucid_base::{Id, Items};
use lucid_lex::{Sign, Word};
use lucid_parse_expression::{
    Ascii, Lexeme, Stop, Tokens, after, array_call, call_arguments, ended, expect, expression,
    operands, typed_name,
};
use lucid_parse_tree::{E, S};
use std::alloc::Global;

#[inline(never)]
#[tactic(auto, unfolding(lucid_parse_spec::specs::ReadStatement::simple))]
pub(crate) fn simple(alloc: Global, tokens: Tokens) -> Result<(S, Tokens), Stop>
    ensures { Reads result (spec.simple (said tokens.entry)) }
{
    match tokens.split() {
        Some((Lexeme::Name(name), rest)) => after_its_name(alloc, name, rest),
        Some((Lexeme::Word(Word::ArrayCalls), rest)) => array_statement(alloc, rest),
        Some((Lexeme::Word(Word::Return), rest)) => returned(alloc, rest),
        Some((Lexeme::Word(Word::Generate), rest)) => generated(alloc, rest),
        Some((Lexeme::Word(Word::Printf), rest)) => printed(alloc, rest),
        _ => declared_local(alloc, tokens),
    }
}

/// Reads an expression, up to the `;` after it.
#[tactic(auto, unfolding(lucid_parse_spec::specs::ReadStatement::ended_value))]
fn ended_value(alloc: Global, tokens: Tokens) -> Result<(E, Tokens), Stop>
    ensures { Reads result (spec.ended_value (said tokens.entry)) }
{
    ended(Sign::Semicolon, expression(alloc, tokens)?)
}

/// The arguments of a call, after its open parenthesis, up to the `;`.
#[tactic(auto, unfolding(lucid_parse_spec::specs::ReadStatement::ended_arguments))]
fn ended_arguments(alloc: Global, tokens: Tokens) -> Result<(Items<E>, Tokens), Stop>
    ensures { Reads result (spec.ended_arguments (said tokens.entry)) }
{
    ended(Sign::Semicolon, call_arguments(alloc, tokens)?)
}

/// Reads a statement after the name that it begins with.
#[tactic(auto, unfolding(lucid_parse_spec::specs::ReadStatement::after_its_name))]
fn after_its_name<'a>(
    alloc: Global,
    name: Ascii<'a>,
    tokens: Tokens<'a>,
) -> Result<(S, Tokens<'a>), Stop>
    ensures { Reads result (spec.after_its_name name.entry.bytes.now (said tokens.entry)) }
{
    match tokens.split() {
        Some((Lexeme::Sign(Sign::Equal), rest)) => {
            let ((name, value), rest) = with_name(alloc, name, ended_value(alloc, rest)?)?;
            Ok((S::Assign(name, value), rest))
        }
        Some((Lexeme::Sign(Sign::OpenParen), rest)) => {
            let ((name, arguments), rest) = with_name(alloc, name, ended_arguments(alloc, rest)?)?;
            Ok((S::Call(name, arguments), rest))
        }
        _ => Err(Stop::NoTree),
    }
}

#[tactic(auto, unfolding(lucid_parse_spec::specs::ReadStatement::declared))]
fn declared_local(alloc: Global, tokens: Tokens) -> Result<(S, Tokens), Stop>
    ensures { Reads result (spec.declared (said tokens.entry)) }
{
    let ((ty, name), rest) = ended(Sign::Equal, typed_name(alloc, tokens)?)?;
    match ended_value(alloc, rest) {
        Ok((value, rest)) => Ok((S::Declare(ty, name, value), rest)),
        Err(stop) => {
            drop(name);
            Err(stop)
        }
    }
}

/// Reads a call on an array, after `Array`.
#[tactic(auto, unfolding(lucid_parse_spec::specs::ReadStatement::array_statement))]
fn array_statement(alloc: Global, tokens: Tokens) -> Result<(S, Tokens), Stop>
    ensures { Reads result (spec.array_statement (said tokens.entry)) }
{
    let (call, rest) = ended(Sign::Semicolon, array_call(alloc, tokens)?)?;
    Ok((S::Array(call), rest))
}

/// Reads a statement after `return`.
#[tactic(auto, unfolding(lucid_parse_spec::specs::ReadStatement::returned))]
fn returned(alloc: Global, tokens: Tokens) -> Result<(S, Tokens), Stop>
    ensures { Reads result (spec.returned (said tokens.entry)) }
{
    match after(Sign::Semicolon, tokens) {
        Some(rest) => Ok((S::Return(None), rest)),
        None => {
            let (value, rest) = ended_value(alloc, tokens)?;
            Ok((S::Return(Some(value)), rest))
        }
    }
}

/// Reads a statement after `generate`.
#[tactic(auto, unfolding(lucid_parse_spec::specs::ReadStatement::generated))]
fn generated(alloc: Global, tokens: Tokens) -> Result<(S, Tokens), Stop>
    ensures { Reads result (spec.generated (said tokens.entry)) }
{
    let (event, rest) = ended(Sign::Semicolon, event(alloc, tokens)?)?;
    Ok((S::Generate(event.into_inner()), rest))
}

fn quoted(alloc: Global, tokens: Tokens) -> Result<(Id, Tokens), Stop>
    ensures { Reads result (spec.quoted (said tokens.entry)) }
{
    match tokens.split() {
        Some((Lexeme::Text(text), rest)) => Ok((Id::new(alloc, text.bytes)?, rest)),
        _ => Err(Stop::NoTree),
    }
}

/// Reads a statement after `printf`.
#[tactic(auto, unfolding(lucid_parse_spec::specs::ReadStatement::printed))]
fn printed(alloc: Global, tokens: Tokens) -> Result<(S, Tokens), Stop>
    ensures { Reads result (spec.printed (said tokens.entry)) }
{
    let rest = expect(Sign::OpenParen, tokens)?;
    let (text, rest) = quoted(alloc, rest)?;
    match operands(alloc, rest) {
        Ok((operands, rest)) => {
            let read = ended(Sign::CloseParen, ((text, operands), rest))?;
            let ((text, operands), rest) = ended(Sign::Semicolon, read)?;
            Ok((S::Printf(text, operands), rest))
        }
        Err(stop) => {
            drop(text);
            Err(stop)
        }
    }
}
