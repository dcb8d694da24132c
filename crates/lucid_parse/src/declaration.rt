// Declarations and their parameters.
ghost use Rattle.lucid_parse_spec.specs.Reader as reader;
ghost use Rattle.lucid_parse_expression.specs.Reads.{Reads};
ghost use Rattle.lucid_parse_expression.specs.Tokens.{said};
ghost use Rattle.lucid_parse_spec.specs.ReadDeclaration as spec;
ghost use Rattle.lucid_parse.specs.Parts as parts;

use crate::statement::body;
use lucid_base::{Id, Items};
use lucid_lex::{Sign, Word};
use lucid_parse_expression::{
    Lexeme, Stop, Tokens, after, array_type, ended, expect, expect_name, expect_word, name, number,
    separated, ty, typed_name,
};
use lucid_parse_tree::{DeclKind, P, Size, Ty};
use std::alloc::Global;

#[tactic(auto, unfolding(lucid_parse_spec::specs::ReadDeclaration::declaration))]
pub(crate) fn declaration(alloc: Global, tokens: Tokens) -> Result<(DeclKind, Tokens), Stop>
    ensures { Reads result (spec.declaration (said tokens.entry)) }
{
    match tokens.split() {
        Some((Lexeme::Word(Word::Const), rest)) => constant(alloc, rest),
        Some((Lexeme::Word(Word::Global), rest)) => global_array(alloc, rest),
        Some((Lexeme::Word(Word::Memop), rest)) => memop(alloc, rest),
        Some((Lexeme::Word(Word::Event), rest)) => event_declared(alloc, rest),
        Some((Lexeme::Word(Word::Handle), rest)) => handler(alloc, rest),
        Some((Lexeme::Word(Word::Fun), rest)) => function(alloc, rest),
        Some((Lexeme::Word(Word::Group), rest)) => group(alloc, rest),
        _ => Err(Stop::NoTree),
    }
}

#[tactic(auto, unfolding(lucid_parse_spec::specs::ReadDeclaration::parameter))]
fn parameter(alloc: Global, tokens: Tokens) -> Result<(P, Tokens), Stop>
    ensures { Reads result (spec.parameter (said tokens.entry)) }
{
    match tokens.split() {
        Some((Lexeme::Word(Word::ArrayCalls), rest)) => {
            let ((short, width), rest) = array_type(rest)?;
            let (name, rest) = name(alloc, rest)?;
            Ok((P::Array { short, width, name }, rest))
        }
        _ => {
            let ((ty, name), rest) = typed_name(alloc, tokens)?;
            Ok((P::Value(ty, name), rest))
        }
    }
}

/// Reads parameters with commas between them.
fn some_parameters<'a>(alloc: Global, tokens: Tokens<'a>) -> Result<(Items<P>, Tokens<'a>), Stop>
    ensures { Reads result (reader.separated spec.parameter (said tokens.entry)) }
{
    separated(alloc, |part| parameter(alloc, part), tokens)
}

/// Reads parameters in parentheses.
#[tactic(auto, unfolding(lucid_parse_spec::specs::ReadDeclaration::parameters))]
fn parameters(alloc: Global, tokens: Tokens) -> Result<(Items<P>, Tokens), Stop>
    ensures { Reads result (spec.parameters (said tokens.entry)) }
{
    let rest = expect(Sign::OpenParen, tokens)?;
    match after(Sign::CloseParen, rest) {
        Some(rest) => Ok((Items::new(alloc), rest)),
        None => { ended(Sign::CloseParen, some_parameters(alloc, rest)?) }
    }
}

#[tactic(auto, unfolding(lucid_parse_spec::specs::ReadDeclaration::constant))]
fn constant(alloc: Global, tokens: Tokens) -> Result<(DeclKind, Tokens), Stop>
    ensures { Reads result (spec.constant (said tokens.entry)) }
{
    let ((ty, name), rest) = ended(Sign::Equal, typed_name(alloc, tokens)?)?;
    match number(rest) {
        Ok((value, rest)) => {
            let (name, rest) = ended(Sign::Semicolon, (name, rest))?;
            Ok((DeclKind::Const(ty, name, value), rest))
        }
        Err(stop) => {
            drop(name);
            Err(stop)
        }
    }
}

#[tactic(auto, unfolding(lucid_parse_spec::specs::ReadDeclaration::size))]
fn array_size(alloc: Global, tokens: Tokens) -> Result<(Size, Tokens), Stop>
    ensures { Reads result (spec.size (said tokens.entry)) }
{
    match tokens.split() {
        Some((Lexeme::Number(n), rest)) => Ok((Size::Number(n), rest)),
        Some((Lexeme::Name(name), rest)) => Ok((Size::Named(Id::new(alloc, name.bytes)?), rest)),
        _ => Err(Stop::NoTree),
    }
}

/// `Array.create(SIZE);`
#[tactic(auto, unfolding(lucid_parse_spec::specs::ReadDeclaration::created))]
fn created(alloc: Global, tokens: Tokens) -> Result<(Size, Tokens), Stop>
    ensures { Reads result (spec.created (said tokens.entry)) }
{
    let rest = expect_word(Word::ArrayCalls, tokens)?;
    let rest = expect(Sign::Dot, rest)?;
    let rest = expect_name(b"create", rest)?;
    let rest = expect(Sign::OpenParen, rest)?;
    let size = ended(Sign::CloseParen, array_size(alloc, rest)?)?;
    ended(Sign::Semicolon, size)
}

#[tactic(auto, unfolding(lucid_parse_spec::specs::ReadDeclaration::global_array))]
fn global_array(alloc: Global, tokens: Tokens) -> Result<(DeclKind, Tokens), Stop>
    ensures { Reads result (spec.global_array (said tokens.entry)) }
{
    let rest = expect_word(Word::ArrayCalls, tokens)?;
    let ((short, width), rest) = array_type(rest)?;
    let (name, rest) = ended(Sign::Equal, name(alloc, rest)?)?;
    match created(alloc, rest) {
        Ok((size, rest)) => Ok((
            DeclKind::Global {
                short,
                width,
                name,
                size,
            },
            rest,
        )),
        Err(stop) => {
            drop(name);
            Err(stop)
        }
    }
}

/// The two parameters of a memop, in parentheses.
#[tactic(auto, unfolding(lucid_parse_spec::specs::ReadDeclaration::two_parameters))]
fn two_parameters(alloc: Global, tokens: Tokens) -> Result<(((Ty, Id), (Ty, Id)), Tokens), Stop>
    ensures { Reads result (spec.two_parameters (said tokens.entry)) }
{
    let rest = expect(Sign::OpenParen, tokens)?;
    let (first, rest) = ended(Sign::Comma, typed_name(alloc, rest)?)?;
    match typed_name(alloc, rest) {
        Ok((second, rest)) => ended(Sign::CloseParen, ((first, second), rest)),
        Err(stop) => {
            drop(first);
            Err(stop)
        }
    }
}

#[tactic(auto, unfolding(lucid_parse_spec::specs::ReadDeclaration::memop))]
fn memop(alloc: Global, tokens: Tokens) -> Result<(DeclKind, Tokens), Stop>
    ensures { Reads result (spec.memop (said tokens.entry)) }
{
    let (name, rest) = name(alloc, tokens)?;
    match two_parameters(alloc, rest) {
        Ok(((first, second), rest)) => match body(alloc, rest) {
            Ok((body, rest)) => Ok((
                DeclKind::Memop {
                    name,
                    first,
                    second,
                    body,
                },
                rest,
            )),
            Err(stop) => {
                drop(name);
                drop(first);
                drop(second);
                Err(stop)
            }
        },
        Err(stop) => {
            drop(name);
            Err(stop)
        }
    }
}

/// A name, and the parameters after it.
fn signature(alloc: Global, tokens: Tokens) -> Result<((Id, Items<P>), Tokens), Stop>
    ensures { Reads result (parts.signature (said tokens.entry)) }
{
    let (name, rest) = name(alloc, tokens)?;
    match parameters(alloc, rest) {
        Ok((params, rest)) => Ok(((name, params), rest)),
        Err(stop) => {
            drop(name);
            Err(stop)
        }
    }
}

#[tactic(auto, unfolding(lucid_parse_spec::specs::ReadDeclaration::event_declared))]
fn event_declared(alloc: Global, tokens: Tokens) -> Result<(DeclKind, Tokens), Stop>
    ensures { Reads result (spec.event_declared (said tokens.entry)) }
{
    let ((name, params), rest) = ended(Sign::Semicolon, signature(alloc, tokens)?)?;
    Ok((DeclKind::Event { name, params }, rest))
}

#[tactic(auto, unfolding(lucid_parse_spec::specs::ReadDeclaration::handler))]
fn handler(alloc: Global, tokens: Tokens) -> Result<(DeclKind, Tokens), Stop>
    ensures { Reads result (spec.handler (said tokens.entry)) }
{
    let ((name, params), rest) = signature(alloc, tokens)?;
    match body(alloc, rest) {
        Ok((body, rest)) => Ok((DeclKind::Handle { name, params, body }, rest)),
        Err(stop) => {
            drop(name);
            drop(params);
            Err(stop)
        }
    }
}

/// The type of a function's answer, or `void`.
#[tactic(auto, unfolding(lucid_parse_spec::specs::ReadDeclaration::answer))]
fn answer(tokens: Tokens) -> Result<(Option<Ty>, Tokens), Stop>
    ensures { Reads result (spec.answer (said tokens.entry)) }
{
    match tokens.split() {
        Some((Lexeme::Word(Word::Void), rest)) => Ok((None, rest)),
        _ => {
            let (ty, rest) = ty(tokens)?;
            Ok((Some(ty), rest))
        }
    }
}

#[tactic(auto, unfolding(lucid_parse_spec::specs::ReadDeclaration::function))]
fn function(alloc: Global, tokens: Tokens) -> Result<(DeclKind, Tokens), Stop>
    ensures { Reads result (spec.function (said tokens.entry)) }
{
    let (answer, rest) = answer(tokens)?;
    let ((name, params), rest) = signature(alloc, rest)?;
    match body(alloc, rest) {
        Ok((body, rest)) => Ok((
            DeclKind::Fun {
                answer,
                name,
                params,
                body,
            },
            rest,
        )),
        Err(stop) => {
            drop(name);
            drop(params);
            Err(stop)
        }
    }
}

/// Numbers with commas between them.
fn numbers<'a>(alloc: Global, tokens: Tokens<'a>) -> Result<(Items<u64>, Tokens<'a>), Stop>
    ensures { Reads result (reader.separated reader.number (said tokens.entry)) }
{
    separated(alloc, |part| number(part), tokens)
}

#[tactic(auto, unfolding(lucid_parse_spec::specs::ReadDeclaration::group))]
fn group(alloc: Global, tokens: Tokens) -> Result<(DeclKind, Tokens), Stop>
    ensures { Reads result (spec.group (said tokens.entry)) }
{
    let read = ended(Sign::Equal, name(alloc, tokens)?)?;
    let (name, rest) = ended(Sign::OpenBrace, read)?;
    match numbers(alloc, rest) {
        Ok((members, rest)) => {
            let read = ended(Sign::CloseBrace, ((name, members), rest))?;
            let ((name, members), rest) = ended(Sign::Semicolon, read)?;
            Ok((DeclKind::Group(name, members), rest))
        }
        Err(stop) => {
            drop(name);
            Err(stop)
        }
    }
}
