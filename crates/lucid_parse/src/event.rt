// The event of a `generate`.
ghost use Rattle.std.specs.Prelude.{Some};
ghost use Rattle.lucid_parse_expression.specs.Reads.{Reads};
ghost use Rattle.lucid_parse_tree.specs.declared.tree.V.TheVariants as v;
ghost use Rattle.lucid_parse_expression.specs.Tokens.{said};
ghost use Rattle.lucid_parse_spec.specs.ReadStatement as spec;
ghost use Rattle.lucid_parse.specs.Parts as parts;

use crate::parts::{with_name, with_value};
use lucid_base::Boxed;
use lucid_lex::{Sign, Word};
use lucid_parse_expression::{Ascii, Lexeme, Stop, Tokens, call_arguments, ended, expect};
use lucid_parse_tree::{E, V};
use std::alloc::Global;

#[tactic(auto, unfolding(lucid_parse_spec::specs::ReadStatement::event))]
pub(crate) fn event(alloc: Global, tokens: Tokens) -> Result<(Boxed<V>, Tokens), Stop>
    ensures { Reads result (spec.event (said tokens.entry)) }
{
    event_at(alloc, tokens.len(), tokens)
}

/// Reads an event with at most `depth` events within one another.
#[cycle(event)]
#[tactic(auto, unfolding(lucid_parse_spec::specs::ReadStatement::event_at))]
fn event_at(alloc: Global, depth: usize, tokens: Tokens) -> Result<(Boxed<V>, Tokens), Stop>
    ensures { Reads result (spec.event_at depth (said tokens.entry)) }
{
    if depth == 0 {
        return Err(Stop::NoTree);
    }
    event_within(alloc, depth - 1, tokens)
}

#[cycle(event)]
#[tactic(auto, unfolding(lucid_parse_spec::specs::ReadStatement::event_within))]
fn event_within(alloc: Global, depth: usize, tokens: Tokens) -> Result<(Boxed<V>, Tokens), Stop>
    ensures { Reads result (spec.event_within (spec.event_at depth) (said tokens.entry)) }
{
    match tokens.split() {
        Some((Lexeme::Sign(Sign::OpenParen), rest)) => {
            in_parentheses(alloc, event_at(alloc, depth, rest)?)
        }
        Some((Lexeme::Name(name), rest)) => called(alloc, name, rest),
        Some((Lexeme::Word(Word::EventCalls), rest)) => {
            let rest = expect(Sign::Dot, rest)?;
            match rest.split() {
                Some((Lexeme::Name(name), rest)) => event_by(alloc, depth, name, rest),
                _ => Err(Stop::NoTree),
            }
        }
        _ => Err(Stop::NoTree),
    }
}

/// Reads an event after `Event.` and this name.
#[cycle(event)]
#[tactic(auto, unfolding(lucid_parse_spec::specs::ReadStatement::event_by))]
fn event_by<'a>(
    alloc: Global,
    depth: usize,
    name: Ascii<'a>,
    tokens: Tokens<'a>,
) -> Result<(Boxed<V>, Tokens<'a>), Stop>
    ensures { Reads result (spec.event_by (spec.event_at depth) name.entry.bytes.now (said tokens.entry)) }
{
    if name.bytes == b"delay".as_slice() {
        delayed(alloc, event_pair(alloc, depth, tokens)?)
    } else if name.bytes == b"locate".as_slice() {
        located(alloc, event_pair(alloc, depth, tokens)?)
    } else {
        Err(Stop::NoTree)
    }
}

/// An event and an expression, in parentheses.
#[cycle(event)]
#[tactic(auto, unfolding(lucid_parse_spec::specs::ReadStatement::event_pair))]
fn event_pair(alloc: Global, depth: usize, tokens: Tokens) -> Result<((Boxed<V>, E), Tokens), Stop>
    ensures { Reads result (spec.event_pair (spec.event_at depth) (said tokens.entry)) }
{
    let rest = expect(Sign::OpenParen, tokens)?;
    let event = ended(Sign::Comma, event_at(alloc, depth, rest)?)?;
    with_value(alloc, event)
}

// Events made of the parts that were read, with the rest after them. Each is boxed at once: an event by value is expensive to drop.

fn in_parentheses<'a>(
    alloc: Global,
    inner: (Boxed<V>, Tokens<'a>),
) -> Result<(Boxed<V>, Tokens<'a>), Stop>
    ensures { Reads result (parts.event_in_parentheses (inner.entry.0, said inner.entry.1)) }
{
    let (inner, rest) = ended(Sign::CloseParen, inner)?;
    Ok((Boxed::new(alloc, V::Paren(inner))?, rest))
}

fn called<'a>(
    alloc: Global,
    name: Ascii<'a>,
    tokens: Tokens<'a>,
) -> Result<(Boxed<V>, Tokens<'a>), Stop>
    ensures { Reads result (parts.event_called name.entry.bytes.now (said tokens.entry)) }
{
    let rest = expect(Sign::OpenParen, tokens)?;
    let ((name, arguments), rest) = with_name(alloc, name, call_arguments(alloc, rest)?)?;
    Ok((Boxed::new(alloc, V::Call(name, arguments))?, rest))
}

fn delayed<'a>(
    alloc: Global,
    pair: ((Boxed<V>, E), Tokens<'a>),
) -> Result<(Boxed<V>, Tokens<'a>), Stop>
    ensures { Reads result (Some (v.Delay pair.entry.0.0 pair.entry.0.1, said pair.entry.1)) }
{
    let ((event, by), rest) = pair;
    Ok((Boxed::new(alloc, V::Delay(event, by))?, rest))
}

fn located<'a>(
    alloc: Global,
    pair: ((Boxed<V>, E), Tokens<'a>),
) -> Result<(Boxed<V>, Tokens<'a>), Stop>
    ensures { Reads result (Some (v.Locate pair.entry.0.0 pair.entry.0.1, said pair.entry.1)) }
{
    let ((event, at), rest) = pair;
    Ok((Boxed::new(alloc, V::Locate(event, at))?, rest))
}
