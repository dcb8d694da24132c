// Small parts of the grammar: single tokens, widths and types. Each function takes its part off the front of the tokens
// and gives the rest with it, or says that there is no such part: `NoTree`, or None if the part may be left out.
ghost use Rattle.std.specs.Prelude.{◌≡◌, option_map};
ghost use Rattle.lucid_parse_spec.specs.Reader as spec;
ghost use Rattle.lucid_parse_expression.specs.Reads.{Ends, Reads, Gives, Leaves};
ghost use Rattle.lucid_parse_expression.specs.Tokens.{said};

use crate::error::Stop;
use crate::lexeme::Lexeme;
use crate::tokens::Tokens;
use lucid_base::{Id, Items};
use lucid_lex::{Sign, Word};
use lucid_parse_tree::Ty;
use std::alloc::Global;

/// The tokens after the sign, if they begin with it.
pub fn after(sign: Sign, tokens: Tokens) -> Option<Tokens>
    ensures { option_map (λ rest. said rest) result ≡ spec.after sign (said tokens.entry) }
{
    match tokens.split() {
        Some((Lexeme::Sign(found), rest)) => { if found == sign { Some(rest) } else { None } }
        _ => None,
    }
}

/// The tokens after the sign.
pub fn expect(sign: Sign, tokens: Tokens) -> Result<Tokens, Stop>
    ensures { Leaves result (spec.after sign (said tokens.entry)) }
{
    match after(sign, tokens) {
        Some(rest) => Ok(rest),
        None => Err(Stop::NoTree),
    }
}

/// The part that was read, if the sign follows it.
pub fn ended<'a, T: Drop>(sign: Sign, read: (T, Tokens<'a>)) -> Result<(T, Tokens<'a>), Stop>
    ensures { Ends sign read.entry result }
{
    let (part, rest) = read;
    let rest = expect(sign, rest)?;
    Ok((part, rest))
}

/// The tokens after the word.
pub fn expect_word(word: Word, tokens: Tokens) -> Result<Tokens, Stop>
    ensures { Leaves result (spec.after_word word (said tokens.entry)) }
{
    match tokens.split() {
        Some((Lexeme::Word(found), rest)) => {
            if found == word {
                Ok(rest)
            } else {
                Err(Stop::NoTree)
            }
        }
        _ => Err(Stop::NoTree),
    }
}

/// The tokens after the name with these bytes, if they begin with it.
pub fn after_name<'a>(bytes: &[u8], tokens: Tokens<'a>) -> Option<Tokens<'a>>
    ensures { option_map (λ rest. said rest) result ≡ spec.after_name bytes.now (said tokens.entry) }
{
    match tokens.split() {
        Some((Lexeme::Name(found), rest)) => {
            if found.bytes == bytes {
                Some(rest)
            } else {
                None
            }
        }
        _ => None,
    }
}

/// The tokens after the name with these bytes.
pub fn expect_name<'a>(bytes: &[u8], tokens: Tokens<'a>) -> Result<Tokens<'a>, Stop>
    ensures { Leaves result (spec.after_name bytes.now (said tokens.entry)) }
{
    match after_name(bytes, tokens) {
        Some(rest) => Ok(rest),
        None => Err(Stop::NoTree),
    }
}

/// A name, by its bytes.
pub fn name(alloc: Global, tokens: Tokens) -> Result<(Id, Tokens), Stop>
    ensures { Reads result (spec.name (said tokens.entry)) }
{
    match tokens.split() {
        Some((Lexeme::Name(found), rest)) => Ok((Id::new(alloc, found.bytes)?, rest)),
        _ => Err(Stop::NoTree),
    }
}

/// A number, by its value.
pub fn number(tokens: Tokens) -> Result<(u64, Tokens), Stop>
    ensures { Reads result (spec.number (said tokens.entry)) }
{
    match tokens.split() {
        Some((Lexeme::Number(n), rest)) => Ok((n, rest)),
        _ => Err(Stop::NoTree),
    }
}

/// The list, if it isn't empty, and `NoTree` if it is.
pub fn some<T: Drop>(items: Items<T>) -> Result<Items<T>, Stop>
    ensures { Gives result (spec.some items) }
{
    if items.is_empty() {
        Err(Stop::NoTree)
    } else {
        Ok(items)
    }
}

#[tactic(auto, unfolding(lucid_parse_spec::specs::Reader::width_end))]
fn width_end(tokens: Tokens) -> Result<(u64, Tokens), Stop>
    ensures { Reads result (spec.width_end (said tokens.entry)) }
{
    ended(Sign::ShiftRight, number(tokens)?)
}

/// `<<NUMBER>>`
#[tactic(auto, unfolding(lucid_parse_spec::specs::Reader::width))]
pub(crate) fn width(tokens: Tokens) -> Result<(u64, Tokens), Stop>
    ensures { Reads result (spec.width (said tokens.entry)) }
{
    let rest = expect(Sign::ShiftLeft, tokens)?;
    width_end(rest)
}

/// `<<NUMBER>>` if it exists.
#[tactic(auto, unfolding(lucid_parse_spec::specs::Reader::width_if))]
pub(crate) fn width_if(tokens: Tokens) -> Result<(Option<u64>, Tokens), Stop>
    ensures { Reads result (spec.width_if (said tokens.entry)) }
{
    match after(Sign::ShiftLeft, tokens) {
        None => Ok((None, tokens)),
        Some(rest) => {
            let (n, rest) = width_end(rest)?;
            Ok((Some(n), rest))
        }
    }
}

/// `int`, with a width or without, or `bool`.
#[tactic(auto, unfolding(lucid_parse_spec::specs::Reader::ty))]
pub fn ty(tokens: Tokens) -> Result<(Ty, Tokens), Stop>
    ensures { Reads result (spec.ty (said tokens.entry)) }
{
    match tokens.split() {
        Some((Lexeme::Word(Word::Int), rest)) => {
            let (width, rest) = width_if(rest)?;
            Ok((Ty::Int(width), rest))
        }
        Some((Lexeme::Word(Word::Bool), rest)) => Ok((Ty::Bool, rest)),
        _ => Err(Stop::NoTree),
    }
}

/// A type and a name.
#[tactic(auto, unfolding(lucid_parse_spec::specs::Reader::typed_name))]
pub fn typed_name(alloc: Global, tokens: Tokens) -> Result<((Ty, Id), Tokens), Stop>
    ensures { Reads result (spec.typed_name (said tokens.entry)) }
{
    let (ty, rest) = ty(tokens)?;
    let (name, rest) = name(alloc, rest)?;
    Ok(((ty, name), rest))
}

/// The tokens after `Array` in a type: whether `.t` is absent, and the width.
#[tactic(auto, unfolding(lucid_parse_spec::specs::Reader::array_type))]
pub fn array_type(tokens: Tokens) -> Result<((bool, u64), Tokens), Stop>
    ensures { Reads result (spec.array_type (said tokens.entry)) }
{
    match after(Sign::Dot, tokens) {
        None => {
            let (width, rest) = width(tokens)?;
            Ok(((true, width), rest))
        }
        Some(rest) => {
            let rest = expect_name(b"t", rest)?;
            let (width, rest) = width(rest)?;
            Ok(((false, width), rest))
        }
    }
}
