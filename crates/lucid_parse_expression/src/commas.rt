// Lists of parts with commas between them: the caller's closure reads each part.
ghost use Rattle.std.specs.Prelude.{◌≡◌, [], ◌∷◌, ◌++◌, IfOk};
ghost use Rattle.lucid_parse_spec.specs.Reader as spec;
ghost use Rattle.lucid_parse_spec.specs.Reader.{Parser};
ghost use Rattle.lucid_parse_expression.specs.Reads.{Reads, ReadsAll};
ghost use Rattle.lucid_parse_expression.specs.Tokens.{said};

use crate::error::Stop;
use crate::parts::after;
use crate::tokens::Tokens;
use lucid_base::Items;
use lucid_lex::Sign;
use std::alloc::{AllocError, Global};

/// One part or more, each read by `part`.
#[tactic(auto, unfolding(lucid_parse_spec::specs::Reader::separated, lucid_parse_spec::specs::Reader::repeat))]
pub fn separated<'a, T: Drop, F: Fn(Tokens<'a>) -> Result<(T, Tokens<'a>), Stop>>(
    alloc: Global,
    part: F,
    tokens: Tokens<'a>,
) -> Result<(Items<T>, Tokens<'a>), Stop>
    requires { F.IsAlwaysCallable part }
    ensures { (reads : Parser T) → ReadsAll (F.post part) reads → Reads result (spec.separated reads (said tokens.entry)) }
{
    let (mut all, mut rest) = one(alloc, part(tokens)?)?;
    for _turn in 0..rest.len() {
        match after(Sign::Comma, rest) {
            None => return Ok((all, rest)),
            Some(more) => match part(more) {
                Ok(next) => {
                    let (longer, after) = added(all, next)?;
                    all = longer;
                    rest = after;
                }
                Err(stop) => {
                    drop(all);
                    return Err(stop);
                }
            },
        }
    }
    Ok((all, rest))
}

/// A list of the part that was read.
pub(crate) fn one<'a, T: Drop>(
    alloc: Global,
    read: (T, Tokens<'a>),
) -> Result<(Items<T>, Tokens<'a>), AllocError>
    ensures { IfOk result (λ x. (x.0 ≡ read.entry.0 ∷ []) × (said x.1 ≡ said read.entry.1)) }
{
    added(Items::new(alloc), read)
}

/// The list with the part that was read behind it.
pub fn added<'a, T: Drop>(
    all: Items<T>,
    read: (T, Tokens<'a>),
) -> Result<(Items<T>, Tokens<'a>), AllocError>
    ensures { IfOk result (λ x. (x.0 ≡ all ++ read.entry.0 ∷ []) × (said x.1 ≡ said read.entry.1)) }
{
    let mut all = all;
    let (next, rest) = read;
    all.push(next)?;
    Ok((all, rest))
}
