// Parts beside others. Each takes the part that was read by value, so that no caller holds it while a call may fail: a proof
// follows each value that is held along each way out.
ghost use Rattle.std.specs.Prelude.{Some};
ghost use Rattle.lucid_parse_expression.specs.Reads.{Reads};
ghost use Rattle.lucid_parse_expression.specs.Tokens.{said};
ghost use Rattle.lucid_parse.specs.Parts as spec;

use lucid_base::Id;
use lucid_lex::Sign;
use lucid_parse_expression::{Ascii, Stop, Tokens, ended, expression};
use lucid_parse_tree::E;
use std::alloc::Global;

/// The part that was read, with this name.
pub(crate) fn with_name<'a, T: Drop>(
    alloc: Global,
    name: Ascii<'a>,
    read: (T, Tokens<'a>),
) -> Result<((Id, T), Tokens<'a>), Stop>
    ensures { Reads result (Some ((name.entry.bytes.now, read.entry.0), said read.entry.1)) }
{
    let (part, rest) = read;
    let name = Id::new(alloc, name.bytes)?;
    Ok(((name, part), rest))
}

/// The part that was read, with the expression after it, up to the close parenthesis.
pub(crate) fn with_value<'a, T: Drop>(
    alloc: Global,
    read: (T, Tokens<'a>),
) -> Result<((T, E), Tokens<'a>), Stop>
    ensures { Reads result (spec.with_value (read.entry.0, said read.entry.1)) }
{
    let (part, rest) = read;
    let (value, rest) = ended(Sign::CloseParen, expression(alloc, rest)?)?;
    Ok(((part, value), rest))
}
