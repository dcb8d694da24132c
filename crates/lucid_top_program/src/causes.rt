// Errors of the parts below, as refusals of a call.
ghost use Rattle.std.specs.Prelude.{◌≡◌};
ghost use Rattle.lucid_top_program.specs.Causes as causes;

use lucid_conf::ConfError;
use lucid_lex::LexError;
use lucid_parse::ParseError;
use lucid_size::SizeError;
use lucid_top_words::{BadSizes, Refusal};
use lucid_types::TypeError;

/// Why a text has no tokens.
pub(crate) fn of_lex(error: LexError) -> Refusal
    ensures { result ≡ causes.of_lex error }
{
    match error {
        LexError::NoToken(at) => Refusal::NoToken(at),
        LexError::Memory => Refusal::Memory,
    }
}

/// Why a text has no expansion.
pub(crate) fn of_size(error: SizeError) -> Refusal
    ensures { result ≡ causes.of_size error }
{
    match error {
        SizeError::Broken(token) => Refusal::Sizes(BadSizes::Broken(token)),
        SizeError::Twice { name } => Refusal::Sizes(BadSizes::Twice(name)),
        SizeError::TooBig => Refusal::Sizes(BadSizes::TooLong),
        SizeError::Memory => Refusal::Memory,
    }
}

/// Why tokens have no tree.
pub(crate) fn of_parse(error: ParseError) -> Refusal
    ensures { result ≡ causes.of_parse error }
{
    match error {
        ParseError::NoTree(n) => Refusal::NoTree(n),
        ParseError::TooDeep(n) => Refusal::TooDeep(n),
        ParseError::Memory => Refusal::Memory,
    }
}

/// Why a tree has no core.
pub(crate) fn of_types(error: TypeError) -> Refusal
    ensures { result ≡ causes.of_types error }
{
    match error {
        TypeError::NoRule { decl, line } => Refusal::NoRule { decl, line },
        TypeError::Limit { what, decl, line } => Refusal::PassesLimit { what, decl, line },
        TypeError::Memory => Refusal::Memory,
    }
}

/// Why a limits file gives nothing.
pub(crate) fn of_limits(error: ConfError) -> Refusal
    ensures { result ≡ causes.of_limits error }
{
    match error {
        ConfError::NotJson => Refusal::LimitsNotJson,
        ConfError::BadField { key, .. } => Refusal::LimitsKey(key),
        ConfError::Memory => Refusal::Memory,
    }
}

/// Why a scenario gives nothing.
pub(crate) fn of_scene(error: ConfError) -> Refusal
    ensures { result ≡ causes.of_scene error }
{
    match error {
        ConfError::NotJson => Refusal::SceneNotJson,
        ConfError::BadField { key, place } => Refusal::SceneKey { key, place },
        ConfError::Memory => Refusal::Memory,
    }
}
