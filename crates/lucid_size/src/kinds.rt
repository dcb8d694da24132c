// The tokens of templates and uses: tests on the kind of a token.
ghost use Rattle.std.specs.Prelude.{◌≡◌, ◌<◌, ◌^◌, ◌-◌};
ghost use Rattle.lucid_size.specs.Kinds as spec;

use lucid_lex::{Kind, Sign, Word};

/// The word `fun`.
pub(crate) fn is_fun(kind: Kind) -> bool
    ensures { result ≡ spec.is_fun kind }
{
    match kind {
        Kind::Word(Word::Fun) => true,
        _ => false,
    }
}

/// A name.
pub(crate) fn is_name(kind: Kind) -> bool
    ensures { result ≡ spec.is_name kind }
{
    match kind {
        Kind::Name => true,
        _ => false,
    }
}

/// `<<`.
pub(crate) fn opens_width(kind: Kind) -> bool
    ensures { result ≡ spec.opens_width kind }
{
    match kind {
        Kind::Sign(Sign::ShiftLeft) => true,
        _ => false,
    }
}

/// `>>`.
pub(crate) fn closes_width(kind: Kind) -> bool
    ensures { result ≡ spec.closes_width kind }
{
    match kind {
        Kind::Sign(Sign::ShiftRight) => true,
        _ => false,
    }
}

/// `(`.
pub(crate) fn opens_paren(kind: Kind) -> bool
    ensures { result ≡ spec.opens_paren kind }
{
    match kind {
        Kind::Sign(Sign::OpenParen) => true,
        _ => false,
    }
}

/// `{`.
pub(crate) fn opens_brace(kind: Kind) -> bool
    ensures { result ≡ spec.opens_brace kind }
{
    match kind {
        Kind::Sign(Sign::OpenBrace) => true,
        _ => false,
    }
}

/// `}`.
pub(crate) fn closes_brace(kind: Kind) -> bool
    ensures { result ≡ spec.closes_brace kind }
{
    match kind {
        Kind::Sign(Sign::CloseBrace) => true,
        _ => false,
    }
}

/// The open brackets after one more token, never below 0.
pub(crate) fn open_after(opened: usize, kind: Kind) -> usize
    requires { opened < 2 ^ 64 - 1 }
    ensures { result ≡ spec.open_after opened kind }
{
    match kind {
        Kind::Sign(Sign::OpenParen) | Kind::Sign(Sign::OpenBrace) => opened + 1,
        Kind::Sign(Sign::CloseParen) | Kind::Sign(Sign::CloseBrace) => opened.saturating_sub(1),
        _ => opened,
    }
}
