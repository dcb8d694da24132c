// Why tokens are no program.
use std::alloc::AllocError;

/// Why tokens have no tree.
#[derive(Clone, Copy, Debug, PartialEq, Eq)]
pub enum ParseError {
    /// No tree spells the tokens. The declaration that begins at this token, counted from 1, is the first that has none.
    NoTree(usize),
    /// A count of nesting passes its limit, first at this token, counted from 1.
    TooDeep(usize),
    /// Memory ran out.
    Memory,
}

impl From<AllocError> for ParseError {
    ghost use Rattle.std.specs.Prelude.{◌≡◌};
    ghost use Rattle.lucid_parse.specs.declared.error.ParseError.TheVariants as errors;

    ghost from_gives = { λ _ e. e ≡ errors.Memory };

    fn from(_error: AllocError) -> ParseError {
        ParseError::Memory
    }
}
