// The pieces of a text, and the content of a refusal.
ghost use Rattle.std.specs.Prelude.{◌≡◌};
ghost use Rattle.lucid_lex.specs.declared.token.LexError.TheVariants.{Memory};

use crate::sign::Sign;
use crate::word::Word;
use lucid_base::Span;
use std::alloc::AllocFailed;

/// The kind of a token. Two names, and two texts, differ only by their bytes, which are in the text at the span.
#[derive(Clone, Copy)]
pub enum Kind {
    /// A name, which is no reserved word.
    Name,
    /// A number below 2 ^ 64, written in decimal or, after `0x`, in hexadecimal digits.
    Number(u64),
    /// A text between quotes.
    Text,
    /// A reserved word.
    Word(Word),
    /// A sign.
    Sign(Sign),
}

/// A token and its position. The span of a text has both its quotes.
#[derive(Clone, Copy)]
pub struct Token {
    pub kind: Kind,
    pub span: Span,
}

/// Why a text has no tokens.
#[derive(Clone, Copy, Debug, PartialEq, Eq)]
pub enum LexError {
    /// No token, blank or comment begins at this byte, counted from 0.
    NoToken(usize),
    /// Memory ran out.
    Memory,
}

impl<T: Drop> From<AllocFailed<T>> for LexError {
    ghost from_gives = { λ _ e. e ≡ Memory };

    fn from(_error: AllocFailed<T>) -> LexError {
        LexError::Memory
    }
}
