// The content of a token, and tokens taken by their content: the grammar sees the tokens still to read as a list of lexemes (`said`).
ghost use Rattle.std.specs.Prelude.{◌≡◌, length, All};
ghost use Rattle.lucid_lex.specs.Reading.{IsTokenOf, bytes_of};
ghost use Rattle.lucid_parse_spec.specs.Lexemes.{lexeme_of, lexemes_of, within_quotes};
ghost use Rattle.lucid_parse_expression.specs.Within.{IsWithin};
ghost use Rattle.lucid_parse_expression.specs.Tokens.{says, said, front};

use crate::ascii::Ascii;
use crate::tokens::Tokens;
use lucid_lex::{Kind, Sign, Token, Word};

/// The content of a token. Two tokens are the same to the grammar if their content is.
#[derive(Clone, Copy)]
pub enum Lexeme<'a> {
    Name(Ascii<'a>),
    Number(u64),
    /// A text, by the bytes between its quotes.
    Text(Ascii<'a>),
    Word(Word),
    Sign(Sign),
}

impl<'a> Tokens<'a> {
    /// All tokens of a text, from its first.
    #[tactic(auto, unfolding(crate::specs::Tokens::said))]
    pub fn new(text: &'a [u8], tokens: &'a [Token]) -> Tokens<'a>
        requires { All (IsTokenOf text.now) tokens.now }
        ensures { said result ≡ lexemes_of text.now tokens.now }
    {
        Tokens { text, tokens }
    }

    /// The content of the first token, and the tokens after it.
    #[tactic(auto, unfolding(crate::specs::Tokens::said))]
    pub fn split(self) -> Option<(Lexeme<'a>, Tokens<'a>)>
        ensures { said self.entry ≡ front result }
    {
        match self.tokens {
            [] => None,
            [first, rest @ ..] => {
                let lexeme = lexeme_of(self.text, *first);
                Some((
                    lexeme,
                    Tokens {
                        text: self.text,
                        tokens: rest,
                    },
                ))
            }
        }
    }

    /// Returns how many tokens there are.
    #[tactic(auto, unfolding(crate::specs::Tokens::said))]
    pub fn len(self) -> usize
        ensures { result ≡ length (said self.entry) }
    {
        self.tokens.len()
    }
}

fn lexeme_of<'a>(text: &'a [u8], token: Token) -> Lexeme<'a>
    requires { IsWithin text.now token }
    ensures { says result ≡ lexeme_of text.now token }
{
    match token.kind {
        Kind::Name => Lexeme::Name(bytes_of(text, token)),
        Kind::Number(n) => Lexeme::Number(n),
        Kind::Text => Lexeme::Text(within_quotes(bytes_of(text, token))),
        Kind::Word(word) => Lexeme::Word(word),
        Kind::Sign(sign) => Lexeme::Sign(sign),
    }
}

fn bytes_of<'a>(text: &'a [u8], token: Token) -> Ascii<'a>
    requires { IsWithin text.now token }
    ensures { result.bytes.now ≡ bytes_of text.now token }
{
    Ascii {
        bytes: &text[token.span.start..token.span.end],
    }
}

/// The bytes between the first and the last.
fn within_quotes<'a>(quoted: Ascii<'a>) -> Ascii<'a>
    ensures { result.bytes.now ≡ within_quotes quoted.entry.bytes.now }
{
    match quoted.bytes {
        [_, body @ .., _] => Ascii { bytes: body },
        _ => Ascii { bytes: &[] },
    }
}
