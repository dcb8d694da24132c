// The content of a token: its bytes, which are in its text.
ghost use Rattle.std.specs.Prelude.{◌≡◌, ◌<◌, All};
ghost use Rattle.lucid_lex.specs.Piece.{IsToken, IsQuoted};
ghost use Rattle.lucid_lex.specs.Reading.{Reads, IsTokenOf, bytes_of};

use crate::token::{Kind, Token};

/// A law for callers that get a text with its tokens: each token is in the text. Nothing runs.
pub fn tokens_stand(text: &[u8], tokens: &[Token])
    requires { Reads text.now tokens.now }
    ensures { All (IsTokenOf text.now) tokens.now }
{}

/// Returns the bytes of a token. They are ASCII.
pub fn text_of(text: &[u8], token: Token) -> &[u8]
    requires { IsTokenOf text.now token }
    ensures bytes { result.now ≡ bytes_of text.now token }
    ensures written { IsToken result.now token.kind }
    ensures ascii { All (λ b. b < 128) result.now }
{
    &text[token.span.start..token.span.end]
}

/// Returns the bytes between the quotes of a text. They are ASCII.
pub fn quoted(text: &[u8], token: Token) -> &[u8]
    requires stands { IsTokenOf text.now token }
    requires is_text { token.kind ≡ Kind.Text }
    ensures quoted { IsQuoted (bytes_of text.now token) result.now }
    ensures ascii { All (λ b. b < 128) result.now }
{
    &text[token.span.start + 1..token.span.end - 1]
}
