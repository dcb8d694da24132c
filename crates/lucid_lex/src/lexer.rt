// A text as its tokens. The loop cuts off one piece after another; specs/Reading.antt defines the reading of a whole text.
ghost use Rattle.std.specs.Prelude.{◌≡◌, ◌≢◌, ℕ, ◌+◌, ◌^◌, ◌<◌, ◌++◌, [], List, IfOk, IfErr, OnOk, IsErrOf, MatchResult};
ghost use Rattle.lucid_lex.specs.declared.token.Token.{Token};
ghost use Rattle.lucid_lex.specs.Reading.{Reads, StopsAt, with_token};

use crate::front;
use crate::front::Front;
use crate::token::{LexError, Token};
use lucid_base::Span;
use std::alloc::Global;

/// Returns the tokens of a text, in order: the text is a list of pieces, each the longest blank, comment or token that begins at its place
/// (`Reads`). Where it is no such list, `NoToken` has the offset, in bytes from 0, up to which it is one and at which nothing begins
/// (`StopsAt`). Memory is the one answer without a cause.
pub fn lex(alloc: Global, text: &[u8]) -> Result<Vec<Token>, LexError>
    // The answer is true: the text is read as these tokens, or up to this offset and no further.
    ensures ok { IfOk result (λ tokens. Reads text.now tokens.items) }
    ensures no_token { (at : ℕ) → IsErrOf result (LexError.NoToken at) → StopsAt text.now at }

    // The truth is answered, unless memory runs out.
    ensures reads { (ts : List Token) → Reads text.now ts
        → MatchResult result (λ tokens. tokens.items ≡ ts) (λ e. e ≡ LexError.Memory) }
    ensures stops { (at : ℕ) → StopsAt text.now at
        → MatchResult result (λ _. ⊥) (λ e. e ≢ LexError.Memory → e ≡ LexError.NoToken at) }

    // A text has one list of tokens at most.
    ensures one { (ts us : List Token) → Reads text.now ts → Reads text.now us → ts ≡ us }
{
    let mut tokens = Vec::new(alloc);
    let mut at = 0;
    while at < text.len() {
        match front::front_of(&text[at..]) {
            None => return Err(LexError::NoToken(at)),
            Some(front) => {
                push(&mut tokens, at, front)?;
                at += front.len;
            }
        }
    }
    Ok(tokens)
}

/// Adds the token at this offset, unless a blank or a comment is there.
fn push(tokens: &mut Vec<Token>, start: usize, front: Front) -> Result<(), LexError>
    requires { start + front.len < 2 ^ 64 }
    ensures ok { OnOk result (tokens.new.items ≡ tokens.old.items ++ with_token start front.len front.kind []) }
    ensures memory { IfErr result (λ e. e ≡ LexError.Memory) }
{
    if let Some(kind) = front.kind {
        let end = start + front.len;
        tokens.push(Token {
            kind,
            span: Span { start, end },
        })?;
    }
    Ok(())
}
