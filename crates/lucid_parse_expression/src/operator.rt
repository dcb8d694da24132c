// The tokens that may follow an operand.
ghost use Rattle.std.specs.Prelude.{◌≡◌, option_map};
ghost use Rattle.lucid_parse_expression.specs.Tokens.{said};
ghost use Rattle.lucid_parse_spec.specs.ReadExpression.{shift_of, next_of, next_within};

use crate::lexeme::Lexeme;
use crate::tokens::Tokens;
use lucid_lex::Sign;
use lucid_parse_spec::{Next, infix_of};

/// The operator at the front of the tokens, if there is one.
#[tactic(auto, unfolding(lucid_parse_spec::specs::ReadExpression::next_of))]
fn next_of(tokens: Tokens) -> Option<(Next, Tokens)>
    ensures { option_map (λ p. (p.0, said p.1)) result ≡ next_of (said tokens.entry) }
{
    match tokens.split() {
        Some((Lexeme::Sign(Sign::ShiftLeft), rest)) => shift(true, rest),
        Some((Lexeme::Sign(Sign::ShiftRight), rest)) => shift(false, rest),
        Some((Lexeme::Sign(sign), rest)) => match infix_of(sign) {
            Some(op) => Some((Next::Infix(op), rest)),
            None => None,
        },
        _ => None,
    }
}

/// A shift, behind its sign.
fn shift(up: bool, tokens: Tokens) -> Option<(Next, Tokens)>
    ensures { option_map (λ p. (p.0, said p.1)) result ≡ shift_of up (said tokens.entry) }
{
    match tokens.split() {
        Some((Lexeme::Number(n), rest)) => Some((Next::Shift(up, n), rest)),
        _ => None,
    }
}

/// Like `next_of`, but only if it binds at least as tightly as `least` and accepts an operand of level `tight` on its left.
#[tactic(auto, unfolding(lucid_parse_spec::specs::ReadExpression::next_within))]
pub(crate) fn next_within(least: u8, tight: u8, tokens: Tokens) -> Option<(Next, Tokens)>
    ensures { option_map (λ p. (p.0, said p.1)) result ≡ next_within least tight (said tokens.entry) }
{
    match next_of(tokens) {
        None => None,
        Some((next, rest)) => {
            if least <= next.level() && next.left() <= tight {
                Some((next, rest))
            } else {
                None
            }
        }
    }
}
