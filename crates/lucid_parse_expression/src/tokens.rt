// Some tokens of a text. Their functions are beside lexemes, since their clauses name definitions over this type.
ghost use Rattle.std.specs.Prelude.{All};
ghost use Rattle.lucid_parse_expression.specs.Within.{IsWithin};

use lucid_lex::Token;

/// Tokens, and the text that contains each of them.
#[derive(Clone, Copy)]
pub struct Tokens<'a> {
    pub(crate) text: &'a [u8],
    pub(crate) tokens: &'a [Token],
    ghost stand: { All (IsWithin text.now) tokens.now },
}
