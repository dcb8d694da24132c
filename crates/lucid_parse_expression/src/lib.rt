// Parsers for the front of a token list: single tokens, widths and types, lists with commas, expressions. Each function takes a part off
// the front of the tokens as lucid_parse_spec's definitions read it, and returns it with the rest, unless memory runs out. The grammar sees
// the tokens as a list of lexemes (`said`).
// Used by lucid_parse. Bodies and proofs may change; a public clause may only get stronger.
#![tactic(auto)]

mod array;
mod ascii;
mod commas;
mod error;
mod expressions;
mod lexeme;
mod nodes;
mod operator;
mod parts;
mod tokens;

pub use ascii::Ascii;
pub use commas::{added, separated};
pub use error::Stop;
pub use expressions::{array_call, call_arguments, expression, operands};
pub use lexeme::Lexeme;
pub use parts::{
    after, after_name, array_type, ended, expect, expect_name, expect_word, name, number, some, ty,
    typed_name,
};
pub use tokens::Tokens;
