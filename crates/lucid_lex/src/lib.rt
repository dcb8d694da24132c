// The tokens of a text. `lex` returns exactly the reading of a text, or the first offset at which nothing can be read; the rest returns the
// bytes of a token. Reading is defined in specs/: Piece.antt has the pieces of a text, each by the bytes that write it, and Reading.antt
// has whole texts.
// Used by many crates. Promises of the program rest on its definitions (docs/TRUSTED.md). It changes only to correct a fault: README.md,
// *Frozen*.
#![tactic(auto)]

mod byte;
mod front;
mod lexer;
mod reader;
mod sign;
mod token;
mod word;

pub use lexer::lex;
pub use reader::{quoted, text_of, tokens_stand};
pub use sign::Sign;
pub use token::{Kind, LexError, Token};
pub use word::Word;
