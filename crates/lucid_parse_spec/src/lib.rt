// The grammar of programs. specs/Spelling.antt defines the spelling of a tree by the cases of the grammar. specs/Reader.antt and its
// siblings for expressions, statements and declarations define how tokens are read, part by part. The law of this crate is that the two
// agree, both ways: proofs/ goes from single tokens (Steps) and lists of parts (Repeats) to expressions, statements and declarations; Sound
// shows that read trees are spelled, and Complete that spelled trees are read. The crate also has the types and tables that the definitions
// share with the parser: the tokens that may follow an operand, how tightly they bind, and the calls on arrays.
// Used by lucid_parse_expression, lucid_parse, lucid_top_program and lucid_top_laws. Promises of the program rest on its definitions
// (docs/TRUSTED.md). Proofs may change; a law may only get stronger.
#![tactic(auto)]

mod law;
mod method;
mod operator;

pub use law::declarations_are_read_as_spelled;
pub use method::Method;
pub use operator::{DISJUNCTION, Next, TIGHTEST, infix_of, pre_of, right_level, unary_level};
