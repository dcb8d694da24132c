// The tree of a program's tokens. `parse` succeeds exactly if no count of nesting exceeds its limit and some tree spells the tokens, with
// that tree, of which there is one. Otherwise it reports the token at which nesting is too deep, or the start of the first declaration
// without a tree. lucid_parse_spec defines the spelling of a tree (specs/Spelling.antt) by the cases of the grammar. specs/Nesting.antt has
// the counts, and specs/Program.antt defines programs and faults. Events, statements, declarations and programs are read here, as
// lucid_parse_spec's definitions read them; that these and spelling agree, both ways, is lucid_parse_spec's law.
// Used by lucid_top_program, lucid_top and lucid_top_laws. Promises of the program rest on its definitions (docs/TRUSTED.md). It changes
// only to correct a fault: README.md, *Frozen*.
#![tactic(auto)]

mod declaration;
mod error;
mod event;
mod nesting;
mod parts;
mod program;
mod simple;
mod statement;

pub use error::ParseError;
pub use lucid_parse_tree::{A, C, Decl, DeclKind, E, Infix, No, P, Pre, S, Size, Tree, Ty, V};
pub use program::parse;
