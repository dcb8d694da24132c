// The environment while a program is typed: the names in scope, each found as the rules see it, by a table that is seeded by the program's
// text, and removed at the end of its block; the numbered locals and texts; and counts as numbers of 32 bits.
// Used by lucid_types_expressions, lucid_types_statements, lucid_types_declarations and lucid_types. Bodies and proofs may change; a public
// clause may only get stronger.
#![tactic(auto)]

mod distinct;
mod numbering;
mod numbers;
mod scope;
mod texts;

pub use distinct::are_distinct;
pub use numbering::Numbering;
pub use numbers::{next, number};
pub use scope::Scope;
pub use texts::Texts;
