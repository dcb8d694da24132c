// The cores of statements, and of the bodies of handlers and functions that they make up: the result of the typing function, or none. It
// has statements without a block, the event of a `generate`, the assembly of statements and of the arms of a `match`, and the one walk over
// a body (`block`).
// Used by lucid_types_declarations. Bodies and proofs may change; a public clause may only get stronger.
#![tactic(auto)]

mod arms;
mod assembly;
mod blocks;
mod print_holes;
mod sendings;
mod simple;
mod types;

pub use blocks::block;
pub use types::{type_of, width_of};
