// The typing rules as a function, and the core of a typed program.
// Promises: the function computes exactly the derivations of the rules (specs/Laws.antt). A typed program is a valid core
// (specs/ValidLaws.antt).
// It has no code but the types that the function shares with the crates that compute it (lucid_types_expressions and its siblings). A
// change of the rules (lucid_types_spec) changes the proofs here first.
// Used by many crates. Proofs may change; a law may only get stronger.
#![tactic(auto)]

mod arguments;
mod laws;
mod part;
mod valid;

pub use arguments::Arguments;
pub use laws::{
    blocks_are_computed, declarations_are_computed, expressions_are_computed, programs_are_decided,
};
pub use part::Part;
pub use valid::typed_programs_are_valid;
