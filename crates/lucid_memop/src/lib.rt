// Memops: the bodies that the memory of one stage can compute, by specs/Shape.antt.
// Used by lucid_types_spec, lucid_types_laws, lucid_types_statements, lucid_types_declarations and lucid_top_laws. Promises of the program
// rest on its definitions (docs/TRUSTED.md). Bodies and proofs may change; a public clause may only get stronger.
#![tactic(auto)]

mod body;

pub use body::shape;
