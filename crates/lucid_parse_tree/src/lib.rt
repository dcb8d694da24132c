// The syntax tree of a program, made by parsing and read by typing, and the induction over it for laws about trees (proofs/). It promises
// nothing but its types; lucid_parse_spec defines the spelling of a tree.
// Used by many crates. It changes only to correct a fault: README.md, *Frozen*.
#![tactic(auto)]

mod tree;

pub use tree::{A, C, Decl, DeclKind, E, Infix, No, P, Pre, S, Size, Tree, Ty, V};
