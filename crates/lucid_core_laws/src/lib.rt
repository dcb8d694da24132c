// Laws for crates that build bodies: a node of a body keeps all rules of a valid program if its parts do, and a program whose bodies do is
// valid.
// It has laws alone, for cores and for flat programs at once: a field for each of the records in specs/ExprNodes.antt, StmtNodes.antt,
// AssigningNodes.antt and InlinedNodes.antt, and the definitions of Programs.antt. They hold at every place that has the named things, so
// nothing is carried from one scope to another.
// Used by lucid_types_laws and lucid_inline_spec. Proofs may change; a law may only get stronger.
#![tactic(auto)]

mod examples;
mod laws;

pub use laws::{built_programs_are_valid, nodes_keep_the_rules};
