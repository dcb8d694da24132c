// The results of passes, by definition, and the law that they may replace the code (specs/Replace.antt): a result is valid, has the inputs
// and arrays of the code, has the same effect for every input, and has no more operations.
// `Fold` and `Copies` look through moves (specs/Looks.antt). `Dead` removes operations without readers (specs/Dead.antt). `Direct` tests a
// field in place of a comparison of it (specs/Direct.antt).
// Promises, as laws on functions that do nothing (specs/Laws.antt): each pass keeps the law of replacement for all valid code, and nodes
// still follow their writers. The result of `Dead` does not depend on the order of removal.
// It has one data type, `Test`; the code of the passes is in lucid_pass and lucid_pass_rewrites.
// Used by many crates. Promises of the program rest on its definitions (docs/TRUSTED.md). Proofs may change; a law may only get
// stronger.
#![tactic(auto)]

mod direct;
mod examples;
mod laws;

pub use direct::Test;
pub use laws::{dead_is_left, passes_keep_nodes, passes_replace};
