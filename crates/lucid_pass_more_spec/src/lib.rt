// The results of further passes, by definition, and their laws: each result may replace valid code (specs/Replace.antt of lucid_pass_spec), and
// nodes still follow their writers.
// `Casts` turns casts into moves, so that other passes see through them (specs/Casts.antt). `Sources` tests the source of a field in place of
// the field (specs/Sources.antt). `Merge` lets a call write the field that its answer is moved to (specs/Merge.antt). `Lift` lets an operation
// act earlier than its readers (specs/Lift.antt).
// It has no data types; the code of the passes is in lucid_pass_more and lucid_pass_rewrites.
// Used by lucid_pass_rewrites and lucid_pass_more. Proofs may change; a law may only get stronger.
#![tactic(auto)]

mod examples;
mod laws;

pub use laws::{more_passes_keep_nodes, more_passes_replace};
