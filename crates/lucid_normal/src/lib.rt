// The normal form of a flat core, built: guarded operations with the effect of its handlers (lucid_normal_spec's specs/Translate.antt). A
// body is walked once, by tasks in a list on the heap, so the stack is the same however deep it nests. Overwritten bindings are kept in an
// undo log (lucid_normal_steps), so an inlined call or an `if` costs its own writes, not all locals of the handler.
// Used by lucid_top_fit. Bodies and proofs may change; a public clause may only get stronger.
#![tactic(auto)]

mod bodies;
mod branches;
mod ends;
mod expressions;
mod handlers;
mod inputs;
mod law;
mod lists;
mod machine;
mod program;
mod statements;
mod task;
mod tasks;

pub use bodies::block;
pub use lucid_normal_steps::{Context, Note, Work};
pub use program::normal;
