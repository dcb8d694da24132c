// Inlining: the flat form of a core, in which each call is replaced by the body of its function.
// `inline` counts first (lucid_inline_count) and builds only what is within its limits; otherwise it refuses (specs/Refusals.antt).
// The flat form has the effect of the core at each event, calls the same arrays in the same order, and is valid by its type.
// The definition of the flat form is in lucid_inline_spec.
// Used by lucid_top_fit and lucid_top_laws. Promises of the program rest on its definitions (docs/TRUSTED.md). Bodies and proofs may
// change; a public clause may only get stronger.
#![tactic(auto)]

mod bodies;
mod calls;
mod endings;
mod error;
mod expressions;
mod group;
mod law;
mod limits;
mod machine;
mod program;
mod site;
mod stack;
mod statements;
mod task;
mod widths;

pub use error::InlineError;
pub use limits::inline;
