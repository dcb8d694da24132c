// Passes over code, in boxes: each makes code that may replace its input. `Pass` is the trait, with its law inside its meaning `gives`, so
// that nobody can write a pass that breaks it. `run_passes` applies a list of boxes, which remain the caller's. `Dead` is the pass that
// removes operations that nobody needs; lucid_pass_rewrites has the others. lucid_pass_spec defines the results of all four, and has the
// laws that these may replace the code.
// Used by lucid_pass_rewrites, lucid_pass_more, lucid_top_fit, lucid_top, lucid_top_laws and lucid_main. Promises of the program rest on its
// definitions (docs/TRUSTED.md). Bodies and proofs may change; a public clause may only get stronger.
#![tactic(auto)]

mod dead;
mod laws;
mod marks;
mod name;
mod pass;
mod run;

pub use dead::Dead;
pub use laws::lists_keep_the_laws;
pub use marks::{is_set, mark, mark_all};
pub use name::Name;
pub use pass::Pass;
pub use run::{replaced, run_passes, run_passes_told};
