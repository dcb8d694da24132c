// The check of the order of arrays: one scheme for each function and handler, found by one walk along its body, however often functions
// call one another. Each scheme is principal. A program passes exactly if all its bodies are in order, and a refusal names the first that
// isn't, with a cycle.
// Used by lucid_top_program. Bodies and proofs may change; a public clause may only get stronger.
#![tactic(auto)]

mod check;
mod declaration;
mod error;
mod first;
mod law;
mod walk;

pub use check::check_order;
pub use error::OrderError;
pub use lucid_effects_spec::Scheme;
