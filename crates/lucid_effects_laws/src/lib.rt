// The order of arrays is decided: a body is in order, or has a cycle. The law is on a function that does nothing. With `paths_decide` of
// lucid_effects_spec it is never both.
// Used by lucid_top_laws. Proofs may change; a law may only get stronger.
#![tactic(auto)]

mod laws;

pub use laws::bodies_are_decided;
