// Code that represents a program: its normal form, and the results of passes on it (specs/Core.antt).
// Promises, as laws on functions that do nothing: for every core, the normal form of its flat form has the effect of the core at each event
// that fits, and has its arrays. So has all code that may replace it. The length and size that are counted over the core are those of these
// forms. The laws join those of lucid_inline_spec, lucid_normal_laws and lucid_pass_spec.
// Used by lucid_top_fit and lucid_top_laws. Proofs may change; a law may only get stronger.
#![tactic(auto)]

mod laws;

pub use laws::{code_stands, counts_are_exact};
