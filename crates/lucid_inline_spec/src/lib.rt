// The flat form of a program: each call is replaced by the body of its function, and each group by its members (specs/Flat.antt).
// Promises: laws of this definition (specs/Laws.antt), each on a function that does nothing. The flat form of a valid core has the effect
// of the core at each event, and calls the same arrays in the same order. It is in order exactly if the core is, and is a valid flat core.
// Its length and its size are those that are counted over the core (specs/Counts.antt).
// Used by lucid_inline_count, lucid_inline, lucid_pass_laws, lucid_top_fit and lucid_top_laws. Promises of the program rest on its
// definitions (docs/TRUSTED.md). Proofs may change; a law may only get stronger.
#![tactic(auto)]

mod examples;
mod laws;

pub use laws::{flat_is_valid, has_few_locals, keeps_counts, keeps_order, keeps_steps};
