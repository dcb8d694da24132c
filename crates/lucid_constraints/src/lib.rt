// The order in which arrays are called: the constraints of a function, kept without repeats. Substituting a caller's arrays for a
// function's parameters preserves the constraints. There is no cycle exactly if the names have a strictly rising numbering.
// Used by lucid_effects_spec, lucid_effects_laws, lucid_effects and lucid_top_laws. Promises of the program rest on its definitions
// (docs/TRUSTED.md). Bodies and proofs may change; a public clause may only get stronger.
#![tactic(auto)]

mod cover;
mod cycle;
mod ends;
mod laws;
mod look;
mod marks;
mod names;
mod numbers;
mod order;
mod pair;
mod search;
mod seen;

pub use ends::{ends_at, join_ends};
pub use laws::{allowed_numberings_rise, pairs_keep_meaning};
pub use lucid_base::ArrayName;
pub use order::Order;
pub use pair::{Atom, Pair};
