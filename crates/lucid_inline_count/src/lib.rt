// The counts of a core, found without building anything: the length of the normal form of each handler, and the size of its flat form
// (lucid_inline_spec's specs/Counts.antt). Each function is counted once. The work is in proportion to the core and, for each `if`, to the
// distinct locals that its branches assign.
// Used by lucid_inline, lucid_top_fit and lucid_top_laws. Promises of the program rest on its definitions (docs/TRUSTED.md). Bodies and
// proofs may change; a public clause may only get stronger.
#![tactic(auto)]

mod blocks;
mod body;
mod branches;
mod counts;
mod exprs;
mod held;
mod program;
mod sums;

pub use counts::Counts;
pub use program::{Totals, count_body, count_core, count_functions};
pub use sums::Sum;
