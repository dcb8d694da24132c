// The limits on numbers of things, checked for one declaration after another: the exceeded limit depends on the additions of the
// declaration, and on the outs of the functions before it. So the work is in proportion to the declaration; it allocates only a number for
// each function.
// Used by lucid_types. Bodies and proofs may change; a public clause may only get stronger.
#![tactic(auto)]

mod body;
mod cases;
mod laws;
mod limits;
mod tally;

pub use laws::only_the_new_counts;
pub use limits::Limits;
