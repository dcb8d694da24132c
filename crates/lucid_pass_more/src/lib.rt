// Further passes over code: `Casts` turns casts into moves, and `Lift` lets an operation act earlier than its readers. lucid_pass_more_spec
// defines their results, and has the laws that these may replace the code.
// Promises: each pass makes exactly its definition, and counts the operations that it removed (the trait `Pass` of lucid_pass).
// No crate uses it. Bodies, definitions and proofs may change; a public clause may only get stronger.
#![tactic(auto)]

mod casts;
mod guards;
mod lift;
mod users;

pub use casts::Casts;
pub use lift::Lift;
