// The interpreter of a core: runs the handler of an event whole.
// Promises: `run_whole` and `run_into` compute exactly `step` of lucid_core (specs/Step.antt). If memory runs out, the cells are unchanged.
// The outs fit the program, and cells that fit before still fit after.
// Used by lucid_net and lucid_top. Bodies and proofs may change; a public clause may only get stronger.
#![tactic(auto)]

mod acts;
mod draft;
mod evaluate;
mod interpret;
mod law;
mod list;
mod machine;
mod operate;
mod recurse;
mod run;
mod scratch;
mod task;
mod tasks;
mod whole;

pub use scratch::Scratch;
pub use whole::{run_into, run_whole};
