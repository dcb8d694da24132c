// The end of an `if` in the translation to normal form: both branches begin where the condition ends, and the locals that either writes are
// joined behind them, with the answer. Each branch is undone to their common beginning by its log (lucid_normal_steps), so an `if` costs its
// own writes, not all locals of the handler.
// Used by lucid_normal. Bodies and proofs may change; a public clause may only get stronger.
#![tactic(auto)]

mod branches;
mod changes;
mod joining;

pub use branches::{Begun, Ended, Turned, begin, turn};
pub use joining::join;
