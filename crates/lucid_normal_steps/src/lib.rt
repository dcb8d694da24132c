// The translation of each form of a body but `if` from its translated parts; lucid_normal_join has the end of an `if`, and lucid_normal walks
// bodies with both. Overwritten bindings are kept in an undo log, so an inlined call costs its own writes, not all locals of the handler.
// Used by lucid_normal_join and lucid_normal. Bodies and proofs may change; a public clause may only get stronger.
#![tactic(auto)]

mod calls;
mod context;
mod locals;
mod notes;
mod operations;
mod statements;
mod work;

pub use calls::{Caller, enter, leave};
pub use context::{Context, next, put, within};
pub use locals::{held_at, input, needed, needs_move};
pub use notes::{Note, clear, hold, put_back, swap_back, take_back};
pub use operations::{binary, bit, call_array, cast, compare, hash, unary};
pub use statements::{answer, answer_nothing, assign, say, send};
pub use work::Work;
