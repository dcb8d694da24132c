// The state of a walk over a body between two tasks.
use lucid_code::Guard;
use lucid_normal_spec::{Env, Typed};
use lucid_normal_steps::Work;
use std::alloc::Global;

/// A walk over a body: the guard of all operations of the current branch, the output and the environment so far, and the value of the
/// expression that ended last.
#[derive(Drop)]
pub struct Machine {
    pub alloc: Global,
    pub guard: Guard,
    pub work: Work,
    pub env: Env,
    pub value: Option<Typed>,
}
