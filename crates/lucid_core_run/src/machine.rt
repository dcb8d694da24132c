// The state of a run between two tasks.
use crate::run::Run;
use lucid_base::{Bits, Items};
use lucid_core::FunDef;
use std::alloc::Global;

/// The tick at which an event enters, and the number of its switch.
#[derive(Clone, Copy)]
pub struct Moment {
    pub now: u64,
    pub me: u32,
}

/// A running body: when and where it runs, the numbers of the arrays passed for its array parameters, the functions before it, its run,
/// and the value that was evaluated last.
#[derive(Drop)]
pub struct Machine<'a> {
    pub alloc: Global,
    pub moment: Moment,
    pub arrays: Items<u32>,
    pub funs: &'a [FunDef],
    pub run: Run,
    pub value: Bits,
}
