// The state of inlining between two tasks.
use crate::stack::Stack;
use lucid_base::{Items, Width};
use lucid_core::{Expr, FunDef, Stmt};
use std::alloc::Global;

/// A caller, kept while the body of a function is inlined: its position, its block so far, and the arguments of the call with the locals
/// that hold them.
#[derive(Drop)]
pub struct Caller<'a> {
    pub given: Items<(u32, Expr)>,
    pub arrays: Items<u32>,
    pub first: u32,
    pub funs: &'a [FunDef],
    pub block: Items<Stmt>,
}

/// A body that is inlined: the arrays passed for its array parameters, the number of its first local, the functions before it, and the
/// widths of the handler's locals so far. `operands` are expressions that are made and not yet used, `block` the statements made so far of the
/// innermost block, `outer` those of the blocks round it in this body, and `callers` the bodies round it.
#[derive(Drop)]
pub struct Machine<'a> {
    pub alloc: Global,
    pub arrays: Items<u32>,
    pub first: u32,
    pub funs: &'a [FunDef],
    pub locals: Items<Width>,
    pub operands: Stack<Expr>,
    pub block: Items<Stmt>,
    pub outer: Stack<Items<Stmt>>,
    pub callers: Stack<Caller<'a>>,
}
