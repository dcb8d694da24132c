// What remains to be done of a run. Each task takes the value that was evaluated last.
use crate::run::Caller;
use lucid_base::{ArrayName, BinOp, Bits, CmpOp, Items, Target, UnOp, Width};
use lucid_core::{Expr, FunDef, Stmt, Touch};

/// A part of a body that remains to be done.
#[derive(Drop)]
pub enum Task<'a> {
    /// Evaluates an expression.
    Value(&'a Expr),
    /// The first operand is evaluated, the second is not.
    BinLeft(BinOp, &'a Expr),
    CmpLeft(CmpOp, &'a Expr),
    /// The index of a call of an array is evaluated.
    TouchIndex(&'a Touch),
    /// The argument of its first memop is evaluated, too. This is the index.
    TouchGet(&'a Touch, u64),
    /// Evaluates the rest of a list, after the values that are done and the last one.
    Next {
        done: Items<Bits>,
        rest: &'a [Expr],
        purpose: Purpose<'a>,
    },
    /// The same for the arguments of an inlined call, of which the last one is bound to `local`.
    Given {
        held: Items<(u32, Bits)>,
        local: u32,
        rest: &'a [(u32, Expr)],
        stmts: &'a [Stmt],
    },
    /// Runs the rest of a block.
    Block(&'a [Stmt]),
    /// Runs the first block if the value isn't 0, otherwise the second.
    Choose(&'a [Stmt], &'a [Stmt]),
    /// The delay of an event is evaluated, its target is not.
    DelayThenTarget {
        event: u32,
        args: Items<Bits>,
        to: &'a Expr,
    },
    /// The target of an event is evaluated, its delay is not.
    TargetThenDelay {
        event: u32,
        args: Items<Bits>,
        delay: &'a Expr,
    },
    /// All operands are evaluated.
    Last(Act<'a>),
}

/// The end of an expression, a statement or a body: no operand of it remains.
#[derive(Drop)]
pub enum Act<'a> {
    Un(UnOp),
    /// This is the first operand.
    BinRight(BinOp, Bits),
    CmpRight(CmpOp, Bits),
    Cast(Width),
    /// These are the index and the argument of the first memop.
    TouchSet(&'a Touch, u64, Bits),
    /// Ends an inlined call.
    LeaveInlined(Caller),
    /// Ends a call. The caller's arrays and functions are in force again.
    Leave(Caller, Items<u32>, &'a [FunDef]),
    Assign(u32),
    /// Drops the value.
    Drop,
    Answer,
    /// The target of an event is evaluated.
    SendTo {
        event: u32,
        args: Items<Bits>,
        delay: u64,
    },
    /// The delay of an event is evaluated.
    SendAfter {
        event: u32,
        args: Items<Bits>,
        to: Target,
    },
    /// The delay of an event for several switches is evaluated.
    SendEach {
        event: u32,
        args: Items<Bits>,
        members: &'a [u32],
    },
}

/// What the values of a list are for.
#[derive(Clone, Copy)]
pub enum Purpose<'a> {
    Hash(Width),
    Call(u32, &'a [ArrayName]),
    Gen {
        event: u32,
        delay: &'a Option<Expr>,
        to: &'a Option<Expr>,
        delay_first: bool,
    },
    Multi {
        event: u32,
        delay: &'a Option<Expr>,
        members: &'a [u32],
    },
    Say(u32),
}
