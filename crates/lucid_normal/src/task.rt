// What remains to be done of a walk over a body. Each task takes the value of the expression that ended last.
use lucid_base::{BinOp, CmpOp, Items, UnOp, Width};
use lucid_code::{Guard, Operand};
use lucid_core::{Expr, Stmt, Touch};
use lucid_normal_join::{Begun, Turned};
use lucid_normal_spec::Typed;
use lucid_normal_steps::Caller;

/// A part of a body that remains to be translated.
#[derive(Drop)]
pub enum Task<'a> {
    /// Translates an expression.
    Value(&'a Expr),
    /// The first operand is translated, the second is not.
    BinLeft(BinOp, &'a Expr),
    CmpLeft(CmpOp, &'a Expr),
    /// The index of a call of an array is translated.
    TouchIndex(&'a Touch),
    /// The argument of its first memop is translated, too. This is the index.
    TouchGet(&'a Touch, Typed),
    /// Translates the rest of a list, after the operands that are done and the last one.
    Next {
        done: Items<Operand>,
        rest: &'a [Expr],
        purpose: Purpose<'a>,
    },
    /// The same for the arguments of an inlined call, of which the last one is to be held by `local`.
    Given {
        held: Items<(u32, Typed)>,
        local: u32,
        rest: &'a [(u32, Expr)],
        stmts: &'a [Stmt],
    },
    /// Translates the rest of a block.
    Block(&'a [Stmt]),
    /// The condition is translated, the branches are not.
    Choose {
        needs_move: bool,
        yes: &'a [Stmt],
        no: &'a [Stmt],
    },
    /// The first branch is translated, the second is not. This guard is in force again after the `if`.
    Turn {
        begun: Begun,
        condition: u32,
        outer: Guard,
        no: &'a [Stmt],
    },
    /// The delay of an event is translated, its target is not.
    DelayThenTarget {
        event: u32,
        args: Items<Operand>,
        to: &'a Option<Expr>,
    },
    /// The target of an event is translated, if it has one. Its delay is not.
    TargetThenDelay {
        event: u32,
        args: Items<Operand>,
        targeted: bool,
        delay: &'a Option<Expr>,
    },
    /// All operands are translated.
    Last(End<'a>),
}

/// The end of an expression, a statement or a body: no part of it remains.
#[derive(Drop)]
pub enum End<'a> {
    Un(UnOp),
    /// This is the first operand.
    BinRight(BinOp, Typed),
    CmpRight(CmpOp, Typed),
    Cast(Width),
    /// These are the index and the argument of the first memop.
    TouchSet(&'a Touch, Typed, Typed),
    /// Ends an inlined call.
    Leave(Caller),
    Assign(u32),
    /// Drops the value.
    Drop,
    Answer,
    /// The target of an event is translated, if it has one.
    SendTo {
        event: u32,
        args: Items<Operand>,
        delay: Operand,
        targeted: bool,
    },
    /// The delay of an event is translated.
    SendAfter {
        event: u32,
        args: Items<Operand>,
        to: Option<Operand>,
    },
    /// Both branches are translated. This guard is in force again.
    Join {
        turned: Turned,
        condition: u32,
        outer: Guard,
    },
}

/// The use of the operands of a list.
#[derive(Clone, Copy)]
pub enum Purpose<'a> {
    Hash(Width),
    Gen {
        event: u32,
        delay: &'a Option<Expr>,
        to: &'a Option<Expr>,
        delay_first: bool,
    },
    Say(u32),
}
