// What remains to be done of a body. Each task takes operands and blocks that earlier ones made.
use lucid_base::{ArrayName, BinOp, CmpOp, UnOp, Width};
use lucid_core::{Expr, Stmt, Touch};

/// A part of a body that remains to be inlined.
#[derive(Clone, Copy)]
pub enum Task<'a> {
    /// Makes an expression an operand.
    Value(&'a Expr),
    /// Makes expressions operands, from left to right.
    Values(&'a [Expr]),
    /// Builds an expression of the last operands.
    Build(Node<'a>),
    /// Calls function `k` with the last `n` operands.
    Call {
        k: u32,
        names: &'a [ArrayName],
        n: usize,
    },
    /// Ends a call.
    Leave,
    /// Appends statements to the block.
    Block(&'a [Stmt]),
    /// Begins a branch.
    Open,
    /// Appends a statement that is built of the last operands and branches.
    End(Ending<'a>),
}

/// An expression without its operands. `Hash` has the number of them.
#[derive(Clone, Copy)]
pub enum Node<'a> {
    Un(UnOp),
    Bin(BinOp),
    Cmp(CmpOp),
    Cast(Width),
    Hash(Width, usize),
    Array(&'a Touch),
}

/// A statement without its operands, of which it has `n` for its arguments.
#[derive(Clone, Copy)]
pub enum Ending<'a> {
    Assign(u32),
    Drop,
    /// Both branches of an `if` are made.
    Branch,
    /// The flags say whether a delay and a target are operands, too.
    Gen {
        event: u32,
        n: usize,
        delay: bool,
        to: bool,
        delay_first: bool,
    },
    /// The flag says whether a delay is an operand, too.
    Multi {
        event: u32,
        n: usize,
        delay: bool,
        members: &'a [u32],
    },
    Say {
        form: u32,
        n: usize,
    },
    Return,
}
