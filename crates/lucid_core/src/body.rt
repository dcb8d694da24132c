// Bodies: the statements and expressions of handlers and functions. Every width is written and every name is a number.
use lucid_base::{ArrayName, BinOp, Bits, Boxed, CmpOp, Items, MemAlu, UnOp, Width};

/// A statement. Events, texts and locals go by their numbers.
#[cycle(body)]
#[derive(Drop)]
pub enum Stmt {
    Assign(u32, Expr),
    /// Evaluates the expression and drops its value, if it gives one.
    Drop(Expr),
    /// The first branch runs if the condition isn't 0.
    If(Expr, Items<Stmt>, Items<Stmt>),
    /// Sends an event out. If both are written, `delay_first` says that the delay is evaluated before the target.
    Gen {
        event: u32,
        args: Items<Expr>,
        delay: Option<Expr>,
        to: Option<Expr>,
        delay_first: bool,
    },
    /// Sends an event to each of these switches.
    Multi {
        event: u32,
        args: Items<Expr>,
        delay: Option<Expr>,
        members: Items<u32>,
    },
    /// Prints the text of that number.
    Say {
        form: u32,
        args: Items<Expr>,
    },
    /// Ends the body with a value, or with none. It does not jump: in a valid program it is last in its block, and so is an `If` that
    /// returns on some path, so nothing of the body remains to run after it.
    Return(Option<Expr>),
}

/// An expression. Locals and functions go by their numbers.
#[cycle(body)]
#[derive(Drop)]
pub enum Expr {
    Fixed(Bits),
    Local(u32),
    /// The low 32 bits of the tick.
    Now,
    /// The number of the switch, in 32 bits.
    Me,
    Un(UnOp, Boxed<Expr>),
    Bin(BinOp, Boxed<Expr>, Boxed<Expr>),
    Cmp(CmpOp, Boxed<Expr>, Boxed<Expr>),
    Cast(Width, Boxed<Expr>),
    Hash(Width, Items<Expr>),
    Array(Boxed<Touch>),
    /// A call of a function, with the arrays and the values that it is given.
    Fun(u32, Items<ArrayName>, Items<Expr>),
    /// An inlined call: its arguments with the locals that hold them, and its statements.
    Inlined(Items<(u32, Expr)>, Items<Stmt>),
}

/// A call of an array. It answers the result of the memop `get` and stores that of the memop `set`, both applied to the old number of the
/// cell.
#[cycle(body)]
#[derive(Drop)]
pub struct Touch {
    pub array: ArrayName,
    pub index: Expr,
    pub get: MemAlu,
    pub get_arg: Expr,
    pub set: MemAlu,
    pub set_arg: Expr,
    /// Whether the call gives a value.
    pub answers: bool,
}
