// The types of the tree. Parentheses are nodes, so a program's tokens have one tree. A form of the grammar is added here, in
// the inductions of proofs/, and in lucid_parse_spec and lucid_parse.
use lucid_base::{Boxed, Id, Items};

/// A whole program.
#[derive(Drop)]
pub struct Tree {
    pub decls: Items<Decl>,
}

/// A declaration, and the line, from 1, of its first token. Lines are counted by line feeds; the count stops at the last `u32`.
#[derive(Drop)]
pub struct Decl {
    pub line: u32,
    pub kind: DeclKind,
}

#[derive(Drop)]
pub enum DeclKind {
    /// `const TY NAME = NUMBER;`
    Const(Ty, Id, u64),
    /// `global Array.t<<WIDTH>> NAME = Array.create(SIZE);`, where `short` says that `.t` is absent
    Global {
        short: bool,
        width: u64,
        name: Id,
        size: Size,
    },
    /// `memop NAME(TY NAME, TY NAME) { .. }`
    Memop {
        name: Id,
        first: (Ty, Id),
        second: (Ty, Id),
        body: Items<S>,
    },
    /// `event NAME(PARAMS);`
    Event {
        name: Id,
        params: Items<P>,
    },
    /// `handle NAME(PARAMS) { .. }`
    Handle {
        name: Id,
        params: Items<P>,
        body: Items<S>,
    },
    /// `fun TY NAME(PARAMS) { .. }`; None means `void`
    Fun {
        answer: Option<Ty>,
        name: Id,
        params: Items<P>,
        body: Items<S>,
    },
    /// `group NAME = { NUMBER, .. };`, with at least one number
    Group(Id, Items<u64>),
}

/// A type: `int<<N>>` or `int`, or `bool`.
#[derive(Clone, Copy)]
pub enum Ty {
    Int(Option<u64>),
    Bool,
}

/// How many cells an array has: a number, or the name of a constant.
#[derive(Drop)]
pub enum Size {
    Number(u64),
    Named(Id),
}

/// A parameter: a value, or an array, where `short` says that `.t` is absent.
#[derive(Drop)]
pub enum P {
    Value(Ty, Id),
    Array { short: bool, width: u64, name: Id },
}

/// A statement.
#[cycle(statement)]
#[derive(Drop)]
pub enum S {
    /// `TY NAME = E;`
    Declare(Ty, Id, E),
    /// `NAME = E;`
    Assign(Id, E),
    /// `NAME(E, ..);`
    Call(Id, Items<E>),
    /// A call on an array, as a statement.
    Array(Boxed<A>),
    /// `if (E) { .. } else ..`
    Cond(Boxed<C>),
    /// `return E;` or `return;`
    Return(Option<E>),
    /// `generate V;`
    Generate(V),
    /// `printf("TEXT", E, ..);`, with the bytes between the quotes
    Printf(Id, Items<E>),
    /// `match E with | NUMBER -> { .. } .. | _ -> { .. }`, with at least one case
    Match {
        test: E,
        cases: Items<(u64, Items<S>)>,
        last: Option<Items<S>>,
    },
}

/// A choice between two blocks.
#[cycle(statement)]
#[derive(Drop)]
pub struct C {
    pub test: E,
    pub yes: Items<S>,
    pub no: No,
}

/// The part after the first block of a choice: nothing, `else { .. }` or `else if ..`.
#[cycle(statement)]
#[derive(Drop)]
pub enum No {
    Absent,
    Block(Items<S>),
    Cond(Boxed<C>),
}

/// The event of a `generate`.
#[derive(Drop)]
pub enum V {
    /// `(V)`
    Paren(Boxed<V>),
    /// `NAME(E, ..)`
    Call(Id, Items<E>),
    /// `Event.delay(V, E)`
    Delay(Boxed<V>, E),
    /// `Event.locate(V, E)`
    Locate(Boxed<V>, E),
}

/// An expression.
#[cycle(expression)]
#[derive(Drop)]
pub enum E {
    Number(u64),
    /// `true` or `false`
    Truth(bool),
    /// `SELF`
    Me,
    /// `Sys.time()`
    Time,
    /// `hash<<WIDTH>>(E, ..)`, with at least one operand
    Hash(u64, Items<E>),
    Name(Id),
    /// `NAME(E, ..)`
    Call(Id, Items<E>),
    Array(Boxed<A>),
    /// `(E)`
    Paren(Boxed<E>),
    Prefix(Pre, Boxed<E>),
    /// `(int<<N>>) E` or `(int) E`
    Cast(Option<u64>, Boxed<E>),
    /// `E << NUMBER` if true, and otherwise `E >> NUMBER`
    Shift(Boxed<E>, bool, u64),
    Infix(Infix, Boxed<E>, Boxed<E>),
}

/// A call on an array: its name, the cell's index, and then the values or the memops with their arguments.
#[cycle(expression)]
#[derive(Drop)]
pub enum A {
    /// `Array.get(NAME, E)`
    Get(Id, E),
    /// `Array.set(NAME, E, E)`
    Set(Id, E, E),
    /// `Array.getm(NAME, E, NAME, E)`
    Getm(Id, E, Id, E),
    /// `Array.setm(NAME, E, NAME, E)`
    Setm(Id, E, Id, E),
    /// `Array.update(NAME, E, NAME, E, NAME, E)`
    Update(Id, E, Id, E, Id, E),
}

/// A prefix sign.
#[derive(Clone, Copy)]
pub enum Pre {
    /// `-`
    Minus,
    /// `~`
    Tilde,
    /// `!`
    Not,
}

/// A sign between two operands.
#[derive(Clone, Copy)]
pub enum Infix {
    /// `||`
    OrOr,
    /// `&&`
    AndAnd,
    /// `==`
    EqualEqual,
    /// `!=`
    NotEqual,
    /// `<`
    Less,
    /// `>`
    Greater,
    /// `<=`
    LessEqual,
    /// `>=`
    GreaterEqual,
    /// `|`
    Or,
    /// `^`
    Caret,
    /// `&`
    And,
    /// `+`
    Plus,
    /// `-`
    Minus,
    /// `|+|`
    SatAdd,
    /// `|-|`
    SatSub,
}
