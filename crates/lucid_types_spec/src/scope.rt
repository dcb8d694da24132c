// The meaning of names.
use lucid_base::{ArrayName, Bits, Id, Items, MemAlu, Width};

/// The type of a value: a number of this width, or a truth.
#[derive(Clone, Copy, PartialEq, Eq)]
pub enum ValueType {
    Int(Width),
    Bool,
}

/// A parameter of a function: a value, or an array with cells of this width.
#[derive(Clone, Copy, PartialEq, Eq)]
pub enum Param {
    Value(ValueType),
    Array(Width),
}

/// The meaning of a name. Arrays, events, functions and locals are given by their numbers in the core.
#[derive(Drop)]
pub enum Entry {
    Constant(Bits),
    /// A declared array or an array parameter, with the width of its cells.
    Array(ArrayName, Width),
    Memop(MemAlu),
    /// An event, with the widths of its parameters.
    Event(u32, Items<Width>),
    /// A function, with its parameters, and the type of its value, if it gives one.
    Fun(u32, Items<Param>, Option<ValueType>),
    /// A value parameter or a declared local.
    Local(u32, ValueType),
    /// A group, with its members.
    Group(Items<u32>),
}

/// A name in scope.
#[derive(Drop)]
pub struct Named {
    pub name: Id,
    pub entry: Entry,
}
