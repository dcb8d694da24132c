// Code that is worked by hand, as constants: for each operation its guard, its level and its act. Field 3 is the one argument.
use lucid_base::{ArrayDef, BinOp, CmpOp, Id, Items, MemAlu, MemArg, MemSide, UnOp, Width};
use lucid_code::{Act, Code, Guard, Inputs, Literal, Op, Operand};
use std::alloc::Global;
use std::process::Abort;

const INPUTS: Inputs = Inputs {
    event: 0,
    now: 1,
    me: 2,
    args: 1,
};

/// An act by its numbers. The last one is the field that it writes.
#[derive(Clone, Copy)]
pub(crate) enum Does {
    Move(Operand, u32),
    Cast(Operand, u32),
    /// The low bits, this many, of the negative.
    Negate(u64, Operand, u32),
    /// The low bits, this many, of the sum.
    Add(u64, Operand, Operand, u32),
    /// Whether a field of this many bits is a number.
    IsEqual(u64, u32, u64, u32),
    Hash(&'static [Operand], u32),
    /// Calls a cell of an array by two memops that have the same argument.
    Touch(u32, u64, Sides, Operand, Option<u32>),
    /// Prints fields.
    Say(&'static [Operand]),
    /// Sends event 0 in a slot, with a delay and to a switch.
    Send(u32, &'static [Operand], Operand, Option<Operand>),
}

/// What a call of a cell returns, and what it stores.
type Sides = (MemSide, MemSide);

const STORED: MemSide = MemSide::One(MemArg::Stored);

const SUM: MemSide = MemSide::Two(BinOp::Add, MemArg::Stored, MemArg::Arg);

/// Reads a cell.
pub(crate) const GET: Sides = (STORED, STORED);

/// Adds the argument to a cell, and returns the sum.
pub(crate) const COUNT: Sides = (SUM, SUM);

/// Stores the argument in a cell, and returns the old number.
pub(crate) const SWAP: Sides = (STORED, MemSide::One(MemArg::Arg));

/// An operation: its guard, its level and its act.
pub(crate) type Line = (&'static [Literal], u32, Does);

/// Code: the bits of its fields, the sizes of its arrays, the bits of a cell, and the operations.
#[derive(Clone, Copy)]
pub(crate) struct Given {
    pub(crate) fields: &'static [u64],
    pub(crate) arrays: &'static [u32],
    pub(crate) cell: u64,
    pub(crate) ops: &'static [Line],
}

/// That the event is number 1.
pub(crate) const EVENT: Literal = Literal {
    field: 0,
    equal: true,
    value: 1,
};

/// That field 5 is 1.
pub(crate) const YES: Literal = Literal {
    field: 5,
    equal: true,
    value: 1,
};

/// That field 5 is 0.
const NO: Literal = Literal {
    field: 5,
    equal: true,
    value: 0,
};

/// `int n = 0; if (v == 0) { n = Array.get(x, 0); } else { n = Array.get(x, 1); } generate out(n);`
pub(crate) const BRANCHES: Given = Given {
    fields: &[32, 32, 32, 32, 32, 1, 32, 32, 32, 32, 32],
    arrays: &[4],
    cell: 32,
    ops: &[
        (&[EVENT], 0, Does::Move(Operand::Fixed(0), 4)),
        (&[EVENT], 0, Does::IsEqual(32, 3, 0, 5)),
        (
            &[EVENT, YES],
            0,
            Does::Touch(0, 0, GET, Operand::Fixed(0), Some(6)),
        ),
        (&[EVENT, YES], 1, Does::Move(Operand::Field(6), 7)),
        (
            &[EVENT, NO],
            0,
            Does::Touch(0, 1, GET, Operand::Fixed(0), Some(8)),
        ),
        (&[EVENT, NO], 1, Does::Move(Operand::Field(8), 9)),
        (&[EVENT, YES], 1, Does::Move(Operand::Field(7), 10)),
        (&[EVENT, NO], 1, Does::Move(Operand::Field(9), 10)),
        (
            &[EVENT],
            1,
            Does::Send(
                0,
                &[Operand::Field(10)],
                Operand::Field(10),
                Some(Operand::Field(10)),
            ),
        ),
    ],
};

/// Two calls of an array whose guards contradict.
pub(crate) const APART: Given = Given {
    fields: &[32, 32, 32, 32, 32, 1, 32, 32],
    arrays: &[4],
    cell: 32,
    ops: &[
        (
            &[YES],
            0,
            Does::Touch(0, 0, GET, Operand::Fixed(0), Some(6)),
        ),
        (&[NO], 0, Does::Touch(0, 1, GET, Operand::Fixed(0), Some(7))),
    ],
};

/// Two calls of an array under one guard.
pub(crate) const TOGETHER: Given = Given {
    fields: &[32, 32, 32, 32, 32, 1, 32, 32],
    arrays: &[4],
    cell: 32,
    ops: &[
        (
            &[YES],
            0,
            Does::Touch(0, 0, GET, Operand::Fixed(0), Some(6)),
        ),
        (
            &[YES],
            0,
            Does::Touch(0, 1, GET, Operand::Fixed(0), Some(7)),
        ),
    ],
};

fn width(bits: u64) -> Width {
    match Width::new(bits) {
        None => Width::int(),
        Some(width) => width,
    }
}

fn memop(width: Width, side: MemSide) -> MemAlu {
    MemAlu {
        width,
        test: None,
        yes: side,
        no: side,
    }
}

fn operands(rt: &impl Abort, alloc: Global, given: &[Operand]) -> Items<Operand> {
    Items::from_slice(alloc, given).expect(rt, "memory")
}

fn act(rt: &impl Abort, alloc: Global, does: Does, cell: Width) -> Act {
    match does {
        Does::Move(a, to) => Act::Move(a, to),
        Does::Cast(a, to) => Act::Cast(a, to),
        Does::Negate(bits, a, to) => Act::Un(UnOp::Neg, width(bits), a, to),
        Does::Add(bits, a, b, to) => Act::Bin(BinOp::Add, width(bits), a, b, to),
        Does::IsEqual(bits, field, value, to) => Act::Cmp(
            CmpOp::Eq,
            width(bits),
            Operand::Field(field),
            Operand::Fixed(value),
            to,
        ),
        Does::Hash(words, to) => Act::Hash(operands(rt, alloc, words), to),
        Does::Touch(array, index, (get, set), arg, to) => Act::Touch {
            array,
            index: Operand::Fixed(index),
            get: memop(cell, get),
            get_arg: arg,
            set: memop(cell, set),
            set_arg: arg,
            to,
        },
        Does::Say(fields) => Act::Say {
            slot: 0,
            form: 0,
            args: operands(rt, alloc, fields),
        },
        Does::Send(slot, fields, delay, to) => Act::Gen {
            slot,
            event: 0,
            args: operands(rt, alloc, fields),
            delay,
            to,
        },
    }
}

fn put(rt: &impl Abort, alloc: Global, ops: &mut Vec<Op>, line: Line, cell: Width) {
    let (guard, level, does) = line;
    let guard = Guard::from_slice(alloc, guard).expect(rt, "memory");
    let act = act(rt, alloc, does, cell);
    ops.push(Op { guard, level, act }).expect(rt, "memory");
}

fn operations(rt: &impl Abort, alloc: Global, given: &Given) -> Vec<Op> {
    let mut ops = Vec::new(alloc);
    for line in given.ops {
        put(rt, alloc, &mut ops, *line, width(given.cell));
    }
    ops
}

/// Arrays of these sizes.
pub(crate) fn arrays(rt: &impl Abort, alloc: Global, width: Width, sizes: &[u32]) -> Vec<ArrayDef> {
    let mut arrays = Vec::new(alloc);
    for size in sizes {
        let name = Id::new(alloc, &[]).expect(rt, "memory");
        let array = ArrayDef {
            name,
            width,
            size: *size,
        };
        arrays.push(array).expect(rt, "memory");
    }
    arrays
}

fn widths(rt: &impl Abort, alloc: Global, fields: &[u64]) -> Vec<Width> {
    let mut widths = Vec::new(alloc);
    for bits in fields {
        widths.push(width(*bits)).expect(rt, "memory");
    }
    widths
}

/// Builds a code; None if it is not valid.
pub(crate) fn code(rt: &impl Abort, alloc: Global, given: &Given) -> Option<Code> {
    let fields = widths(rt, alloc, given.fields);
    let arrays = arrays(rt, alloc, width(given.cell), given.arrays);
    let ops = operations(rt, alloc, given);
    Code::new(alloc, fields, INPUTS, arrays, ops).expect(rt, "memory")
}

fn moves(rt: &impl Abort, alloc: Global, count: u32) -> Vec<Op> {
    let mut ops = Vec::new(alloc);
    for at in 0..count.min(5_000) {
        let moved = Does::Move(Operand::Fixed(1), 4 + at);
        put(rt, alloc, &mut ops, (&[], 0, moved), Width::int());
    }
    ops
}

/// Builds code of this many operations without a guard, each with a field of its own.
pub(crate) fn many(rt: &impl Abort, alloc: Global, count: u32) -> Option<Code> {
    let fields = (vec![in alloc; Width::int(); 5_004]).expect(rt, "memory");
    let ops = moves(rt, alloc, count);
    Code::new(alloc, fields, INPUTS, Vec::new(alloc), ops).expect(rt, "memory")
}
