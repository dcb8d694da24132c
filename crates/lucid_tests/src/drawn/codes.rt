// Drawn code, group by group. The operations of a group write one field, call one array or have one slot, under guards that contradict;
// each reads inputs and the fields of groups before it, written or not. So the code is valid, and much of it is as no program's is: guards
// ask that a field is no value, contradict themselves or say a thing twice, and much is computed that no operation reads.
use crate::codes::arrays;
use crate::drawn::draws::Draws;
use lucid_base::{Bits, Items, Width};
use lucid_code::{Act, Code, Guard, Inputs, Literal, Op, Operand};
use std::alloc::Global;
use std::process::Abort;

/// That the event is the first.
const EVENT: Literal = Literal {
    field: 0,
    equal: true,
    value: 0,
};

/// The resource that the operations of a group share.
#[derive(Clone, Copy)]
enum Target {
    Field(Width),
    Array(u32),
    Slot(u32),
}

fn field(draws: &mut Draws, fields: &[Width]) -> u32 {
    let count = fields.len().max(1) as u64;
    u32::try_from(draws.below(count)).unwrap_or(0)
}

fn width_of(fields: &[Width], k: u32) -> Width {
    match fields.get(k as usize) {
        None => Width::int(),
        Some(width) => *width,
    }
}

fn operand(draws: &mut Draws, fields: &[Width]) -> Operand {
    if draws.below(4) == 0 {
        Operand::Fixed(draws.number())
    } else {
        Operand::Field(field(draws, fields))
    }
}

/// One to three.
fn operands(rt: &impl Abort, alloc: Global, draws: &mut Draws, fields: &[Width]) -> Items<Operand> {
    let mut operands = Items::new(alloc);
    for _turn in 0..1 + draws.below(3) {
        let operand = operand(draws, fields);
        operands.push(operand).expect(rt, "memory");
    }
    operands
}

fn literal(draws: &mut Draws, fields: &[Width]) -> Literal {
    let field = field(draws, fields);
    Literal {
        field,
        equal: draws.below(3) != 0,
        value: Bits::low(width_of(fields, field), draws.below(4)).value,
    }
}

/// A literal that never holds together with this one: that the field is not this value, or another.
fn opposed(draws: &mut Draws, literal: Literal) -> Literal {
    let is_other = literal.equal && draws.below(2) == 0;
    Literal {
        field: literal.field,
        equal: is_other || !literal.equal,
        value: literal.value ^ u64::from(is_other),
    }
}

/// A literal that a guard seldom has behind this one: the same, or one that contradicts it.
fn second(draws: &mut Draws, literal: Literal) -> Option<Literal> {
    match draws.below(12) {
        0 => Some(opposed(draws, literal)),
        1 => Some(literal),
        _ => None,
    }
}

/// A guard that has the literals of a list.
fn guard(
    rt: &impl Abort,
    alloc: Global,
    draws: &mut Draws,
    fields: &[Width],
    given: &[Literal],
) -> Guard {
    let mut literals = Items::from_slice(alloc, given).expect(rt, "memory");
    if draws.below(2) == 1 {
        let literal = literal(draws, fields);
        literals.push(literal).expect(rt, "memory");
        if let Some(second) = second(draws, literal) {
            literals.push(second).expect(rt, "memory");
        }
    }
    Guard::new(alloc, literals).expect(rt, "memory")
}

fn computed(
    rt: &impl Abort,
    alloc: Global,
    draws: &mut Draws,
    fields: &[Width],
    width: Width,
    to: u32,
) -> Act {
    let k = field(draws, fields);
    let a = operand(draws, fields);
    let b = Operand::Fixed(draws.number());
    match draws.below(10) {
        0 => Act::Un(draws.unary(), width, a, to),
        1 => Act::Bin(draws.binary(), width, a, b, to),
        2 => Act::Bin(draws.binary(), width, Operand::Field(k), a, to),
        3 => Act::Cast(a, to),
        4 => Act::Hash(operands(rt, alloc, draws, fields), to),
        5 | 6 => Act::Move(b, to),
        _ if width != Width::bool() => Act::Move(a, to),
        7 => Act::Cmp(draws.comparison(), Width::int(), a, b, to),
        _ => Act::Cmp(
            draws.comparison(),
            width_of(fields, k),
            Operand::Field(k),
            b,
            to,
        ),
    }
}

fn touched(draws: &mut Draws, fields: &[Width], cell: Width, array: u32, to: u32) -> Act {
    Act::Touch {
        array,
        index: operand(draws, fields),
        get: draws.memop(cell),
        get_arg: operand(draws, fields),
        set: draws.memop(cell),
        set_arg: operand(draws, fields),
        to: if draws.below(4) == 0 { None } else { Some(to) },
    }
}

fn sent(rt: &impl Abort, alloc: Global, draws: &mut Draws, fields: &[Width], slot: u32) -> Act {
    let delay = operand(draws, fields);
    let to = operand(draws, fields);
    let event = draws.below(3) as u32;
    let args = operands(rt, alloc, draws, fields);
    match event {
        0 => Act::Say {
            slot,
            form: 7,
            args,
        },
        _ => Act::Gen {
            slot,
            event,
            args,
            delay,
            to: if event == 1 { None } else { Some(to) },
        },
    }
}

/// Code that grows. Each group has a field of its own, which it may leave unwritten. Arrays from `level` on may still be called, all with
/// cells of one width, and `slots` slots are taken.
#[derive(Drop)]
struct Draft {
    fields: Vec<Width>,
    ops: Vec<Op>,
    cell: Width,
    level: u32,
    slots: u32,
}

impl Draft {
    fn act(&self, rt: &impl Abort, alloc: Global, draws: &mut Draws, target: &Target) -> Act {
        let fields = self.fields.as_slice();
        let to = u32::try_from(fields.len()).unwrap_or(0);
        match target {
            Target::Field(width) => computed(rt, alloc, draws, fields, *width, to),
            Target::Slot(slot) => sent(rt, alloc, draws, fields, *slot),
            Target::Array(array) => touched(draws, fields, self.cell, *array, to),
        }
    }

    fn put(
        &mut self,
        rt: &impl Abort,
        alloc: Global,
        draws: &mut Draws,
        given: &[Literal],
        level: u32,
        target: &Target,
    ) {
        let guard = guard(rt, alloc, draws, self.fields.as_slice(), given);
        let act = self.act(rt, alloc, draws, target);
        self.ops.push(Op { guard, level, act }).expect(rt, "memory");
    }

    fn target(&mut self, draws: &mut Draws) -> Target {
        let array = self.level.saturating_add(draws.below(2) as u32);
        match draws.below(6) {
            0 if array < 3 => {
                self.level = array + 1;
                Target::Array(array)
            }
            1 if self.slots < 8 => {
                self.slots += 1;
                Target::Slot(8 - self.slots)
            }
            _ => Target::Field(draws.width()),
        }
    }

    /// A group of one operation, or of two.
    fn grow(&mut self, rt: &impl Abort, alloc: Global, draws: &mut Draws) {
        let level = self.level;
        let target = self.target(draws);
        let one = literal(draws, self.fields.as_slice());
        let other = opposed(draws, one);
        match draws.below(5) {
            0 | 1 => self.put(rt, alloc, draws, &[], level, &target),
            2 => self.put(rt, alloc, draws, &[EVENT], level, &target),
            _ => {
                self.put(rt, alloc, draws, &[EVENT, one], level, &target);
                self.put(rt, alloc, draws, &[other], level, &target);
            }
        }
        let width = self.width(&target);
        self.fields.push(width).expect(rt, "memory");
    }

    /// The width of the field of a group.
    fn width(&self, target: &Target) -> Width {
        match target {
            Target::Field(width) => *width,
            _ => self.cell,
        }
    }
}

const INPUTS: Inputs = Inputs {
    event: 0,
    now: 1,
    me: 2,
    args: 2,
};

/// Code of two arguments and three arrays.
pub(crate) fn code(rt: &impl Abort, alloc: Global, draws: &mut Draws) -> Option<Code> {
    let cell = draws.width();
    let mut fields = vec![in alloc; Width::int(); 3].expect(rt, "memory");
    fields.push(draws.width()).expect(rt, "memory");
    fields.push(draws.width()).expect(rt, "memory");
    let groups = 4 + draws.below(8);
    let mut draft = Draft {
        fields,
        ops: Vec::new(alloc),
        cell,
        level: 0,
        slots: 0,
    };
    for _group in 0..groups {
        draft.grow(rt, alloc, draws);
    }
    let arrays = arrays(rt, alloc, cell, &[1, 2, 3]);
    let Draft { fields, ops, .. } = draft;
    Code::new(alloc, fields, INPUTS, arrays, ops).expect(rt, "memory")
}
