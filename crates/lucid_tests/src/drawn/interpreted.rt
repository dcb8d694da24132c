// An interpreter of code, which runs the operations in the order of the list, each on the fields that the ones before it wrote. It has no
// table, stage or register.
use crate::drawn::whole::Input;
use lucid_base::{Args, Bits, Cells, Event, Out, Outs, Target};
use lucid_code::{Act, Code, Literal, Operand};
use lucid_pipe::Passed;
use std::alloc::Global;
use std::process::Abort;

fn value(fields: &[u64], operand: Operand) -> u64 {
    match operand {
        Operand::Fixed(v) => v,
        Operand::Field(k) => match fields.get(k as usize) {
            None => 0,
            Some(v) => *v,
        },
    }
}

fn all_hold(fields: &[u64], guard: &[Literal]) -> bool {
    for literal in guard {
        let is_equal = value(fields, Operand::Field(literal.field)) == literal.value;
        if is_equal != literal.equal {
            return false;
        }
    }
    true
}

fn arguments(fields: &[u64], operands: &[Operand]) -> Args {
    let mut args = Args::new();
    for operand in operands {
        if args.as_slice().len() < 8 {
            args.push(value(fields, *operand));
        }
    }
    args
}

/// Stores the low bits of a value in a field.
fn store(code: &Code, fields: &mut Vec<u64>, k: u32, value: u64) {
    let at = k as usize;
    if at < fields.len() && at < code.fields().len() {
        fields[at] = Bits::low(code.fields()[at], value).value;
    }
}

/// The out of an act that sends or says.
fn out(fields: &[u64], act: &Act) -> Option<(u32, Out)> {
    match act {
        Act::Gen {
            slot,
            event,
            args,
            delay,
            to,
        } => {
            let event = Event {
                id: *event,
                args: arguments(fields, args.as_slice()),
            };
            let delay = value(fields, *delay);
            let to = match to {
                None => Target::Here,
                Some(switch) => Target::At(value(fields, *switch)),
            };
            Some((*slot, Out::Gen { event, delay, to }))
        }
        Act::Say { slot, form, args } => {
            let args = arguments(fields, args.as_slice());
            Some((*slot, Out::Say { form: *form, args }))
        }
        _ => None,
    }
}

/// The number that an act computes, or that it gets from a cell. It calls the cell.
fn made(fields: &[u64], act: &Act, cells: &mut Cells) -> u64 {
    match act {
        Act::Touch {
            array,
            index,
            get,
            get_arg,
            set,
            set_arg,
            ..
        } => {
            let cell = value(fields, *index);
            let get_arg = value(fields, *get_arg);
            let set_arg = value(fields, *set_arg);
            let touched = cells.touch(*array, cell, get, get_arg, set, set_arg);
            touched.answer.value
        }
        _ => act.result(fields, cells),
    }
}

/// The fields of a packet before its first operation.
fn loaded(rt: &impl Abort, alloc: Global, code: &Code, input: &Input) -> Vec<u64> {
    let mut fields = (vec![in alloc; 0u64; code.fields().len()]).expect(rt, "memory");
    store(code, &mut fields, 0, u64::from(input.event.id));
    store(code, &mut fields, 1, input.now);
    store(code, &mut fields, 2, u64::from(input.me));
    let mut field = 3u32;
    for arg in input.event.args.as_slice() {
        store(code, &mut fields, field, *arg);
        field = field.saturating_add(1);
    }
    fields
}

/// The outs in the order of their slots.
fn outs_of(sent: &[(u32, Out)]) -> Outs {
    let mut outs = Outs::new();
    for slot in 0..8u32 {
        for (at, out) in sent {
            if *at == slot && outs.as_slice().len() < 8 {
                outs.push(*out);
            }
        }
    }
    outs
}

/// Runs the operations on an input, one after another.
pub(crate) fn interpret(
    rt: &impl Abort,
    alloc: Global,
    code: &Code,
    input: &Input,
    cells: &mut Cells,
) -> Passed {
    let mut fields = loaded(rt, alloc, code, input);
    let mut sent = Vec::new(alloc);
    for op in code.ops() {
        if all_hold(fields.as_slice(), op.guard.as_slice()) {
            if let Some(out) = out(fields.as_slice(), &op.act) {
                sent.push(out).expect(rt, "memory");
            }
            let made = made(fields.as_slice(), &op.act, cells);
            if let Some(k) = op.act.written() {
                store(code, &mut fields, k, made);
            }
        }
    }
    let outs = outs_of(sent.as_slice());
    drop(sent);
    drop(fields);
    Passed {
        event: input.event,
        now: input.now,
        me: input.me,
        outs,
    }
}
