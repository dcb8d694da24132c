// The ends of expressions, statements and bodies, of which no part remains.
ghost use Rattle.std.specs.Prelude.{◌≡◌, OnOk};
ghost use Rattle.lucid_code.specs.declared.op.Act.TheVariants as act;
ghost use Rattle.lucid_normal_spec.specs.Translate.{emit, out_made, return_none};
ghost use Rattle.lucid_normal.specs.Bodies.{after_end, expressed, finished, sent, target_in, walk};
ghost use Rattle.lucid_normal.specs.declared.task.End.TheVariants.{Answer, Assign, BinRight, Cast, CmpRight, TouchSet, Un};

use crate::branches::join_branches;
use crate::machine::Machine;
use crate::task::End;
use lucid_base::{BinOp, CmpOp, Items, Memory, UnOp, Width};
use lucid_code::Operand;
use lucid_core::Touch;
use lucid_normal_spec::Typed;
use lucid_normal_steps::{
    Caller, Context, answer, answer_nothing, assign, binary, call_array, cast, compare, hash,
    leave, needed, say, send, unary,
};

/// Ends an expression, a statement or a body whose parts are translated.
pub fn end<'a>(machine: &mut Machine, end: End<'a>) -> Result<(), Memory>
    ensures { OnOk result (walk machine.new ≡ after_end end.entry (walk machine.old)) }
{
    match end {
        End::Un(op) => emit_unary(machine, op),
        End::BinRight(op, x) => emit_binary(machine, op, x),
        End::CmpRight(op, x) => emit_comparison(machine, op, x),
        End::Cast(width) => emit_cast(machine, width),
        End::TouchSet(t, index, get_arg) => emit_touch(machine, t, index, get_arg),
        End::Leave(caller) => {
            machine.value = leave(&mut machine.work, &mut machine.env, caller);
            Ok(())
        }
        End::Assign(local) => assign_local(machine, local),
        End::Drop => {
            machine.value = None;
            Ok(())
        }
        End::Answer => return_value(machine),
        End::SendTo {
            event,
            args,
            delay,
            targeted,
        } => {
            let to = target_of(targeted, machine.value);
            emit_event(machine, event, args, delay, to)
        }
        End::SendAfter { event, args, to } => {
            let delay = needed(machine.value).operand;
            emit_event(machine, event, args, delay, to)
        }
        End::Join {
            turned,
            condition,
            outer,
        } => join_branches(machine, turned, condition, outer),
    }
}

/// The target of an event, from the value of its expression, if it has one.
pub fn target_of(targeted: bool, value: Option<Typed>) -> Option<Operand>
    ensures { result ≡ target_in targeted value }
{
    if targeted {
        Some(needed(value).operand)
    } else {
        None
    }
}

fn emit_unary(machine: &mut Machine, op: UnOp) -> Result<(), Memory>
    ensures { OnOk result (walk machine.new ≡ after_end (Un op) (walk machine.old)) }
{
    let x = needed(machine.value);
    let context = Context {
        alloc: machine.alloc,
        guard: &machine.guard,
    };
    machine.value = unary(context, &mut machine.work.ops, &mut machine.env, op, x)?;
    Ok(())
}

fn emit_binary(machine: &mut Machine, op: BinOp, x: Typed) -> Result<(), Memory>
    ensures { OnOk result (walk machine.new ≡ after_end (BinRight op x) (walk machine.old)) }
{
    let y = needed(machine.value);
    let context = Context {
        alloc: machine.alloc,
        guard: &machine.guard,
    };
    machine.value = binary(context, &mut machine.work.ops, &mut machine.env, op, x, y)?;
    Ok(())
}

fn emit_comparison(machine: &mut Machine, op: CmpOp, x: Typed) -> Result<(), Memory>
    ensures { OnOk result (walk machine.new ≡ after_end (CmpRight op x) (walk machine.old)) }
{
    let y = needed(machine.value);
    let context = Context {
        alloc: machine.alloc,
        guard: &machine.guard,
    };
    machine.value = compare(context, &mut machine.work.ops, &mut machine.env, op, x, y)?;
    Ok(())
}

fn emit_cast(machine: &mut Machine, width: Width) -> Result<(), Memory>
    ensures { OnOk result (walk machine.new ≡ after_end (Cast width) (walk machine.old)) }
{
    let x = needed(machine.value);
    let context = Context {
        alloc: machine.alloc,
        guard: &machine.guard,
    };
    machine.value = cast(context, &mut machine.work.ops, &mut machine.env, width, x)?;
    Ok(())
}

/// The hash of these operands.
pub fn emit_hash(
    machine: &mut Machine,
    width: Width,
    operands: Items<Operand>,
) -> Result<(), Memory>
    ensures { OnOk result (walk machine.new ≡ expressed (emit width (act.Hash operands)) (walk machine.old)) }
{
    let context = Context {
        alloc: machine.alloc,
        guard: &machine.guard,
    };
    machine.value = hash(
        context,
        &mut machine.work.ops,
        &mut machine.env,
        width,
        operands,
    )?;
    Ok(())
}

/// The call of an array, after the argument of its second memop.
fn emit_touch(machine: &mut Machine, t: &Touch, index: Typed, get_arg: Typed) -> Result<(), Memory>
    ensures { OnOk result (walk machine.new ≡ after_end (TouchSet t.entry index get_arg) (walk machine.old)) }
{
    let set_arg = needed(machine.value);
    let context = Context {
        alloc: machine.alloc,
        guard: &machine.guard,
    };
    machine.value = call_array(
        context,
        &mut machine.work.ops,
        &mut machine.env,
        t,
        index,
        get_arg,
        set_arg,
    )?;
    Ok(())
}

fn assign_local(machine: &mut Machine, local: u32) -> Result<(), Memory>
    ensures { OnOk result (walk machine.new ≡ after_end (Assign local) (walk machine.old)) }
{
    let t = needed(machine.value);
    let context = Context {
        alloc: machine.alloc,
        guard: &machine.guard,
    };
    assign(context, &mut machine.work, &mut machine.env, local, t)?;
    machine.value = None;
    Ok(())
}

/// Returns the value from the body.
fn return_value(machine: &mut Machine) -> Result<(), Memory>
    ensures { OnOk result (walk machine.new ≡ after_end Answer (walk machine.old)) }
{
    let t = needed(machine.value);
    answer(machine.alloc, &mut machine.work, &mut machine.env, t)?;
    machine.value = None;
    Ok(())
}

/// Returns from the body without a value.
pub fn return_nothing(machine: &mut Machine) -> Result<(), Memory>
    ensures { OnOk result (walk machine.new ≡ finished return_none (walk machine.old)) }
{
    answer_nothing(machine.alloc, &mut machine.work, &mut machine.env)?;
    machine.value = None;
    Ok(())
}

fn emit_event(
    machine: &mut Machine,
    event: u32,
    args: Items<Operand>,
    delay: Operand,
    to: Option<Operand>,
) -> Result<(), Memory>
    ensures { OnOk result (walk machine.new ≡ finished (sent event args delay to) (walk machine.old)) }
{
    let context = Context {
        alloc: machine.alloc,
        guard: &machine.guard,
    };
    send(
        context,
        &mut machine.work.ops,
        &mut machine.env,
        event,
        args,
        delay,
        to,
    )?;
    machine.value = None;
    Ok(())
}

/// The print of these operands.
pub fn emit_print(machine: &mut Machine, form: u32, operands: Items<Operand>) -> Result<(), Memory>
    ensures { OnOk result (walk machine.new ≡ finished (out_made (λ slot. act.Say slot form operands)) (walk machine.old)) }
{
    let context = Context {
        alloc: machine.alloc,
        guard: &machine.guard,
    };
    say(
        context,
        &mut machine.work.ops,
        &mut machine.env,
        form,
        operands,
    )?;
    machine.value = None;
    Ok(())
}
