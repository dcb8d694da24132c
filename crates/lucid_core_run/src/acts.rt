// Acts: the ends of tasks, of which nothing remains.
ghost use Rattle.std.specs.Prelude.{◌≡◌, ◌∷◌, ◌++◌, [], OnOk, OnErr, map, slice_set};
ghost use Rattle.lucid_core.specs.Computations.{array_of, change, send as send_outs};
ghost use Rattle.lucid_core.specs.Meaning.{generated};
ghost use Rattle.lucid_base.specs.declared.event.Target.TheVariants.{At};
ghost use Rattle.lucid_core_run.specs.Running.{out_of, with_state};
ghost use Rattle.lucid_core_run.specs.Interpret.{after_act, done, left, sent, sent_to_each, touch_now, with_value};

use crate::draft::Draft;
use crate::machine::Machine;
use crate::operate::{binary, comparison, nothing, unary};
use crate::run::{Caller, Run};
use crate::task::Act;
use lucid_base::{ArrayName, Bits, Items, Memory, Target};
use lucid_core::{FunDef, Touch};
use std::alloc::Global;

/// Ends an expression, a statement or a body whose operands are evaluated.
pub fn end<'a>(machine: &mut Machine<'a>, act: Act<'a>) -> Result<(), Memory>
    ensures acted { OnOk result (machine.new ≡ after_act act.entry machine.old) }
    ensures start { machine.new.run.start ≡ machine.old.run.start }
{
    let value = machine.value;
    match act {
        Act::Un(op) => set(machine, unary(op, value)),
        Act::BinRight(op, a) => set(machine, binary(op, a, value)),
        Act::CmpRight(op, a) => set(machine, comparison(op, a, value)),
        Act::Cast(width) => set(machine, Bits::low(width, value.value)),
        Act::TouchSet(t, index, get_arg) => touch(machine, t, index, get_arg),
        Act::LeaveInlined(caller) => {
            leave(machine, caller);
            Ok(())
        }
        Act::Leave(caller, arrays, funs) => {
            leave_call(machine, caller, arrays, funs);
            Ok(())
        }
        Act::Assign(local) => {
            assign(machine, local);
            Ok(())
        }
        Act::Drop => set(machine, nothing()),
        Act::Answer => {
            answer(machine);
            Ok(())
        }
        Act::SendTo { event, args, delay } => {
            send_event(machine, event, args, delay, Target::At(value.value))
        }
        Act::SendAfter { event, args, to } => send_event(machine, event, args, value.value, to),
        Act::SendEach {
            event,
            args,
            members,
        } => send_to_each(machine, event, args, value.value, members),
    }
}

/// Sets the value.
pub fn set(machine: &mut Machine, value: Bits) -> Result<(), Memory>
    ensures { machine.new ≡ with_value machine.old value }
{
    machine.value = value;
    Ok(())
}

/// Sends an event.
pub fn send_event(
    machine: &mut Machine,
    event: u32,
    args: Items<Bits>,
    delay: u64,
    to: Target,
) -> Result<(), Memory>
    ensures sent { OnOk result (machine.new ≡ sent event args delay to machine.old) }
    ensures start { machine.new.run.start ≡ machine.old.run.start }
{
    send(
        machine,
        Draft::Gen {
            event,
            args,
            delay,
            to,
        },
    )
}

/// Sends out what a statement makes.
pub fn send(machine: &mut Machine, draft: Draft) -> Result<(), Memory>
    ensures sent { OnOk result (machine.new ≡ done (send_outs (out_of draft ∷ [])) machine.old) }
    ensures start { machine.new.run.start ≡ machine.old.run.start }
{
    machine.run.send(draft)?;
    machine.value = nothing();
    Ok(())
}

/// Sends an event to each of these switches.
pub fn send_to_each(
    machine: &mut Machine,
    event: u32,
    args: Items<Bits>,
    delay: u64,
    members: &[u32],
) -> Result<(), Memory>
    ensures sent { OnOk result (machine.new ≡ sent_to_each event args delay members.now machine.old) }
    ensures start { machine.new.run.start ≡ machine.old.run.start }
{
    let values = args.as_slice();
    let sent = send_each(
        machine.alloc,
        &mut machine.run,
        event,
        values,
        delay,
        members,
    );
    drop(args);
    sent?;
    machine.value = nothing();
    Ok(())
}

pub fn assign(machine: &mut Machine, local: u32)
    ensures { machine.new ≡ done (change (λ s. record s { locals = slice_set s.locals local machine.old.value })) machine.old }
{
    machine.run.assign(local, machine.value);
    machine.value = nothing();
}

/// Keeps the value as the answer of the body.
pub fn answer(machine: &mut Machine)
    ensures { machine.new ≡ done (change (λ s. record s { answer = machine.old.value })) machine.old }
{
    machine.run.set_answer(machine.value);
    machine.value = nothing();
}

/// Ends a body. Its answer is the value of the caller.
pub fn leave(machine: &mut Machine, caller: Caller)
    ensures { machine.new ≡ left caller machine.old }
{
    machine.value = machine.run.leave(caller);
}

/// Ends a call. The caller's arrays and functions are in force again.
#[inline(always)]
pub fn leave_call<'a>(
    machine: &mut Machine<'a>,
    caller: Caller,
    arrays: Items<u32>,
    funs: &'a [FunDef],
)
    ensures { machine.new ≡ record (left caller machine.old) { arrays = arrays; funs = funs.entry } }
{
    leave(machine, caller);
    machine.arrays = arrays;
    machine.funs = funs;
}

/// Calls an array. The value is the argument of its second memop.
pub fn touch(machine: &mut Machine, t: &Touch, index: u64, get_arg: Bits) -> Result<(), Memory>
    ensures touched { OnOk result (machine.new ≡ touch_now t.now index get_arg machine.old) }
    ensures start { machine.new.run.start ≡ machine.old.run.start }
{
    let array = array_at(machine.arrays.as_slice(), t.array);
    machine.value = machine
        .run
        .touch(array, index, &t.get, get_arg, &t.set, machine.value)?;
    Ok(())
}

/// Returns the number of an array that a body names.
pub fn array_at(arrays: &[u32], name: ArrayName) -> u32
    ensures { result ≡ array_of arrays.now name }
{
    match name {
        ArrayName::Global(a) => a,
        ArrayName::Param(i) => match arrays.get(i as usize) {
            None => 0,
            Some(a) => *a,
        },
    }
}

/// Sends an event to each of these switches.
fn send_each(
    alloc: Global,
    run: &mut Run,
    event: u32,
    values: &[Bits],
    delay: u64,
    members: &[u32],
) -> Result<(), Memory>
    ensures sent { OnOk result (run.new ≡ with_state run.old (record run.old.state { outs = run.old.state.outs ++ map (generated event values.now delay) (map At members.now) })) }
    ensures start { OnErr result (run.new.start ≡ run.old.start) }
{
    for member in members {
        let args = Items::from_slice(alloc, values)?;
        let to = Target::At(*member as u64);
        run.send(Draft::Gen {
            event,
            args,
            delay,
            to,
        })?;
    }
    Ok(())
}
