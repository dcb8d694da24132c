// The translation of statements from their operands.
ghost use Rattle.std.specs.Prelude.{◌≡◌, ◌+◌, IfOk, OnOk};
ghost use Rattle.lucid_code.specs.declared.op.Act.TheVariants as act;
ghost use Rattle.lucid_normal_spec.specs.Translate.{assign as assigned, out_made, return_made, return_none};
ghost use Rattle.lucid_normal_steps.specs.Added.{added};
ghost use Rattle.lucid_normal_steps.specs.Notes.{before};

use crate::context::{Context, next, put};
use crate::notes::{clear, hold};
use crate::work::Work;
use lucid_base::{Items, Memory};
use lucid_code::{Act, Op, Operand};
use lucid_normal_spec::{Env, Typed};
use std::alloc::Global;

/// A move to a new field, which holds the local from now on.
pub fn assign(
    context: Context,
    work: &mut Work,
    env: &mut Env,
    i: u32,
    t: Typed,
) -> Result<(), Memory>
    ensures env { OnOk result (env.new ≡ (assigned i t env.old).env) }
    ensures ops { OnOk result (work.new.ops.items ≡ added context.entry.guard.now work.old.ops.items (assigned i t env.old).ops) }
    ensures back { OnOk result (before work.new.notes.items env.new.held ≡ before work.old.notes.items env.old.held) }
{
    let k = next(&env.widths)?;
    put(context, &mut work.ops, env.place, Act::Move(t.operand, k))?;
    env.widths.push(t.width)?;
    let field = Typed {
        operand: Operand::Field(k),
        width: t.width,
    };
    hold(&mut env.held, &mut work.notes, i, Some(field))
}

/// A return, with a value or without.
pub fn answer(alloc: Global, work: &mut Work, env: &mut Env, t: Typed) -> Result<(), Memory>
    ensures env { OnOk result (env.new ≡ (return_made t env.old).env) }
    ensures ops { OnOk result (work.new.ops.items ≡ work.old.ops.items) }
    ensures back { OnOk result (before work.new.notes.items env.new.held ≡ before work.old.notes.items env.old.held) }
{
    env.answer = Some(t);
    clear(alloc, &mut env.held, &mut work.notes)
}

pub fn answer_nothing(alloc: Global, work: &mut Work, env: &mut Env) -> Result<(), Memory>
    ensures env { OnOk result (env.new ≡ (return_none env.old).env) }
    ensures ops { OnOk result (work.new.ops.items ≡ work.old.ops.items) }
    ensures back { OnOk result (before work.new.notes.items env.new.held ≡ before work.old.notes.items env.old.held) }
{
    clear(alloc, &mut env.held, &mut work.notes)
}

/// An event that is sent out, in the next slot.
pub fn send(
    context: Context,
    ops: &mut Vec<Op>,
    env: &mut Env,
    event: u32,
    args: Items<Operand>,
    delay: Operand,
    to: Option<Operand>,
) -> Result<(), Memory>
    ensures env { OnOk result (env.new ≡ (out_made (λ slot. act.Gen slot event args delay to) env.old).env) }
    ensures ops { OnOk result (ops.new.items
        ≡ added context.entry.guard.now ops.old.items (out_made (λ slot. act.Gen slot event args delay to) env.old).ops) }
{
    let slot = env.slot;
    let act = Act::Gen {
        slot,
        event,
        args,
        delay,
        to,
    };
    put(context, ops, env.place, act)?;
    env.slot = behind(slot)?;
    Ok(())
}

/// A text that is printed, in the next slot.
pub fn say(
    context: Context,
    ops: &mut Vec<Op>,
    env: &mut Env,
    form: u32,
    args: Items<Operand>,
) -> Result<(), Memory>
    ensures env { OnOk result (env.new ≡ (out_made (λ slot. act.Say slot form args) env.old).env) }
    ensures ops { OnOk result (ops.new.items
        ≡ added context.entry.guard.now ops.old.items (out_made (λ slot. act.Say slot form args) env.old).ops) }
{
    let slot = env.slot;
    put(context, ops, env.place, Act::Say { slot, form, args })?;
    env.slot = behind(slot)?;
    Ok(())
}

fn behind(slot: u32) -> Result<u32, Memory>
    ensures { IfOk result (λ next. next ≡ slot + 1) }
{
    match slot.checked_add(1) {
        None => Err(Memory),
        Some(next) => Ok(next),
    }
}
