// Inlined bodies: entering one, and leaving it with the caller's bindings.
ghost use Rattle.std.specs.Prelude.{◌≡◌, IfOk, OnOk};
ghost use Rattle.lucid_normal_spec.specs.Translate.{holding};
ghost use Rattle.lucid_normal_steps.specs.Notes.{before};

use crate::notes::{Note, hold, put_back};
use crate::work::Work;
use lucid_base::{Items, Memory};
use lucid_normal_spec::{Env, Typed};
use std::alloc::Global;

/// The caller's notes, and the operand of its answer.
#[derive(Drop)]
pub struct Caller {
    pub notes: Vec<Note>,
    pub answer: Option<Typed>,
}

/// Lets the arguments hold their locals, and begins notes of the body.
pub fn enter(
    alloc: Global,
    work: &mut Work,
    env: &mut Env,
    given: Items<(u32, Typed)>,
) -> Result<Caller, Memory>
    ensures caller { IfOk result (λ c. (c.notes.items ≡ work.old.notes.items) × (c.answer ≡ env.old.answer)) }
    ensures env { OnOk result (env.new ≡ record env.old { held = holding env.old.held given; answer = None }) }
    ensures ops { OnOk result (work.new.ops.items ≡ work.old.ops.items) }
    ensures back { OnOk result (before work.new.notes.items env.new.held ≡ env.old.held) }
{
    let notes = std::mem::replace(&mut work.notes, Vec::new(alloc));
    hold_all(&mut env.held, &mut work.notes, given.as_slice())?;
    let answer = std::mem::replace(&mut env.answer, None);
    Ok(Caller { notes, answer })
}

fn hold_all(
    held: &mut Items<Option<Typed>>,
    notes: &mut Vec<Note>,
    given: &[(u32, Typed)],
) -> Result<(), Memory>
    ensures held { OnOk result (held.new ≡ holding held.old given.now) }
    ensures back { OnOk result (before notes.new.items held.new ≡ before notes.old.items held.old) }
{
    for (i, t) in given {
        hold(held, notes, *i, Some(*t))?;
    }
    Ok(())
}

/// Returns the body's answer and restores the caller's locals and answer.
pub fn leave(work: &mut Work, env: &mut Env, caller: Caller) -> Option<Typed>
    ensures value { result ≡ env.old.answer }
    ensures env { env.new ≡ record env.old { held = before work.old.notes.items env.old.held; answer = caller.answer } }
    ensures ops { work.new.ops.items ≡ work.old.ops.items }
    ensures notes { work.new.notes.items ≡ caller.notes.items }
{
    let notes = std::mem::replace(&mut work.notes, caller.notes);
    put_back(&mut env.held, Items::from_vec(notes));
    std::mem::replace(&mut env.answer, caller.answer)
}
