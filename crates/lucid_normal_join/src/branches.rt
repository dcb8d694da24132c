// The two branches of an if: both begin where the condition ends.
ghost use Rattle.std.specs.Prelude.{◌≡◌, [], IfOk, OnOk};
ghost use Rattle.lucid_normal_join.specs.Branches.{ends_at, ends_of};
ghost use Rattle.lucid_normal_steps.specs.Notes.{before};

use lucid_base::{Items, Memory};
use lucid_normal_spec::{Env, Typed};
use lucid_normal_steps::{Note, Work, take_back};
use std::alloc::Global;

/// The environment at the start of the branches, and the earlier notes.
#[derive(Drop)]
pub struct Begun {
    pub notes: Vec<Note>,
    pub answer: Option<Typed>,
    pub slot: u32,
    pub place: u32,
}

/// The end of a branch: its changes since its start, or None if no local has an operand.
#[derive(Drop)]
pub struct Ended {
    pub notes: Option<Items<Note>>,
    pub answer: Option<Typed>,
    pub slot: u32,
    pub place: u32,
}

/// The first branch after it ended, and the notes from before the if.
#[derive(Drop)]
pub struct Turned {
    pub notes: Vec<Note>,
    pub first: Ended,
}

/// Begins the first branch, and notes of its own.
pub fn begin(alloc: Global, work: &mut Work, env: &Env) -> Begun
    ensures notes { result.notes.items ≡ work.old.notes.items }
    ensures begins { work.new.notes.items ≡ [] }
    ensures env { env.now ≡ record env.now { answer = result.answer; slot = result.slot; place = result.place } }
    ensures ops { work.new.ops.items ≡ work.old.ops.items }
{
    Begun {
        notes: std::mem::replace(&mut work.notes, Vec::new(alloc)),
        answer: env.answer,
        slot: env.slot,
        place: env.place,
    }
}

/// Ends the first branch, and begins the second where the first began.
pub fn turn(alloc: Global, work: &mut Work, env: &mut Env, begun: Begun) -> Result<Turned, Memory>
    ensures first { IfOk result (λ t. ends_at (before work.old.notes.items env.old.held) t.first ≡ ends_of env.old) }
    ensures notes { IfOk result (λ t. t.notes.items ≡ begun.notes.items) }
    ensures begins { OnOk result (work.new.notes.items ≡ []) }
    ensures env { OnOk result (env.new ≡ record env.old {
      held = before work.old.notes.items env.old.held;
      answer = begun.answer;
      slot = begun.slot;
      place = begun.place;
    }) }
    ensures ops { OnOk result (work.new.ops.items ≡ work.old.ops.items) }
{
    let noted = std::mem::replace(&mut work.notes, Vec::new(alloc));
    let notes = take_back(alloc, &mut env.held, Items::from_vec(noted))?;
    let first = Ended {
        notes,
        answer: std::mem::replace(&mut env.answer, begun.answer),
        slot: std::mem::replace(&mut env.slot, begun.slot),
        place: std::mem::replace(&mut env.place, begun.place),
    };
    Ok(Turned {
        notes: begun.notes,
        first,
    })
}
