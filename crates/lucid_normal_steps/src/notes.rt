// The undo log: the operands of locals before something was written.
ghost use Rattle.std.specs.Prelude.{◌≡◌, ◌<◌, [], IfOk, OnOk, OnSome, length, slice_set};
ghost use Rattle.lucid_normal_steps.specs.Notes.{before, end_of, put_one as one_before};

use crate::locals::held_at;
use lucid_base::{Items, Memory};
use lucid_normal_spec::Typed;
use std::alloc::Global;

/// The old operand of one local, or of all.
#[derive(Drop)]
pub enum Note {
    One(u32, Option<Typed>),
    All(Items<Option<Typed>>),
}

/// Binds the local to the operand, or to none, and notes its old operand. A local that does not exist has none.
pub fn hold(
    held: &mut Items<Option<Typed>>,
    notes: &mut Vec<Note>,
    i: u32,
    t: Option<Typed>,
) -> Result<(), Memory>
    ensures held { OnOk result (held.new ≡ slice_set held.old i t) }
    ensures back { OnOk result (before notes.new.items held.new ≡ before notes.old.items held.old) }
{
    if (i as usize) < held.len() {
        let was = held_at(held.as_slice(), i);
        notes.push(Note::One(i, was))?;
        held.set(i as usize, t);
    }
    Ok(())
}

/// Unbinds all locals, and notes their operands.
#[tactic(auto, using(crate::proofs::Noted::before_last, std::proofs::lemmas::Grind::common_steps))]
pub fn clear(
    alloc: Global,
    held: &mut Items<Option<Typed>>,
    notes: &mut Vec<Note>,
) -> Result<(), Memory>
    ensures held { OnOk result (held.new ≡ []) }
    ensures back { OnOk result (before notes.new.items held.new ≡ before notes.old.items held.old) }
{
    let was = std::mem::replace(held, Items::new(alloc));
    notes.push(Note::All(was))?;
    Ok(())
}

/// Restores the operands from before all notes.
#[tactic(auto, using(crate::proofs::Noted::before_last, std::proofs::lemmas::Grind::common_steps))]
pub fn put_back(held: &mut Items<Option<Typed>>, notes: Items<Note>)
    ensures { held.new ≡ before notes held.old }
{
    let mut left = notes;
    while let Some(note) = left.pop() {
        put_one(held, note);
    }
}

fn put_one(held: &mut Items<Option<Typed>>, note: Note)
    ensures { held.new ≡ one_before note held.old }
{
    match note {
        Note::One(i, was) => {
            if (i as usize) < held.len() {
                held.set(i as usize, was);
            }
        }
        Note::All(all) => {
            if held.len() == 0 {
                *held = all;
            }
        }
    }
}

/// Restores the noted operands, and returns the log that leads back to the current ones: None if no local has one.
pub fn take_back(
    alloc: Global,
    held: &mut Items<Option<Typed>>,
    notes: Items<Note>,
) -> Result<Option<Items<Note>>, Memory>
    ensures held { OnOk result (held.new ≡ before notes held.old) }
    ensures end { IfOk result (λ end. end_of end held.new ≡ held.old) }
    ensures some { IfOk result (λ end. OnSome end (0 < length held.new)) }
{
    if held.len() == 0 {
        put_back(held, notes);
        return Ok(None);
    }
    Ok(Some(swap_back(alloc, held, notes)?))
}

/// If locals have operands, each note is of one of them, and so is each note of the returned log.
#[tactic(auto, using(crate::proofs::Noted::before_last, std::proofs::lemmas::Grind::common_steps))]
pub fn swap_back(
    alloc: Global,
    held: &mut Items<Option<Typed>>,
    notes: Items<Note>,
) -> Result<Items<Note>, Memory>
    requires { 0 < length held.old }
    ensures held { OnOk result (held.new ≡ before notes held.old) }
    ensures end { IfOk result (λ end. before end held.new ≡ held.old) }
    ensures some { OnOk result (0 < length held.new) }
{
    let mut left = notes;
    let mut end = Vec::new(alloc);
    while let Some(note) = left.pop() {
        swap_one(held, &mut end, note)?;
    }
    Ok(Items::from_vec(end))
}

fn swap_one(held: &mut Items<Option<Typed>>, end: &mut Vec<Note>, note: Note) -> Result<(), Memory>
    requires { 0 < length held.old }
    ensures held { OnOk result (held.new ≡ one_before note held.old) }
    ensures some { OnOk result (0 < length held.new) }
    ensures end { OnOk result (before end.new.items held.new ≡ before end.old.items held.old) }
{
    match note {
        Note::One(i, was) => hold(held, end, i, was),
        Note::All(_all) => Ok(()),
    }
}
