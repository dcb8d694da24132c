// The locals that the branches of an if write, each with its operands at the ends of the two.
ghost use Rattle.std.specs.Prelude.{◌≡◌, ◌<◌, ◌++◌, ℕ, Contains, IfOk, None, OnOk, length, map, slice_index_or};
ghost use Rattle.std.specs.List.Sorted.{IsStrictlyIncreasing};
ghost use Rattle.lucid_normal_join.specs.Changes.{AreChanges};
ghost use Rattle.lucid_normal_steps.specs.Notes.{noted};

use lucid_base::{Items, Memory};
use lucid_normal_spec::Typed;
use lucid_normal_steps::{Note, held_at, put_back, swap_back};
use std::alloc::Global;

/// A local, and its operands at the end of the first branch and of the second.
#[derive(Clone, Copy)]
pub struct Change {
    pub local: u32,
    pub first: Option<Typed>,
    pub second: Option<Typed>,
}

/// All changes, once each and in the order of their numbers, from the ends of the branches.
pub fn changes_of(
    alloc: Global,
    held: &mut Items<Option<Typed>>,
    first: Items<Note>,
    second: Items<Note>,
) -> Result<Vec<Change>, Memory>
    requires { 0 < length held.old }
    ensures held { OnOk result (held.new ≡ held.old) }
    ensures changes { IfOk result (λ changes. AreChanges held.old first second changes.items) }
{
    let locals = written(alloc, first.as_slice(), second.as_slice())?;
    let back = swap_back(alloc, held, first)?;
    let firsts = at_first(alloc, held.as_slice(), locals.as_slice())?;
    put_back(held, back);
    let back = swap_back(alloc, held, second)?;
    let both = at_both(alloc, held.as_slice(), firsts.as_slice())?;
    put_back(held, back);
    Ok(both)
}

/// The locals of which either list notes something.
fn written(alloc: Global, first: &[Note], second: &[Note]) -> Result<Vec<u32>, Memory>
    ensures rise { IfOk result (λ locals. IsStrictlyIncreasing locals.items) }
    ensures whole { IfOk result (λ locals. (i : ℕ) → Contains (noted first.now ++ noted second.now) i → Contains locals.items i) }
{
    let mut locals = Vec::new(alloc);
    gather(&mut locals, first)?;
    gather(&mut locals, second)?;
    locals.sort_unstable();
    locals.dedup();
    Ok(locals)
}

fn gather(locals: &mut Vec<u32>, notes: &[Note]) -> Result<(), Memory>
    ensures { OnOk result (locals.new.items ≡ locals.old.items ++ noted notes.now) }
{
    for note in notes {
        if let Note::One(i, _) = note {
            locals.push(*i)?;
        }
    }
    Ok(())
}

/// The operand of each of these locals.
fn at_first(
    alloc: Global,
    held: &[Option<Typed>],
    locals: &[u32],
) -> Result<Vec<(u32, Option<Typed>)>, Memory>
    ensures { IfOk result (λ firsts. firsts.items ≡ map (λ i. (i, slice_index_or held.now i None)) locals.now) }
{
    let mut firsts = Vec::new(alloc);
    for i in locals {
        firsts.push((*i, held_at(held, *i)))?;
    }
    Ok(firsts)
}

/// The operand of each of these locals, beside that at the end of the first branch.
fn at_both(
    alloc: Global,
    held: &[Option<Typed>],
    firsts: &[(u32, Option<Typed>)],
) -> Result<Vec<Change>, Memory>
    ensures { IfOk result (λ both. both.items
        ≡ map (λ f. record { local = f.0; first = f.1; second = slice_index_or held.now f.0 None }) firsts.now) }
{
    let mut both = Vec::new(alloc);
    for (local, first) in firsts {
        both.push(Change {
            local: *local,
            first: *first,
            second: held_at(held, *local),
        })?;
    }
    Ok(both)
}
