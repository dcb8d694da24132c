// The places at which a body may end, and their names in a caller.
ghost use Rattle.std.specs.Prelude.{◌≡◌, ℕ, [], IfOk, OnOk, max};
ghost use Rattle.lucid_base.specs.Arrays.{name_at as caller_name};
ghost use Rattle.lucid_base.specs.declared.array.ArrayName.{ArrayName};
ghost use Rattle.lucid_constraints.specs.Means.{greatest};
ghost use Rattle.lucid_constraints.specs.Same.{same_atom as are_same_atoms, joined, join_all};
ghost use Rattle.lucid_constraints.specs.Seen.{Seen};
ghost use Rattle.lucid_constraints.specs.Substitution.{atoms_at, ends_from};

use crate::pair::Atom;
use crate::seen::{is_there, note, note_each, nothing_seen};
use lucid_base::{ArrayName, Items, Memory};
use std::alloc::Global;

/// Adds the place unless it is there.
#[inline(always)]
fn join_atom(seen: &mut [bool], ends: &mut Items<Atom>, atom: Atom) -> Result<(), Memory>
    requires { Seen seen.old ends.old }
    ensures ends { OnOk result (ends.new ≡ joined are_same_atoms ends.old atom) }
    ensures seen { OnOk result (Seen seen.new ends.new) }
{
    if is_there(seen, ends.as_slice(), atom) {
        return Ok(());
    }
    ends.push(atom)?;
    note(seen, atom);
    Ok(())
}

/// Adds each place unless it is there.
fn join_each(seen: &mut [bool], ends: &mut Items<Atom>, more: &[Atom]) -> Result<(), Memory>
    requires { Seen seen.old ends.old }
    ensures ends { OnOk result (ends.new ≡ join_all are_same_atoms ends.old more.now) }
    ensures seen { OnOk result (Seen seen.new ends.new) }
{
    for atom in more {
        join_atom(seen, ends, *atom)?;
    }
    Ok(())
}

/// Adds each place unless it is there. The work is in proportion to the places.
pub fn join_ends(ends: &mut Items<Atom>, more: &[Atom]) -> Result<(), Memory>
    ensures { OnOk result (ends.new ≡ join_all are_same_atoms ends.old more.now) }
{
    let mut seen = nothing_seen();
    note_each(&mut seen, ends.as_slice());
    join_each(&mut seen, ends, more)
}

/// Returns the caller's name of a function's array, given the arrays of the call.
pub fn name_at(names: &[ArrayName], name: ArrayName) -> ArrayName
    ensures { result ≡ caller_name names.now name }
{
    match name {
        ArrayName::Global(a) => ArrayName::Global(a),
        ArrayName::Param(i) => {
            let i = i as usize;
            if i < names.len() {
                names[i]
            } else {
                ArrayName::Global(0)
            }
        }
    }
}

/// Adds the caller's name of a function's place.
#[inline(always)]
fn join_atom_at(
    seen: &mut [bool],
    ends: &mut Items<Atom>,
    names: &[ArrayName],
    start: &[Atom],
    atom: Atom,
) -> Result<(), Memory>
    requires { Seen seen.old ends.old }
    ensures ends { OnOk result (ends.new ≡ join_all are_same_atoms ends.old (atoms_at names.now start.now atom)) }
    ensures seen { OnOk result (Seen seen.new ends.new) }
{
    match atom {
        Atom::Start => join_each(seen, ends, start),
        Atom::After(x) => join_atom(seen, ends, Atom::After(name_at(names, x))),
    }
}

/// Returns the places of a caller after a function with these ends, given these arrays and called at the places `start`. The work is in
/// proportion to the places.
pub fn ends_at(
    alloc: Global,
    ends: &[Atom],
    names: &[ArrayName],
    start: &[Atom],
) -> Result<Items<Atom>, Memory>
    ensures { IfOk result (λ xs. xs ≡ ends_from names.now start.now [] ends.now) }
{
    let mut seen = nothing_seen();
    let mut done = Items::from_vec(Vec::with_capacity(alloc, ends.len().max(start.len()))?);
    for atom in ends {
        join_atom_at(&mut seen, &mut done, names, start, *atom)?;
    }
    Ok(done)
}
