// A table that records which pairs of few names are there, so that no list of many pairs is searched.
ghost use Rattle.std.specs.Prelude.{◌≡◌, ◌<◌, IfOk, IfSome, OnOk, length};
ghost use Rattle.std.specs.List.{slice_get};
ghost use Rattle.std.specs.Option.{option_and_then};
ghost use Rattle.lucid_constraints.specs.Marks.{Marked, Notes, Tells, places as places_for};
ghost use Rattle.lucid_constraints.specs.Marks.{atom_number as atom_number_of, name_number as name_number_of, pair_number as pair_number_of};

use crate::pair::{Atom, Pair};
use lucid_base::{ArrayName, Memory};
use std::alloc::Global;

/// Up to this many pairs are searched; more are looked up.
const FEW: usize = 16;

/// The places of the table: 73 atoms before 72 names.
pub const PLACES: usize = 5256;

/// Returns the place of the name among the first 8 array parameters and 64 declared arrays.
pub fn name_number(name: ArrayName) -> Option<usize>
    ensures number { result ≡ name_number_of name }
    ensures few { IfSome result (λ n. n < 72) }
{
    match name {
        ArrayName::Param(i) => { if i < 8 { Some(i as usize) } else { None } }
        ArrayName::Global(a) => { if a < 64 { Some(8 + a as usize) } else { None } }
    }
}

pub fn atom_number(atom: Atom) -> Option<usize>
    ensures number { result ≡ atom_number_of atom }
    ensures few { IfSome result (λ n. n < 73) }
{
    match atom {
        Atom::Start => Some(0),
        Atom::After(x) => match name_number(x) {
            Some(n) => Some(1 + n),
            None => None,
        },
    }
}

/// Returns the place of the pair in the table, if there is one.
pub fn pair_number(pair: Pair) -> Option<usize>
    ensures { result ≡ pair_number_of pair }
{
    match atom_number(pair.atom) {
        Some(a) => match name_number(pair.array) {
            Some(n) => Some(a * 72 + n),
            None => None,
        },
        None => None,
    }
}

/// Returns the table's entry for the pair of this number, if the table has one.
pub fn marked(marks: &[bool], number: Option<usize>) -> Option<bool>
    ensures place { result ≡ option_and_then (slice_get marks.now) number }
    ensures tells { Tells marks.now number result }
{
    match number {
        Some(n) => {
            if n < marks.len() {
                Some(marks[n])
            } else {
                None
            }
        }
        None => None,
    }
}

/// Notes in the table that the pair of this number is there.
pub fn mark(marks: &mut Vec<bool>, number: Option<usize>)
    ensures notes { Notes marks.old.items number marks.new.items }
    ensures len { length marks.new.items ≡ length marks.old.items }
{
    if let Some(n) = number {
        if n < marks.len() {
            marks[n] = true;
        }
    }
}

/// Returns the table of these pairs.
#[cold]
fn table(alloc: Global, pairs: &[Pair]) -> Result<Vec<bool>, Memory>
    ensures marked { IfOk result (λ marks. Marked marks.items pairs.now) }
    ensures places { IfOk result (λ marks. length marks.items ≡ 5256) }
{
    let mut marks = vec![in alloc; false; PLACES]?;
    for pair in pairs {
        mark(&mut marks, pair_number(*pair));
    }
    Ok(marks)
}

/// Makes the table of the pairs, once they are many.
pub fn tabulate(marks: &mut Vec<bool>, pairs: &[Pair]) -> Result<(), Memory>
    ensures marked { Marked marks.old.items pairs.now → Marked marks.new.items pairs.now }
    ensures places { OnOk result (length marks.new.items ≡ places_for marks.old.items pairs.now) }
{
    if marks.is_empty() && pairs.len() > FEW {
        let alloc = *marks.allocator();
        *marks = table(alloc, pairs)?;
    }
    Ok(())
}
