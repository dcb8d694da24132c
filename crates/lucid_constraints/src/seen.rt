// A table that records which of few places are there, so that no list of many places is searched.
ghost use Rattle.std.specs.Prelude.{◌≡◌, []};
ghost use Rattle.std.specs.List.{list_any};
ghost use Rattle.lucid_constraints.specs.Seen.{Adds, Seen};
ghost use Rattle.lucid_constraints.specs.Same.{same_atom as are_same_atoms};

use crate::marks::atom_number;
use crate::pair::Atom;

/// The places of the table: the start, and those behind 8 array parameters and 64 declared arrays.
pub const PLACES: usize = 73;

// Cold: only a place that has no number is searched.
#[cold]
fn has_atom(ends: &[Atom], atom: Atom) -> bool
    ensures { result ≡ list_any (are_same_atoms atom) ends.now }
{
    for other in ends {
        if atom == *other {
            return true;
        }
    }
    false
}

/// Returns a table of no places.
pub fn nothing_seen() -> [bool; PLACES]
    ensures { Seen result [] }
{
    [false; PLACES]
}

/// Returns whether the place is there.
pub fn is_there(seen: &[bool], ends: &[Atom], atom: Atom) -> bool
    requires { Seen seen.now ends.now }
    ensures { result ≡ list_any (are_same_atoms atom) ends.now }
{
    match atom_number(atom) {
        Some(n) => {
            if n < seen.len() {
                seen[n]
            } else {
                has_atom(ends, atom)
            }
        }
        None => has_atom(ends, atom),
    }
}

/// Notes in the table that the place is there.
pub fn note(seen: &mut [bool], atom: Atom)
    ensures { Adds seen.old atom seen.new }
{
    if let Some(n) = atom_number(atom) {
        if n < seen.len() {
            seen[n] = true;
        }
    }
}

/// Notes these places in an empty table.
pub fn note_each(seen: &mut [bool], ends: &[Atom])
    requires { Seen seen.old [] }
    ensures { Seen seen.new ends.now }
{
    for atom in ends {
        note(seen, *atom);
    }
}
