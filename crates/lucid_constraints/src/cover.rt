// Whether a caller asks already for all that a function asks: by the tables of both, a row of 72 places at a time.
ghost use Rattle.std.specs.Prelude.{◌≡◌, ◌≤◌, ◌<◌, ◌+◌, ◌*◌, All, IfSome, length, true};
ghost use Rattle.lucid_constraints.specs.Cover.{ArePlacesTo, GlobalsHeld, ParamsHeld, RowHeld, RowsHeldTo, StartsHeld, moved as moved_by};

use crate::ends::name_at;
use crate::marks::{atom_number, name_number};
use crate::pair::Atom;
use lucid_base::ArrayName;

/// Returns the numbers of the arrays that the 8 parameters represent, if each has one.
pub fn param_places(names: &[ArrayName]) -> Option<[usize; 8]>
    ensures places { IfSome result (λ places. ArePlacesTo names.now places 8) }
    ensures few { IfSome result (λ places. All (λ n. n < 72) places) }
{
    let mut places = [0usize; 8];
    for i in 0..8u32 {
        match name_number(name_at(names, ArrayName::Param(i))) {
            None => return None,
            Some(n) => places[i as usize] = n,
        }
    }
    Some(places)
}

/// Returns the declared arrays of a row.
fn globals_held(theirs: &[bool], from: usize, ours: &[bool], to: usize) -> bool
    requires theirs { from + 72 ≤ length theirs.now }
    requires ours { to + 72 ≤ length ours.now }
    ensures { result ≡ true → GlobalsHeld theirs.now from ours.now to 72 }
{
    let mut all = true;
    for n in 8..72usize {
        all &= !theirs[from + n] | ours[to + n];
    }
    all
}

/// Returns the array parameters of a row.
fn params_held(places: &[usize], theirs: &[bool], from: usize, ours: &[bool], to: usize) -> bool
    requires places { length places.now ≡ 8 }
    requires few { All (λ n. n < 72) places.now }
    requires theirs { from + 72 ≤ length theirs.now }
    requires ours { to + 72 ≤ length ours.now }
    ensures { result ≡ true → ParamsHeld places.now theirs.now from ours.now to 8 }
{
    let mut all = true;
    for n in 0..8usize {
        all &= !theirs[from + n] | ours[to + places[n]];
    }
    all
}

fn row_held(places: &[usize], theirs: &[bool], from: usize, ours: &[bool], to: usize) -> bool
    requires places { length places.now ≡ 8 }
    requires few { All (λ n. n < 72) places.now }
    requires theirs { from + 72 ≤ length theirs.now }
    requires ours { to + 72 ≤ length ours.now }
    ensures { result ≡ true → RowHeld places.now theirs.now from ours.now to }
{
    globals_held(theirs, from, ours, to) && params_held(places, theirs, from, ours, to)
}

/// Returns the caller's number of a function's name.
fn moved(places: &[usize], n: usize) -> usize
    requires places { length places.now ≡ 8 }
    requires few { All (λ n. n < 72) places.now }
    requires n { n < 72 }
    ensures value { result ≡ moved_by places.now n }
    ensures few { result < 72 }
{
    if n < 8 { places[n] } else { n }
}

/// Returns the pairs of the function's names.
pub fn rows_held(places: &[usize], theirs: &[bool], ours: &[bool]) -> bool
    requires places { length places.now ≡ 8 }
    requires few { All (λ n. n < 72) places.now }
    requires theirs { length theirs.now ≡ 5256 }
    requires ours { length ours.now ≡ 5256 }
    ensures { result ≡ true → RowsHeldTo places.now theirs.now ours.now 72 }
{
    for k in 0..72usize {
        let to = moved(places, k);
        if !row_held(places, theirs, (1 + k) * 72, ours, (1 + to) * 72) {
            return false;
        }
    }
    true
}

/// Returns the pairs of the function with the start, at the places of the caller.
pub fn start_held(places: &[usize], theirs: &[bool], ours: &[bool], start: &[Atom]) -> bool
    requires places { length places.now ≡ 8 }
    requires few { All (λ n. n < 72) places.now }
    requires theirs { length theirs.now ≡ 5256 }
    requires ours { length ours.now ≡ 5256 }
    ensures { result ≡ true → StartsHeld places.now theirs.now ours.now start.now }
{
    for atom in start {
        match atom_number(*atom) {
            None => return false,
            Some(row) => {
                if !row_held(places, theirs, 0, ours, row * 72) {
                    return false;
                }
            }
        }
    }
    true
}
