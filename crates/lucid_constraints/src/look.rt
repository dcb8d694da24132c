// One look of the search for a cycle: finds a name that must precede the head of the path.
ghost use Rattle.std.specs.Prelude.{◌≡◌, ◌<◌, length, get_or, MatchOption, true, false};
ghost use Rattle.lucid_constraints.specs.Circle.{earlier as is_earlier, first_place, source as source_in, Finds};
ghost use Rattle.lucid_constraints.specs.Same.{same_name as are_same_names};

use crate::pair::{Atom, Pair};
use lucid_base::ArrayName;

/// The position of the name.
pub enum Found {
    /// On the path, at this place: the path closes.
    OnPath(usize),
    /// Among those that wait, at this place.
    Waiting(usize),
    /// On neither: this name, which the pairs still hold, was left behind.
    Gone(ArrayName),
    /// There is none.
    Nowhere,
}

/// Both are declared, the first earlier.
fn earlier(arrays: u32, x: ArrayName, y: ArrayName) -> bool
    ensures { result ≡ is_earlier arrays x y }
{
    match x {
        ArrayName::Global(a) => match y {
            ArrayName::Global(b) => a < b && b < arrays,
            ArrayName::Param(_) => false,
        },
        ArrayName::Param(_) => false,
    }
}

/// Returns the first name that the pairs put before `name`.
fn source(pairs: &[Pair], name: ArrayName) -> Option<ArrayName>
    ensures { result ≡ source_in name pairs.now }
{
    for pair in pairs {
        match pair.atom {
            Atom::Start => {}
            Atom::After(x) => {
                if name == pair.array {
                    return Some(x);
                }
            }
        }
    }
    None
}

fn place_of(names: &[ArrayName], name: ArrayName) -> Option<usize>
    ensures { result ≡ first_place (are_same_names name) names.now 0 }
{
    let mut at = 0usize;
    for other in names {
        if name == *other {
            return Some(at);
        }
        at += 1;
    }
    None
}

/// Returns the place of the first that is declared earlier than `name`.
fn place_of_earlier(names: &[ArrayName], arrays: u32, name: ArrayName) -> Option<usize>
    ensures { result ≡ first_place (λ y. is_earlier arrays y name) names.now 0 }
{
    let mut at = 0usize;
    for other in names {
        if earlier(arrays, *other, name) {
            return Some(at);
        }
        at += 1;
    }
    None
}

/// Looks for a name that must come before `head`. The work is in proportion to the pairs and the names.
pub fn look(
    path: &[ArrayName],
    waiting: &[ArrayName],
    pairs: &[Pair],
    arrays: u32,
    head: ArrayName,
) -> Found
    ensures { Finds path.now waiting.now pairs.now arrays head result }
{
    match source(pairs, head) {
        Some(x) => match place_of(path, x) {
            Some(j) => Found::OnPath(j),
            None => match place_of(waiting, x) {
                Some(i) => Found::Waiting(i),
                None => Found::Gone(x),
            },
        },
        None => match place_of_earlier(path, arrays, head) {
            Some(j) => Found::OnPath(j),
            None => match place_of_earlier(waiting, arrays, head) {
                Some(i) => Found::Waiting(i),
                None => Found::Nowhere,
            },
        },
    }
}
