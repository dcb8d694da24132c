// The search for a circle of names, of which each must come before the next.
ghost use Rattle.std.specs.Prelude.{◌≡◌, IfOk, MatchOption, not, filter};
ghost use Rattle.lucid_constraints.specs.Circle.{Member, OrderOn, IsCircle, follows, needed};

use crate::look::{Found, look};
use crate::pair::{Atom, Pair};
use lucid_base::{ArrayName, Memory};
use std::alloc::Global;

/// Drops the pairs that put `name` before another.
fn leave(pairs: &mut Vec<Pair>, name: ArrayName)
    ensures { pairs.new.items ≡ filter (λ p. not (follows name p)) pairs.old.items }
{
    pairs.retain(|pair| pair.atom != Atom::After(name));
}

/// Returns a circle among these names, if they have no order. A path grows at its front, towards names that must come earlier. Each name
/// joins it once, and leaves it once nothing that is left must come before it.
pub fn circle(
    alloc: Global,
    pairs: Vec<Pair>,
    arrays: u32,
    names: Vec<ArrayName>,
) -> Result<Option<Vec<ArrayName>>, Memory>
    ensures { IfOk result (λ r. MatchOption r (OrderOn (needed pairs.items arrays) (λ x. Member x names.items)) (λ c. IsCircle (needed pairs.items arrays) c.items)) }
{
    let mut pairs = pairs;
    let mut waiting = names;
    let mut path: Vec<ArrayName> = Vec::new(alloc);
    'walk: loop {
        if path.is_empty() {
            match waiting.pop() {
                None => return Ok(None),
                Some(x) => path.insert(0, x)?,
            }
        } else {
            let head = path[0];
            match look(&path, &waiting, &pairs, arrays, head) {
                Found::OnPath(j) => {
                    path.truncate(j + 1);
                    return Ok(Some(path));
                }
                Found::Waiting(i) => {
                    let x = waiting.remove(i);
                    path.insert(0, x)?;
                }
                Found::Gone(x) => leave(&mut pairs, x),
                Found::Nowhere => {
                    path.remove(0);
                }
            }
        }
    }
}
