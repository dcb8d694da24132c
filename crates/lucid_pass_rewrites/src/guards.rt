// Whether the literals of one guard are in another, whether two guards are the same, and the length of their common beginning.
ghost use Rattle.std.specs.Prelude.{◌≡◌, ◌≤◌, false, slice_get, IsTrue};
ghost use Rattle.std.specs.Option.{option_map_or};
ghost use Rattle.std.specs.List.{list_any};
ghost use Rattle.lucid_pass_spec.specs.Looks.{same_literal, includes};
ghost use Rattle.lucid_pass_rewrites.specs.Covering.{Alike, same_at};

use lucid_code::Literal;

/// Returns whether every literal is in the guard. A literal at the same position there costs one comparison.
pub(crate) fn includes(guard: &[Literal], literals: &[Literal]) -> bool
    ensures { result ≡ includes guard.now literals.now }
{
    for (at, literal) in literals.iter().enumerate() {
        if !stands_in(guard, at, *literal) {
            return false;
        }
    }
    true
}

fn stands_in(guard: &[Literal], at: usize, literal: Literal) -> bool
    ensures { result ≡ list_any (same_literal literal) guard.now }
{
    if stands_at(guard, at, literal) {
        true
    } else {
        stands(guard, literal)
    }
}

fn stands_at(guard: &[Literal], at: usize, literal: Literal) -> bool
    ensures { result ≡ option_map_or (same_literal literal) (slice_get guard.now at) false }
{
    match guard.get(at) {
        None => false,
        Some(other) => same(literal, *other),
    }
}

/// Returns whether the literal is in the guard.
pub(crate) fn stands(guard: &[Literal], literal: Literal) -> bool
    ensures { result ≡ list_any (same_literal literal) guard.now }
{
    guard.iter().any(|other| same(literal, *other))
}

fn same(l: Literal, k: Literal) -> bool
    ensures { result ≡ same_literal l k }
{
    l.field == k.field && (l.equal == k.equal && l.value == k.value)
}

/// Returns how many of the first `most` literals two guards begin with alike.
pub(crate) fn shared(a: &[Literal], b: &[Literal], most: usize) -> usize
    ensures alike { Alike a.now b.now result }
    ensures bound { result ≤ most }
{
    for at in 0..most {
        if !same_at(a, b, at) {
            return at;
        }
    }
    most
}

/// Returns whether two guards have the same literals in the same order.
pub(crate) fn are_same(a: &[Literal], b: &[Literal]) -> bool
    ensures { IsTrue result → a.now ≡ b.now }
{
    a.len() == b.len() && shared(a, b, a.len()) == a.len()
}

fn same_at(a: &[Literal], b: &[Literal], at: usize) -> bool
    ensures { result ≡ same_at a.now b.now at }
{
    match a.get(at) {
        None => false,
        Some(literal) => stands_at(b, at, *literal),
    }
}
