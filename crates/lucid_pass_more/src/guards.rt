// Whether a literal is in a guard, and whether a guard contradicts itself.
ghost use Rattle.std.specs.Prelude.{◌≡◌, false, slice_get};
ghost use Rattle.std.specs.List.{list_any};
ghost use Rattle.std.specs.Option.{option_map_or};
ghost use Rattle.lucid_code.specs.Guards.{contradict, opposed};
ghost use Rattle.lucid_pass_spec.specs.Looks.{same_literal};

use lucid_code::Literal;

/// Returns whether the literal is in the guard. If it is at position `at` there, that costs one comparison.
pub(crate) fn stands_in(guard: &[Literal], at: usize, literal: Literal) -> bool
    ensures { result ≡ list_any (same_literal literal) guard.now }
{
    if stands_at(guard, at, literal) {
        true
    } else {
        guard.iter().any(|other| same(literal, *other))
    }
}

fn stands_at(guard: &[Literal], at: usize, literal: Literal) -> bool
    ensures { result ≡ option_map_or (same_literal literal) (slice_get guard.now at) false }
{
    match guard.get(at) {
        None => false,
        Some(other) => same(literal, *other),
    }
}

fn same(l: Literal, k: Literal) -> bool
    ensures { result ≡ same_literal l k }
{
    l.field == k.field && (l.equal == k.equal && l.value == k.value)
}

/// Returns whether two literals of a guard never hold together.
pub(crate) fn contradicts_itself(guard: &[Literal]) -> bool
    ensures { result ≡ contradict guard.now guard.now }
{
    guard.iter().any(|l| is_opposed(*l, guard))
}

fn is_opposed(literal: Literal, guard: &[Literal]) -> bool
    ensures { result ≡ list_any (opposed literal) guard.now }
{
    guard.iter().any(|m| opposed(literal, *m))
}

fn opposed(l: Literal, m: Literal) -> bool
    ensures { result ≡ opposed l m }
{
    l.field == m.field
        && if l.equal {
            if m.equal {
                l.value != m.value
            } else {
                l.value == m.value
            }
        } else {
            m.equal && l.value == m.value
        }
}
