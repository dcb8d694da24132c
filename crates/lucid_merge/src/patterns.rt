// Patterns: contradiction and inclusion.
ghost use Rattle.std.specs.Prelude.{◌≡◌, true, IsTrue};
ghost use Rattle.std.specs.List.{list_any};
ghost use Rattle.lucid_code.specs.Guards as guards;
ghost use Rattle.lucid_merge.specs.Product.{is_same, has, includes, union};

use lucid_code::Literal;

/// Whether two literals never hold together: a field equals two values, or equals a value and doesn't.
pub(crate) fn opposed(l: Literal, m: Literal) -> bool
    ensures { result ≡ guards.opposed l m }
{
    l.field == m.field && (l.equal || m.equal) && (l.value == m.value) != (l.equal == m.equal)
}

/// Whether a literal of the one pattern and one of the other never hold together.
pub fn contradict(p: &[Literal], q: &[Literal]) -> bool
    ensures { result ≡ guards.contradict p.now q.now }
{
    p.iter().any(|l| is_opposed(*l, q))
}

fn is_opposed(literal: Literal, pattern: &[Literal]) -> bool
    ensures { result ≡ list_any (guards.opposed literal) pattern.now }
{
    pattern.iter().any(|m| opposed(literal, *m))
}

/// Whether two literals are the same.
pub fn is_same(l: Literal, m: Literal) -> bool
    ensures { result ≡ is_same l m }
{
    l.field == m.field && l.equal == m.equal && l.value == m.value
}

pub(crate) fn has(pattern: &[Literal], literal: Literal) -> bool
    ensures { result ≡ has pattern.now literal }
{
    pattern.iter().any(|m| is_same(literal, *m))
}

/// Returns whether the literal is at a position of the pattern.
#[tactic(auto, using(crate::proofs::Literals::has_got))]
fn is_at(pattern: &[Literal], at: usize, literal: Literal) -> bool
    ensures { IsTrue result → has pattern.now literal ≡ true }
{
    match pattern.get(at) {
        None => false,
        Some(found) => is_same(literal, *found),
    }
}

/// Whether a pattern has a literal. It is looked for at a likely position first.
pub fn has_near(pattern: &[Literal], at: usize, literal: Literal) -> bool
    ensures { result ≡ has pattern.now literal }
{
    if is_at(pattern, at, literal) {
        return true;
    }
    has(pattern, literal)
}

/// Whether one of two patterns has a literal. It is looked for at a likely position first.
#[tactic(auto, using(crate::proofs::Literals::has_union))]
fn has_either(p: &[Literal], q: &[Literal], at: usize, literal: Literal) -> bool
    ensures { result ≡ has (union p.now q.now) literal }
{
    has_near(p, at, literal) || has_near(q, at, literal)
}

/// Returns whether all literals of the third pattern are in the first two together. Most are at the same position in one of these. The first
/// is looked for first, and then the last: rows differ there if they are of different handlers, or behind a guard of all.
pub(crate) fn include_together(p: &[Literal], q: &[Literal], r: &[Literal]) -> bool
    ensures { result ≡ includes (union p.now q.now) r.now }
{
    match r.split_first() {
        None => true,
        Some((first, rest)) => has_either(p, q, 0, *first) && include_rest(p, q, rest),
    }
}

/// The same for the literals behind the first.
fn include_rest(p: &[Literal], q: &[Literal], rest: &[Literal]) -> bool
    ensures { result ≡ includes (union p.now q.now) rest.now }
{
    for at in (0..rest.len()).rev() {
        if !has_either(p, q, at.saturating_add(1), rest[at]) {
            return false;
        }
    }
    true
}
