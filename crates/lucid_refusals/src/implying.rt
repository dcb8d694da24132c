// Which shapes are refused if a known one is: those of the same form, and those that have further patterns with literals of their own, as
// the later cases of a match have beside an earlier one.
ghost use Rattle.std.specs.Prelude.{◌≡◌, ◌||◌, IfOk, IsTrue};
ghost use Rattle.std.specs.List.{list_all};
ghost use Rattle.lucid_merge.specs.Product.{has};
ghost use Rattle.lucid_refusals.specs.Refusal.{Implies, is_one, kept_among};

use crate::law;
use crate::readings::fits;
use crate::shape::same_pattern;
use lucid_base::{Items, Memory};
use lucid_code::Literal;
use lucid_merge::has_near;
use std::alloc::Global;

/// Whether a literal is one of these or of those. It is looked for at a likely position first.
fn is_one(literals: &[Literal], more: &[Literal], at: usize, literal: Literal) -> bool
    ensures { result ≡ is_one literals.now more.now literal }
{
    has_near(literals, at, literal) || has_near(more, at, literal)
}

/// Whether all literals of a pattern are among these or those. A guard that the rows have in common is mostly at the front of all three.
fn is_among(literals: &[Literal], more: &[Literal], pattern: &[Literal]) -> bool
    ensures { result ≡ list_all (is_one literals.now more.now) pattern.now }
{
    for (at, literal) in pattern.iter().enumerate() {
        if !is_one(literals, more, at, *literal) {
            return false;
        }
    }
    true
}

/// The patterns of a shape whose literals all are among these or those.
fn kept_among(
    alloc: Global,
    literals: &[Literal],
    more: &[Literal],
    shape: &[Items<Literal>],
) -> Result<Items<Items<Literal>>, Memory>
    ensures { IfOk result (λ kept. kept ≡ kept_among literals.now more.now shape.now) }
{
    let mut kept = Items::new(alloc);
    for pattern in shape {
        if is_among(literals, more, pattern.as_slice()) {
            kept.push(Items::from_slice(alloc, pattern.as_slice())?)?;
        }
    }
    Ok(kept)
}

/// Returns whether the shape has the same form as a known one, so that a table that refuses that refuses it.
fn implies_alike(
    alloc: Global,
    literals: &[Literal],
    known: &[Items<Literal>],
    shape: &[Items<Literal>],
) -> Result<bool, Memory>
    ensures { IfOk result (λ r. IsTrue r → Implies literals.now known.now shape.now) }
{
    law::rows_are_counted();
    if fits(alloc, literals, known, shape)? {
        return Ok(true);
    }
    Ok(false)
}

/// Returns whether the pattern is at this place of the shape.
fn is_at(shape: &[Items<Literal>], at: usize, pattern: &[Literal]) -> bool {
    match shape.get(at) {
        None => false,
        Some(found) => same_pattern(pattern, found.as_slice()),
    }
}

/// Returns whether the shape begins with these patterns.
fn begins_with(shape: &[Items<Literal>], first: &[Items<Literal>]) -> bool {
    for (at, pattern) in first.iter().enumerate() {
        if !is_at(shape, at, pattern.as_slice()) {
            return false;
        }
    }
    true
}

/// The number of literals of a shape.
fn size_of(shape: &[Items<Literal>]) -> usize {
    let mut size = 0usize;
    for pattern in shape {
        size = size.saturating_add(pattern.len());
    }
    size
}

/// The literals of these patterns, and of a last one.
fn literals_with(
    alloc: Global,
    first: &[Items<Literal>],
    last: &[Literal],
) -> Result<Items<Literal>, Memory> {
    let mut literals = Items::from_slice(alloc, last)?;
    for pattern in first {
        literals.append(Items::from_slice(alloc, pattern.as_slice())?)?;
    }
    Ok(literals)
}

/// The literals of the patterns that a shape has in common with a known one, if it has the form of a later case of the same match: it begins
/// as the known one does, and its last pattern is as long. Any literals would be right.
fn common(
    alloc: Global,
    literals: &[Literal],
    known: &[Items<Literal>],
    shape: &[Items<Literal>],
) -> Result<Option<Items<Literal>>, Memory> {
    let Some((end, first)) = known.split_last() else {
        return Ok(None);
    };
    let Some(last) = shape.last() else {
        return Ok(None);
    };
    if known.len() >= shape.len() || end.len() != last.len() || !begins_with(shape, first) {
        return Ok(None);
    }
    let size = size_of(shape);
    if size.saturating_mul(literals.len().saturating_add(size)) > 1_048_576 {
        return Ok(None);
    }
    Ok(Some(literals_with(alloc, first, last.as_slice())?))
}

/// Returns whether the shape without some of its patterns has the form of a known one, so that a table that refuses that refuses it. Each
/// of those patterns has a literal that neither the table nor the others have.
fn implies_fewer(
    alloc: Global,
    literals: &[Literal],
    known: &[Items<Literal>],
    shape: &[Items<Literal>],
) -> Result<bool, Memory>
    ensures { IfOk result (λ r. IsTrue r → Implies literals.now known.now shape.now) }
{
    let Some(more) = common(alloc, literals, known, shape)? else {
        return Ok(false);
    };
    let own = more.as_slice();
    let kept = kept_among(alloc, literals, own, shape)?;
    let fewer = kept.as_slice();
    if implies_alike(alloc, literals, known, fewer)? {
        return Ok(true);
    }
    Ok(false)
}

/// Returns whether a table of these literals that refuses the known shape is known to refuse the other.
pub(crate) fn implies(
    alloc: Global,
    literals: &[Literal],
    known: &[Items<Literal>],
    shape: &[Items<Literal>],
) -> Result<bool, Memory>
    ensures { IfOk result (λ r. IsTrue r → Implies literals.now known.now shape.now) }
{
    if known.len() == shape.len() {
        implies_alike(alloc, literals, known, shape)
    } else {
        implies_fewer(alloc, literals, known, shape)
    }
}
