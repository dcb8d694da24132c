// Readings of literals as others, by which shapes of rows are compared: whether a table that refuses the one refuses the other. It does if
// the literals of the one can be read as those of the other, so that the same remain the same and opposed ones remain opposed, also beside
// the literals of the table.
ghost use Rattle.std.specs.Prelude.{◌≡◌, ◌++◌, length, true, IfOk, IfSome, OnOk, IsTrue};
ghost use Rattle.std.specs.List.{list_all};
ghost use Rattle.lucid_refusals.specs.Readings.{keeps_sign, agree, itself, agrees_with, agrees_with_all, is_apart, are_apart, reading_of, readings_of, same_lengths, is_known, others_of};

use lucid_base::{Items, Memory};
use lucid_code::Literal;
use lucid_merge::{has_near, is_same};
use std::alloc::Global;

/// A literal, and the one that it is read as.
#[derive(Clone, Copy)]
pub(crate) struct Reading {
    own: Literal,
    other: Literal,
}

fn keeps_sign(x: Reading) -> bool
    ensures { result ≡ keeps_sign x }
{
    x.own.equal == x.other.equal
}

/// Whether both literals name one field exactly if those that they are read as do, and then one value exactly if those do.
fn agree(x: Reading, y: Reading) -> bool
    ensures { result ≡ agree x y }
{
    (x.own.field == y.own.field) == (x.other.field == y.other.field)
        && (x.own.field != y.own.field
            || (x.own.value == y.own.value) == (x.other.value == y.other.value))
}

fn itself(literal: Literal) -> Reading
    ensures { result ≡ itself literal }
{
    Reading {
        own: literal,
        other: literal,
    }
}

/// Whether a reading agrees with each of these literals, read as itself.
fn agrees_with(x: Reading, literals: &[Literal]) -> bool
    ensures { result ≡ agrees_with x literals.now }
{
    literals.iter().all(|literal| agree(x, itself(*literal)))
}

fn agrees_with_readings(x: Reading, readings: &[Reading]) -> bool
    ensures { result ≡ list_all (agree x) readings.now }
{
    readings.iter().all(|y| agree(x, *y))
}

/// Whether a reading agrees with these and with these literals, read as themselves.
fn agrees_with_all(literals: &[Literal], readings: &[Reading], x: Reading) -> bool
    ensures { result ≡ agrees_with_all literals.now readings.now x }
{
    agrees_with_readings(x, readings) && agrees_with(x, literals)
}

/// Whether a literal is read as itself, or its reading agrees with all.
fn is_apart(literals: &[Literal], readings: &[Reading], x: Reading) -> bool
    ensures { result ≡ is_apart literals.now readings.now x }
{
    is_same(x.own, x.other) || agrees_with_all(literals, readings, x)
}

fn all_keep_signs(readings: &[Reading]) -> bool
    ensures { result ≡ list_all keeps_sign readings.now }
{
    readings.iter().all(|x| keeps_sign(*x))
}

fn all_are_apart(literals: &[Literal], readings: &[Reading]) -> bool
    ensures { result ≡ list_all (is_apart literals.now readings.now) readings.now }
{
    readings.iter().all(|x| is_apart(literals, readings, *x))
}

fn are_apart(literals: &[Literal], readings: &[Reading]) -> bool
    ensures { result ≡ are_apart literals.now readings.now }
{
    all_keep_signs(readings) && all_are_apart(literals, readings)
}

/// Returns whether so few readings change their literal that to compare them costs less than a merge.
fn are_few(literals: &[Literal], readings: &[Reading]) -> bool {
    let mut changed = 0usize;
    for x in readings {
        if !is_same(x.own, x.other) {
            changed = changed.saturating_add(1);
        }
    }
    let each = readings.len().saturating_add(literals.len());
    changed.saturating_mul(each) <= 262_144
}

/// Puts the readings of a pattern as another of the same length behind others.
fn put_readings(p: &[Literal], q: &[Literal], readings: &mut Items<Reading>) -> Result<(), Memory>
    requires { length p.now ≡ length q.now }
    ensures { OnOk result (readings.new ≡ readings.old ++ reading_of p.now q.now) }
{
    for at in 0..p.len() {
        readings.push(Reading {
            own: p[at],
            other: q[at],
        })?;
    }
    Ok(())
}

/// The readings of patterns as others, and None where their lengths differ.
fn read_as(
    alloc: Global,
    ps: &[Items<Literal>],
    qs: &[Items<Literal>],
) -> Result<Option<Items<Reading>>, Memory>
    ensures { IfOk result (λ found. IfSome found (λ readings. (same_lengths ps.now qs.now ≡ true) × (readings ≡ readings_of ps.now qs.now))) }
{
    if ps.len() != qs.len() {
        return Ok(None);
    }
    let mut readings = Items::new(alloc);
    for at in 0..ps.len() {
        let p = ps[at].as_slice();
        let q = qs[at].as_slice();
        if p.len() != q.len() {
            return Ok(None);
        }
        put_readings(p, q, &mut readings)?;
    }
    Ok(Some(readings))
}

/// Returns whether a literal of the table is read as itself. It is looked for at a likely position first.
fn is_known(literals: &[Literal], likely: usize, x: Reading) -> bool
    ensures { result ≡ is_known literals.now x }
{
    is_same(x.own, x.other) && has_near(literals, likely, x.own)
}

/// Returns the readings except those of literals of the table as themselves. A guard that the rows have in common is mostly at the front of
/// the table's literals.
fn others_of(
    alloc: Global,
    literals: &[Literal],
    readings: &[Reading],
) -> Result<Items<Reading>, Memory>
    ensures { IfOk result (λ others. others ≡ others_of literals.now readings.now) }
{
    let mut others = Items::new(alloc);
    let mut likely = 0usize;
    for x in readings {
        if is_known(literals, likely, *x) {
            likely = likely.saturating_add(1);
        } else {
            likely = 0;
            others.push(*x)?;
        }
    }
    Ok(others)
}

/// Returns whether the literals of a known shape can be read as those of another, beside the literals of a table.
pub(crate) fn fits(
    alloc: Global,
    literals: &[Literal],
    known: &[Items<Literal>],
    shape: &[Items<Literal>],
) -> Result<bool, Memory>
    ensures { IfOk result (λ r. IsTrue r → (same_lengths known.now shape.now ≡ true) × (are_apart literals.now (readings_of known.now shape.now) ≡ true)) }
{
    let Some(readings) = read_as(alloc, known, shape)? else {
        return Ok(false);
    };
    let others = others_of(alloc, literals, readings.as_slice())?;
    if !are_few(literals, others.as_slice()) {
        return Ok(false);
    }
    if are_apart(literals, others.as_slice()) {
        return Ok(true);
    }
    Ok(false)
}
