// The shape of rows beside a table: their patterns, or so much of them as the number of rows depends on.
ghost use Rattle.std.specs.Prelude.{◌≡◌, ◌++◌, [], ◌∷◌, true, false, IfOk, IfSome, IsTrue};
ghost use Rattle.lucid_tables.specs.Numbers.{is_in};
ghost use Rattle.lucid_merge.specs.Product.{has};
ghost use Rattle.lucid_merge.specs.RowCounts.{patterns_of, CanMatch};
ghost use Rattle.lucid_refusals.specs.Refusal.{StandsFor, fields_of, shared};

use crate::law;
use lucid_base::{Items, Memory};
use lucid_code::Literal;
use lucid_merge::{contradict, is_same};
use lucid_tables::{Row, put_fields};
use std::alloc::Global;

/// Whether a row could match: its pattern doesn't ask for two values of one field.
fn can_match(row: &Row) -> bool
    ensures { IsTrue result → CanMatch row.now }
{
    let pattern = row.pattern.as_slice();
    !contradict(pattern, pattern)
}

/// Whether a field is one of these.
fn is_field(fields: &[u32], field: u32) -> bool
    ensures { result ≡ is_in field fields.now }
{
    fields.iter().any(|k| *k == field)
}

/// A literal of the pattern whose field is none of these.
#[tactic(auto, using(crate::proofs::RefusalLemmas::has_at))]
fn new_literal(fields: &[u32], pattern: &[Literal]) -> Option<Literal>
    ensures { IfSome result (λ l. (has pattern.now l ≡ true) × (is_in l.field fields.now ≡ false)) }
{
    for literal in pattern {
        if !is_field(fields, literal.field) {
            return Some(*literal);
        }
    }
    None
}

/// The literals of these fields.
fn shared(alloc: Global, fields: &[u32], pattern: &[Literal]) -> Result<Items<Literal>, Memory>
    ensures { IfOk result (λ literals. literals ≡ shared fields.now pattern.now) }
{
    let mut literals = Items::new(alloc);
    for literal in pattern {
        if is_field(fields, literal.field) {
            literals.push(*literal)?;
        }
    }
    Ok(literals)
}

/// Whether two patterns are the same, literal by literal.
pub(crate) fn same_pattern(p: &[Literal], q: &[Literal]) -> bool
    ensures { IsTrue result → p.now ≡ q.now }
{
    if p.len() != q.len() {
        return false;
    }
    for at in 0..p.len() {
        if !is_same(p[at], q[at]) {
            return false;
        }
    }
    true
}

/// The fields that the patterns of these rows name, in rising order.
#[tactic(auto, using(crate::proofs::RefusalLemmas::more_fields))]
pub(crate) fn fields_of(alloc: Global, rows: &[Row]) -> Result<Vec<u32>, Memory>
    ensures { IfOk result (λ fields. fields.items ≡ fields_of (patterns_of rows.now)) }
{
    let mut fields = Vec::new(alloc);
    for row in rows {
        put_fields(row.pattern.as_slice(), &mut fields)?;
    }
    Ok(fields)
}

/// The patterns of these rows, in memory of their own.
pub(crate) fn patterns_of(alloc: Global, rows: &[Row]) -> Result<Items<Items<Literal>>, Memory>
    ensures { IfOk result (λ patterns. patterns ≡ patterns_of rows.now) }
{
    let mut patterns = Items::new(alloc);
    for row in rows {
        patterns.push(Items::from_slice(alloc, row.pattern.as_slice())?)?;
    }
    Ok(patterns)
}

/// The literals of these fields, and one more, as the one pattern of a shape.
fn short_shape(
    alloc: Global,
    fields: &[u32],
    pattern: &[Literal],
    literal: Literal,
) -> Result<Items<Items<Literal>>, Memory>
    ensures { IfOk result (λ shape. shape ≡ (shared fields.now pattern.now ++ literal ∷ []) ∷ []) }
{
    let mut literals = shared(alloc, fields, pattern)?;
    literals.push(literal)?;
    let mut shape = Items::new(alloc);
    shape.push(literals)?;
    Ok(shape)
}

/// A literal of a row that could match whose field is none of these.
fn spare_literal(fields: &[u32], row: &Row) -> Option<Literal>
    ensures { IfSome result (λ l. CanMatch row.now × (has row.now.pattern l ≡ true) × (is_in l.field fields.now ≡ false)) }
{
    if !can_match(row) {
        return None;
    }
    new_literal(fields, row.pattern.as_slice())
}

/// The shape of a single row. Of its literals of fields that the table doesn't name, one is enough.
fn shape_of_row(
    alloc: Global,
    fields: &[u32],
    more: &[Row],
    row: &Row,
) -> Result<Items<Items<Literal>>, Memory>
    requires { more.now ≡ row.now ∷ [] }
    ensures { IfOk result (StandsFor fields.now more.now) }
{
    law::rows_are_counted();
    match spare_literal(fields, row) {
        None => {
            let shape = patterns_of(alloc, more)?;
            Ok(shape)
        }
        Some(literal) => {
            let pattern = row.pattern.as_slice();
            let shape = short_shape(alloc, fields, pattern, literal)?;
            Ok(shape)
        }
    }
}

/// The shape of these rows beside a table that names these fields.
pub(crate) fn shape_of(
    alloc: Global,
    fields: &[u32],
    more: &[Row],
) -> Result<Items<Items<Literal>>, Memory>
    ensures { IfOk result (StandsFor fields.now more.now) }
{
    law::rows_are_counted();
    if more.len() == 1 {
        return shape_of_row(alloc, fields, more, &more[0]);
    }
    let shape = patterns_of(alloc, more)?;
    Ok(shape)
}
