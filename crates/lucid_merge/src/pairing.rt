// Two rows as one: the union of their patterns, and the operations of both. Marks of the literals so far tell which of the others are new.
ghost use Rattle.std.specs.Prelude.{◌≡◌, ◌<◌, ◌++◌, ℕ, true, slice_index_or, IfOk, OnOk};
ghost use Rattle.std.specs.List.{fold};
ghost use Rattle.lucid_merge.specs.Marks.{AreSeen, is_marked};
ghost use Rattle.lucid_merge.specs.Product.{has, with_literal, union, pair};

use crate::patterns::has_near;
use crate::signs::slot;
use lucid_base::{Items, Memory};
use lucid_code::Literal;
use lucid_tables::Row;
use std::alloc::Global;

/// Two rows as one.
pub(crate) fn pair(alloc: Global, a: &Row, b: &Row) -> Result<Row, Memory>
    ensures { IfOk result (λ row. row ≡ pair a.now b.now) }
{
    let ops = both_ops(alloc, a.ops.as_slice(), b.ops.as_slice())?;
    let pattern = union(alloc, a.pattern.as_slice(), b.pattern.as_slice())?;
    Ok(Row { pattern, ops })
}

/// Returns the operations of two rows, in order.
fn both_ops(alloc: Global, a: &[u32], b: &[u32]) -> Result<Items<u32>, Memory>
    ensures { IfOk result (λ ops. ops ≡ a.now ++ b.now) }
{
    let mut ops = Items::from_slice(alloc, a)?;
    match append_copy(alloc, &mut ops, b) {
        Ok(()) => Ok(ops),
        Err(error) => {
            drop(ops);
            Err(error)
        }
    }
}

/// Puts a copy of more operations behind these.
fn append_copy(alloc: Global, ops: &mut Items<u32>, more: &[u32]) -> Result<(), Memory>
    ensures { OnOk result (ops.new ≡ ops.old ++ more.now) }
{
    let copy = Items::from_slice(alloc, more)?;
    ops.append(copy)?;
    Ok(())
}

/// Returns the literals of two patterns, none twice.
fn union(alloc: Global, p: &[Literal], q: &[Literal]) -> Result<Items<Literal>, Memory>
    ensures { IfOk result (λ pattern. pattern ≡ union p.now q.now) }
{
    let mut seen = marks_for(alloc, p, q)?;
    let mut pattern = Items::from_vec(Vec::with_capacity(alloc, likely_size(p, q))?);
    put_literals(p, &mut seen, &mut pattern)?;
    put_literals(q, &mut seen, &mut pattern)?;
    Ok(pattern)
}

/// Returns how many literals the union probably has: rows behind one guard have few others.
fn likely_size(p: &[Literal], q: &[Literal]) -> usize {
    p.len().max(q.len()).saturating_add(4)
}

/// Places for the marks of the literals of two patterns; none where there are so few literals that all are marked.
fn marks_for(alloc: Global, p: &[Literal], q: &[Literal]) -> Result<Vec<u16>, Memory> {
    if p.len() > 32 || q.len() > 32 {
        Ok(vec![in alloc; 0u16; 4097]?)
    } else {
        Ok(Vec::new(alloc))
    }
}

fn mark(marks: &[u16], place: usize) -> usize
    ensures { result ≡ slice_index_or marks.now place 1 }
{
    match marks.get(place) {
        None => 1,
        Some(found) => usize::from(*found),
    }
}

fn is_marked(marks: &[u16], place: usize) -> bool
    ensures { result ≡ is_marked marks.now place }
{
    mark(marks, place) != 0
}

/// Returns a number that is not 0 in 16 bits; one that is too large gets the largest.
fn short(number: usize) -> u16
    requires { 0 < number }
    ensures { 0 < result }
{
    match u16::try_from(number) {
        Ok(short) => short,
        Err(_) => u16::MAX,
    }
}

/// Marks a place, if it is there.
fn set_mark(marks: &mut Vec<u16>, place: usize, number: usize)
    requires { 0 < number }
    ensures place { is_marked marks.new.items place ≡ true }
    ensures others { (i : ℕ) → is_marked marks.old.items i ≡ true → is_marked marks.new.items i ≡ true }
{
    if place < marks.len() {
        marks[place] = short(number);
    }
}

/// Whether a pattern has a literal. The mark of a literal in it is its number from 1, or that of another literal with the same place.
fn has_seen(seen: &[u16], pattern: &[Literal], literal: Literal) -> bool
    requires { AreSeen seen.now pattern.now }
    ensures { result ≡ has pattern.now literal }
{
    let place = slot(literal);
    if !is_marked(seen, place) {
        return false;
    }
    has_near(pattern, mark(seen, place).saturating_sub(1), literal)
}

/// Puts a literal behind a pattern that doesn't have it.
fn put_literal(
    literal: Literal,
    seen: &mut Vec<u16>,
    pattern: &mut Items<Literal>,
) -> Result<(), Memory>
    requires { AreSeen seen.old.items pattern.old }
    ensures value { OnOk result (pattern.new ≡ with_literal pattern.old literal) }
    ensures seen { OnOk result (AreSeen seen.new.items pattern.new) }
{
    if has_seen(seen.as_slice(), pattern.as_slice(), literal) {
        return Ok(());
    }
    let place = slot(literal);
    let number = pattern.len().saturating_add(1);
    set_mark(seen, place, number);
    pattern.push(literal)?;
    Ok(())
}

/// Puts each of these literals behind a pattern that doesn't have it.
fn put_literals(
    more: &[Literal],
    seen: &mut Vec<u16>,
    pattern: &mut Items<Literal>,
) -> Result<(), Memory>
    requires { AreSeen seen.old.items pattern.old }
    ensures value { OnOk result (pattern.new ≡ fold with_literal pattern.old more.now) }
    ensures seen { OnOk result (AreSeen seen.new.items pattern.new) }
{
    for literal in more {
        put_literal(*literal, seen, pattern)?;
    }
    Ok(())
}
