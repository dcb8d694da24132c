// Which literals may be opposed to others: those whose field other literals name, too. Two rows are compared by these alone.
ghost use Rattle.std.specs.Prelude.{◌≡◌, ◌||◌, map, IfOk};
ghost use Rattle.std.specs.List.{list_any};
ghost use Rattle.lucid_code.specs.Guards as guards;
ghost use Rattle.lucid_merge.specs.Contested.{field_slot, is_contested, contested, contested_row, opposes_lone};

use crate::patterns::{contradict, has, is_same, opposed};
use lucid_base::{Items, Memory};
use lucid_code::Literal;
use lucid_tables::Row;
use std::alloc::Global;

fn field_slot(literal: Literal) -> usize
    ensures { result ≡ field_slot literal }
{
    (literal.field % 4096) as usize
}

/// Returns whether another literal is at the place of the literal's field.
fn is_contested(lone: &[Literal], literal: Literal) -> bool
    ensures { result ≡ is_contested lone.now literal }
{
    match lone.get(field_slot(literal)) {
        None => true,
        Some(found) => !is_same(literal, *found),
    }
}

/// Returns the contested literals of a pattern.
fn contested(alloc: Global, lone: &[Literal], pattern: &[Literal]) -> Result<Items<Literal>, Memory>
    ensures { IfOk result (λ found. found ≡ contested lone.now pattern.now) }
{
    let mut found = Items::new(alloc);
    for literal in pattern {
        if is_contested(lone, *literal) {
            found.push(*literal)?;
        }
    }
    Ok(found)
}

/// The contested literals of a row, and whether it contradicts itself.
#[derive(Drop)]
pub(crate) struct ContestedRow {
    pub(crate) literals: Items<Literal>,
    pub(crate) contradicts_itself: bool,
}

pub(crate) fn contested_row(
    alloc: Global,
    lone: &[Literal],
    row: &Row,
) -> Result<ContestedRow, Memory>
    ensures { IfOk result (λ found. found ≡ contested_row lone.now row.now) }
{
    let pattern = row.pattern.as_slice();
    let literals = contested(alloc, lone, pattern)?;
    let own = literals.as_slice();
    let contradicts_itself = contradict_by(lone, pattern, pattern, own, own);
    Ok(ContestedRow {
        literals,
        contradicts_itself,
    })
}

/// Returns what `contested_row` returns, for each of these rows.
pub(crate) fn contested_rows(
    alloc: Global,
    lone: &[Literal],
    rows: &[Row],
) -> Result<Vec<ContestedRow>, Memory>
    ensures { IfOk result (λ found. found.items ≡ map (contested_row lone.now) rows.now) }
{
    let mut found = Vec::new(alloc);
    for row in rows {
        found.push(contested_row(alloc, lone, row)?)?;
    }
    Ok(found)
}

/// Returns whether a literal is opposed to the one at its field's place, and the pattern has that.
fn opposes_lone(lone: &[Literal], pattern: &[Literal], literal: Literal) -> bool
    ensures { result ≡ opposes_lone lone.now pattern.now literal }
{
    match lone.get(field_slot(literal)) {
        None => false,
        Some(found) => opposed(literal, *found) && has(pattern, *found),
    }
}

fn any_opposes_lone(lone: &[Literal], pattern: &[Literal], literals: &[Literal]) -> bool
    ensures { result ≡ list_any (opposes_lone lone.now pattern.now) literals.now }
{
    literals.iter().any(|l| opposes_lone(lone, pattern, *l))
}

/// Returns whether a contested literal of one of two patterns is opposed to the one at its field's place, and the other pattern has that.
fn either_opposes_lone(
    lone: &[Literal],
    p: &[Literal],
    q: &[Literal],
    of_p: &[Literal],
    of_q: &[Literal],
) -> bool
    ensures { result ≡ (list_any (opposes_lone lone.now q.now) of_p.now || list_any (opposes_lone lone.now p.now) of_q.now) }
{
    any_opposes_lone(lone, q, of_p) || any_opposes_lone(lone, p, of_q)
}

/// Returns whether a literal of the one pattern and one of the other never hold together, by the contested literals of both. A literal that
/// is not contested is the one at its field's place, so it is met there.
pub(crate) fn contradict_by(
    lone: &[Literal],
    p: &[Literal],
    q: &[Literal],
    of_p: &[Literal],
    of_q: &[Literal],
) -> bool
    requires of_p { of_p.now ≡ contested lone.now p.now }
    requires of_q { of_q.now ≡ contested lone.now q.now }
    ensures { result ≡ guards.contradict p.now q.now }
{
    contradict(of_p, of_q) || either_opposes_lone(lone, p, q, of_p, of_q)
}

/// For each field of these rows the one literal that names it, or one of another place if there are more. Any literals would serve.
pub(crate) fn lone_literals(alloc: Global, a: &[Row], b: &[Row]) -> Result<Vec<Literal>, Memory> {
    let none = Literal {
        field: u32::MAX,
        equal: false,
        value: u64::MAX,
    };
    let size = most_field(a).max(most_field(b)).saturating_add(1).min(4096);
    let mut lone = vec![in alloc; none; size]?;
    note_rows(&mut lone, a);
    note_rows(&mut lone, b);
    Ok(lone)
}

/// Returns the largest field that these rows name.
fn most_field(rows: &[Row]) -> usize {
    let mut most = 0;
    for row in rows {
        for literal in row.pattern.as_slice() {
            most = most.max(literal.field as usize);
        }
    }
    most
}

fn note_rows(lone: &mut Vec<Literal>, rows: &[Row]) {
    for row in rows {
        note_row(lone, row.pattern.as_slice());
    }
}

fn note_row(lone: &mut Vec<Literal>, pattern: &[Literal]) {
    for literal in pattern {
        note(lone, *literal);
    }
}

/// Puts a literal at its field's place if that is free, and a literal of another place if another one is there.
fn note(lone: &mut Vec<Literal>, literal: Literal) {
    let place = field_slot(literal);
    if place < lone.len() {
        let found = lone[place];
        if found.field == u32::MAX {
            lone[place] = literal;
        } else if !is_same(literal, found) {
            lone[place] = Literal {
                field: literal.field ^ 1,
                ..literal
            };
        }
    }
}
