// The literals of the rows of a table, each once.
ghost use Rattle.std.specs.Prelude.{◌≡◌, IfOk, OnOk};
ghost use Rattle.std.specs.List.{fold};
ghost use Rattle.lucid_merge.specs.Product.{with_literal};
ghost use Rattle.lucid_merge.specs.RowCounts.{patterns_of};
ghost use Rattle.lucid_refusals.specs.Refusal.{literals_of};

use lucid_base::{Items, Memory};
use lucid_code::Literal;
use lucid_merge::has_near;
use lucid_tables::Row;
use std::alloc::Global;

/// The slot that has the likely position of a literal.
fn slot(literal: Literal) -> usize {
    ((literal.value ^ (u64::from(literal.field) * 521)) % 4096) as usize
}

/// The likely position of a literal among those so far.
fn likely(seen: &[usize], literal: Literal) -> usize {
    match seen.get(slot(literal)) {
        None => 0,
        Some(at) => *at,
    }
}

fn set_likely(seen: &mut Vec<usize>, literal: Literal, at: usize) {
    let place = slot(literal);
    if place < seen.len() {
        seen[place] = at;
    }
}

/// Puts a literal behind those that don't have it.
fn put_literal(
    literal: Literal,
    seen: &mut Vec<usize>,
    literals: &mut Items<Literal>,
) -> Result<(), Memory>
    ensures { OnOk result (literals.new ≡ with_literal literals.old literal) }
{
    if has_near(
        literals.as_slice(),
        likely(seen.as_slice(), literal),
        literal,
    ) {
        return Ok(());
    }
    set_likely(seen, literal, literals.len());
    literals.push(literal)?;
    Ok(())
}

/// Puts each literal of a pattern behind those that don't have it.
fn put_literals(
    pattern: &[Literal],
    seen: &mut Vec<usize>,
    literals: &mut Items<Literal>,
) -> Result<(), Memory>
    ensures { OnOk result (literals.new ≡ fold with_literal literals.old pattern.now) }
{
    for literal in pattern {
        put_literal(*literal, seen, literals)?;
    }
    Ok(())
}

/// The literals of these rows, each once.
pub(crate) fn literals_of(alloc: Global, rows: &[Row]) -> Result<Items<Literal>, Memory>
    ensures { IfOk result (λ literals. literals ≡ literals_of (patterns_of rows.now)) }
{
    let mut seen = vec![in alloc; 0usize; 4096]?;
    let mut literals = Items::new(alloc);
    for row in rows {
        put_literals(row.pattern.as_slice(), &mut seen, &mut literals)?;
    }
    Ok(literals)
}
