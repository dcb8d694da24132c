// Tables that grow: the shapes of the rows that a table refused are remembered, so that nothing is merged in vain again.
ghost use Rattle.std.specs.Prelude.{◌≡◌, ◌<◌, length, IfOk, IfSome, IsTrue};
ghost use Rattle.lucid_merge.specs.Product.{product, within};
ghost use Rattle.lucid_merge.specs.RowCounts.{patterns_of};
ghost use Rattle.lucid_refusals.specs.Refusal.{Refuses};

use crate::implying::implies;
use crate::law;
use crate::literals::literals_of;
use crate::refusal::Refusals;
use crate::shape::{fields_of, patterns_of, shape_of};
use lucid_base::{Items, Memory};
use lucid_code::Literal;
use lucid_merge::merge;
use lucid_tables::{Row, Table};
use std::alloc::Global;
use std::marker::Model;

/// Returns whether the remembered refusal at a position implies that the table refuses this shape.
fn refuses_like(
    alloc: Global,
    known: &Refusals,
    at: usize,
    shape: &[Items<Literal>],
) -> Result<bool, Memory>
    ensures { IfOk result (λ r. IsTrue r → Refuses known.now.rows known.now.patterns shape.now) }
{
    let literals = known.literals.as_slice();
    let shapes = known.shapes.as_slice();
    if at >= shapes.len() {
        return Ok(false);
    }
    let own = shapes[at].as_slice();
    if implies(alloc, literals, own, shape)? {
        return Ok(true);
    }
    Ok(false)
}

/// Returns whether a remembered refusal implies that the table refuses this shape. The one that did last is asked first, and then those
/// behind it, since the nodes of similar handlers come in one order.
fn refuses_shape(
    alloc: Global,
    known: &Refusals,
    shape: &[Items<Literal>],
    last: &mut usize,
) -> Result<bool, Memory>
    ensures { IfOk result (λ r. IsTrue r → Refuses known.now.rows known.now.patterns shape.now) }
{
    let count = known.shapes.len();
    let first = (*last).min(count);
    for at in first..count {
        if refuses_like(alloc, known, at, shape)? {
            *last = at;
            return Ok(true);
        }
    }
    for at in 0..first {
        if refuses_like(alloc, known, at, shape)? {
            *last = at;
            return Ok(true);
        }
    }
    Ok(false)
}

/// Returns whether a remembered refusal applies: this table has more than `rows` rows with these rows.
fn is_refused(
    alloc: Global,
    known: &Option<Refusals>,
    table: &[Row],
    more: &[Row],
    rows: usize,
    last: &mut usize,
) -> Result<bool, Memory>
    requires { IfSome known.now (λ k. patterns_of table.now ≡ k.patterns) }
    ensures { IfOk result (λ r. IsTrue r → rows < length (product table.now more.now)) }
{
    match known {
        None => Ok(false),
        Some(known) => refuses(alloc, known, table, more, rows, last),
    }
}

/// Returns whether these are refusals for this number of rows.
fn are_for(known: &Refusals, rows: usize) -> bool
    ensures { IsTrue result → known.now.rows ≡ rows }
{
    known.rows == rows
}

/// Returns whether these refusals of a table are for this number of rows, and one implies that it has more than `rows` rows with these.
fn refuses(
    alloc: Global,
    known: &Refusals,
    table: &[Row],
    more: &[Row],
    rows: usize,
    last: &mut usize,
) -> Result<bool, Memory>
    requires { patterns_of table.now ≡ known.now.patterns }
    ensures { IfOk result (λ r. IsTrue r → rows < length (product table.now more.now)) }
{
    if !are_for(known, rows) {
        return Ok(false);
    }
    if !are_short(more) {
        return Ok(false);
    }
    let fields = known.fields.as_slice();
    let shape = shape_of(alloc, fields, more)?;
    let asked = shape.as_slice();
    if refuses_shape(alloc, known, asked, last)? {
        return Ok(true);
    }
    Ok(false)
}

/// Returns whether rows have so few literals that a table remembers them.
fn are_short(rows: &[Row]) -> bool {
    let mut count = 0usize;
    for row in rows {
        count = count.saturating_add(row.pattern.len());
    }
    count <= 4096
}

/// No refusals of a table yet.
fn no_refusals(alloc: Global, table: &[Row], rows: usize) -> Result<Refusals, Memory>
    ensures rows { IfOk result (λ known. known.rows ≡ rows) }
    ensures patterns { IfOk result (λ known. patterns_of table.now ≡ known.patterns) }
{
    let fields = Items::from_vec(fields_of(alloc, table)?);
    let patterns = patterns_of(alloc, table)?;
    let literals = literals_of(alloc, table)?;
    Ok(Refusals {
        rows,
        patterns,
        fields,
        literals,
        shapes: Items::new(alloc),
    })
}

/// The known refusals of a table if they are for this number of rows and are fewer than 64, and otherwise none yet.
fn refusals_of(
    alloc: Global,
    known: Option<Refusals>,
    table: &[Row],
    rows: usize,
) -> Result<Refusals, Memory>
    requires { IfSome known (λ k. patterns_of table.now ≡ k.patterns) }
    ensures rows { IfOk result (λ known. known.rows ≡ rows) }
    ensures patterns { IfOk result (λ known. patterns_of table.now ≡ known.patterns) }
{
    let Some(known) = known else {
        return no_refusals(alloc, table, rows);
    };
    if known.shapes.len() < 64 && are_for(&known, rows) {
        return Ok(known);
    }
    no_refusals(alloc, table, rows)
}

/// Adds the refusal of these rows to those of a table.
fn with_refusal(
    alloc: Global,
    known: Refusals,
    table: &[Row],
    more: &[Row],
) -> Result<Refusals, Memory>
    requires refused { known.rows < length (product table.now more.now) }
    requires patterns { patterns_of table.now ≡ known.patterns }
    ensures { IfOk result (λ known. patterns_of table.now ≡ known.patterns) }
{
    law::rows_are_counted();
    let named = known.fields.as_slice();
    let shape = shape_of(alloc, named, more)?;
    let Refusals {
        rows,
        patterns,
        fields,
        literals,
        mut shapes,
    } = known;
    shapes.push(shape)?;
    Ok(Refusals {
        rows,
        patterns,
        fields,
        literals,
        shapes,
    })
}

/// Remembers that a table has more than `rows` rows with these, if these are short, beside its known refusals.
fn remember(
    alloc: Global,
    known: &mut Option<Refusals>,
    table: &[Row],
    more: &[Row],
    rows: usize,
) -> Result<(), Memory>
    requires refused { rows < length (product table.now more.now) }
    requires patterns { IfSome known.old (λ k. patterns_of table.now ≡ k.patterns) }
    ensures { IfSome known.new (λ k. patterns_of table.now ≡ k.patterns) }
{
    if !are_short(more) {
        return Ok(());
    }
    let found = refusals_of(alloc, known.take(), table, rows)?;
    *known = Some(with_refusal(alloc, found, table, more)?);
    Ok(())
}

/// Merges a table with another, if it then has few enough rows; otherwise remembers the refusal beside the table's known ones.
fn merged(
    alloc: Global,
    known: &mut Option<Refusals>,
    table: &Table,
    more: &Table,
    rows: usize,
    last: &mut usize,
) -> Result<Option<Table>, Memory>
    requires { IfSome known.old (λ k. patterns_of table.now.rows ≡ k.patterns) }
    ensures value { IfOk result (λ found. found ≡ within rows (product table.now.rows more.now.rows)) }
    ensures known { IfSome known.new (λ k. patterns_of table.now.rows ≡ k.patterns) }
{
    let own = table.rows.as_slice();
    let others = more.rows.as_slice();
    if is_refused(alloc, &*known, own, others, rows, last)? {
        return Ok(None);
    }
    match merge(alloc, table, more, rows)? {
        Some(made) => Ok(Some(made)),
        None => {
            remember(alloc, known, own, others, rows)?;
            Ok(None)
        }
    }
}

/// A table that grows, and the shapes of the rows that it refused. The one that implied the last refusal is asked first. Contracts see the
/// table.
#[derive(Drop)]
pub struct Grown {
    table: Table,
    known: Option<Refusals>,
    last: usize,
}

impl Model for Grown {
    ghost use Rattle.std.specs.Prelude.{◌≡◌, IfSome};
    ghost use Rattle.lucid_tables.specs.declared.table.Table.{Table};
    ghost use Rattle.lucid_merge.specs.RowCounts.{patterns_of};

    ghost Value = { Table };

    ghost view = { λ g. g.table };

    ghost invariant = { λ g. IfSome g.known (λ k. patterns_of g.table.rows ≡ k.patterns) };
}

impl Grown {
    /// Returns a table that refused nothing yet.
    pub fn new(table: Table) -> Grown
        ensures { result ≡ table }
    {
        Grown {
            table,
            known: None,
            last: 0,
        }
    }

    /// Returns the table.
    pub fn into_table(self) -> Table
        ensures { result ≡ self }
    {
        let Grown { table, .. } = self;
        table
    }

    /// Merges the table with another, if it then has few enough rows. The table itself stays.
    pub fn grow(
        &mut self,
        alloc: Global,
        more: &Table,
        rows: usize,
    ) -> Result<Option<Table>, Memory>
        ensures value { IfOk result (λ found. found ≡ within rows (product self.old.rows more.now.rows)) }
        ensures same { self.new ≡ self.old }
    {
        merged(
            alloc,
            &mut self.known,
            &self.table,
            more,
            rows,
            &mut self.last,
        )
    }
}
