// The rows of a table that are compatible with a row that tests a field for a value. They are found once for each table, by the value's
// remainder, so most rows that test the field for another value are never tried.
ghost use Rattle.std.specs.Prelude.{◌≡◌, IfOk};
ghost use Rattle.std.specs.List.{list_any, All};
ghost use Rattle.lucid_merge.specs.Standing.{asks, asks_other, IsNear};

use lucid_base::{Items, Memory};
use lucid_code::Literal;
use lucid_tables::Row;
use std::alloc::Global;

/// The positions of the rows that are compatible with a test of the field for a value with this remainder by 32.
#[derive(Drop)]
pub(crate) struct Near {
    pub(crate) field: u32,
    pub(crate) rest: u64,
    pub(crate) places: Items<usize>,
}

fn asks(field: u32, rest: u64, literal: Literal) -> bool
    ensures { result ≡ asks field rest literal }
{
    literal.equal && literal.field == field && literal.value % 32 == rest
}

fn asks_other(field: u32, rest: u64, literal: Literal) -> bool
    ensures { result ≡ asks_other field rest literal }
{
    literal.equal && literal.field == field && literal.value % 32 != rest
}

/// Returns whether a row asks the field for a value with the rest.
pub(crate) fn suits(near: &Near, row: &Row) -> bool
    ensures { result ≡ list_any (asks near.now.field near.now.rest) row.now.pattern }
{
    let field = near.field;
    let rest = near.rest;
    row.pattern.as_slice().iter().any(|l| asks(field, rest, *l))
}

/// Returns whether a row asks the field for a value with another rest.
fn avoids(field: u32, rest: u64, row: &Row) -> bool
    ensures { result ≡ list_any (asks_other field rest) row.now.pattern }
{
    let pattern = row.pattern.as_slice();
    pattern.iter().any(|l| asks_other(field, rest, *l))
}

/// Returns the rows that are compatible with a test of the field for a value with this remainder.
fn rows_near(alloc: Global, rows: &[Row], field: u32, rest: u64) -> Result<Near, Memory>
    ensures { IfOk result (λ n. IsNear rows.now n) }
{
    let mut places = Items::new(alloc);
    for (place, row) in rows.iter().enumerate() {
        if !avoids(field, rest, row) {
            places.push(place)?;
        }
    }
    Ok(Near {
        field,
        rest,
        places,
    })
}

/// Returns the field that the last literal of the first row names.
fn asked(rows: &[Row]) -> Option<u32> {
    match rows.first() {
        None => None,
        Some(row) => match row.pattern.as_slice().last() {
            None => None,
            Some(literal) => Some(literal.field),
        },
    }
}

/// For each rest the rows near it, by the field of the last literal of the first row; none where so few rows are tried so seldom that
/// this would cost more.
pub(crate) fn all_near(alloc: Global, rows: &[Row], turns: usize) -> Result<Vec<Near>, Memory>
    ensures { IfOk result (λ list. All (IsNear rows.now) list.items) }
{
    let mut list = Vec::new(alloc);
    if turns <= 32 || rows.len() <= 32 {
        return Ok(list);
    }
    let Some(field) = asked(rows) else {
        return Ok(list);
    };
    for rest in 0..32 {
        list.push(rows_near(alloc, rows, field, rest)?)?;
    }
    Ok(list)
}
