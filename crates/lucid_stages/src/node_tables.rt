// The table of a node.
ghost use Rattle.std.specs.Prelude.{◌≡◌, ◌<◌, ◌∷◌, false, true, length, None, Ok, IfOk, IfSome};
ghost use Rattle.lucid_tables.specs.Rows.{guard_of, rows_of};
ghost use Rattle.lucid_merge.specs.Product.{product, within};
ghost use Rattle.lucid_stages.specs.NodeTables.{merged, few_on_the_way, tables_at};
ghost use Rattle.lucid_stages.specs.Marks.{Within};

use lucid_base::{Items, Memory};
use lucid_code::Code;
use lucid_merge::merge;
use lucid_tables::{Table, table_of};
use std::alloc::Global;

/// The tables of these operations merged one after another, and None if one of the products has more than `rows` rows.
pub fn node_table(
    alloc: Global,
    code: &Code,
    ops: &[u32],
    rows: usize,
) -> Result<Option<Table>, Memory>
    requires { Within (length code.now.ops) ops.now }
    ensures none { result ≡ Ok None → few_on_the_way rows (tables_at code.now.ops ops.now) ≡ false }
    ensures few { IfOk result (λ o. IfSome o (λ t. few_on_the_way rows (tables_at code.now.ops ops.now) ≡ true)) }
    ensures rows { IfOk result (λ o. IfSome o (λ t. t.rows ≡ merged (tables_at code.now.ops ops.now))) }
{
    match ops.split_first() {
        None => Ok(Some(Table::new(alloc, Items::new(alloc))?)),
        Some((first, more)) => merge_all(alloc, code, *first, more, rows),
    }
}

/// The tables of an operation and of more operations, merged one after another.
fn merge_all(
    alloc: Global,
    code: &Code,
    first: u32,
    more: &[u32],
    rows: usize,
) -> Result<Option<Table>, Memory>
    requires first { first < length code.now.ops }
    requires more { Within (length code.now.ops) more.now }
    ensures none { result ≡ Ok None → few_on_the_way rows (tables_at code.now.ops (first ∷ more.now)) ≡ false }
    ensures few { IfOk result (λ o. IfSome o (λ t. few_on_the_way rows (tables_at code.now.ops (first ∷ more.now)) ≡ true)) }
    ensures rows { IfOk result (λ o. IfSome o (λ t. t.rows ≡ merged (tables_at code.now.ops (first ∷ more.now)))) }
{
    let mut table = table_of(alloc, code, first)?;
    for op in more {
        match merge_next(alloc, code, &table, *op, rows)? {
            None => return Ok(None),
            Some(made) => table = made,
        }
    }
    Ok(Some(table))
}

/// A table merged with that of an operation.
fn merge_next(
    alloc: Global,
    code: &Code,
    table: &Table,
    op: u32,
    rows: usize,
) -> Result<Option<Table>, Memory>
    requires { op < length code.now.ops }
    ensures { IfOk result (λ found. found ≡ within rows (product table.now.rows (rows_of (guard_of code.now.ops op) op))) }
{
    let next = table_of(alloc, code, op)?;
    merge(alloc, table, &next, rows)
}
