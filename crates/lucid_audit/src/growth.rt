// The tables that nodes at their places make.
ghost use Rattle.std.specs.Prelude.{◌≡◌, [], false, true, length, None, Ok, IfOk, IfSome};
ghost use Rattle.std.specs.List.{AllByRecursion};
ghost use Rattle.lucid_tables.specs.Rows.{table as table_of_rows};
ghost use Rattle.lucid_merge.specs.Product.{product};
ghost use Rattle.lucid_stages.specs.NodeTables.{merged, tables_of};
ghost use Rattle.lucid_stages.specs.Marks.{Within};
ghost use Rattle.lucid_audit.specs.Audit.{takes, few_rows, nodes_at, table_at};

use lucid_base::{Items, Memory};
use lucid_code::Code;
use lucid_merge::merge;
use lucid_stages::{Seat, Work, node_table};
use lucid_tables::Table;
use std::alloc::Global;

/// Returns a table with the operations of one more node, and None if a product has more than `rows` rows.
fn with_node(
    alloc: Global,
    code: &Code,
    table: &Table,
    node: &Work,
    rows: usize,
) -> Result<Option<Table>, Memory>
    requires { Within (length code.now.ops) node.now.ops }
    ensures none { result ≡ Ok None → takes code.now.ops rows table.now.rows node.now ≡ false }
    ensures takes { IfOk result (λ o. IfSome o (λ x. takes code.now.ops rows table.now.rows node.now ≡ true)) }
    ensures made { IfOk result (λ o. IfSome o (λ x. x ≡ table_of_rows (product table.now.rows (merged (tables_of code.now.ops node.now))))) }
{
    match node_table(alloc, code, node.ops.as_slice(), rows)? {
        None => Ok(None),
        Some(more) => merge(alloc, table, &more, rows),
    }
}

/// Returns the table of the nodes at a place, and None if it or a product on the way to it has more than `rows` rows.
pub(crate) fn table_at(
    alloc: Global,
    code: &Code,
    seats: &[Seat],
    k: u32,
    t: u32,
    rows: usize,
) -> Result<Option<Table>, Memory>
    requires { AllByRecursion (λ s. Within (length code.now.ops) s.node.ops) seats.now }
    ensures none { result ≡ Ok None → few_rows code.now.ops rows [] (nodes_at k t seats.now) ≡ false }
    ensures few { IfOk result (λ o. IfSome o (λ x. few_rows code.now.ops rows [] (nodes_at k t seats.now) ≡ true)) }
    ensures made { IfOk result (λ o. IfSome o (λ x. x ≡ table_at code.now.ops seats.now k t)) }
{
    let mut table = Table {
        keys: Items::new(alloc),
        rows: Items::new(alloc),
    };
    for seat in seats {
        if seat.at.stage == k && seat.at.table == t {
            match with_node(alloc, code, &table, &seat.node, rows)? {
                None => return Ok(None),
                Some(made) => table = made,
            }
        }
    }
    Ok(Some(table))
}
