// The line of each table of the stages.
ghost use Rattle.std.specs.Prelude.{◌≡◌, ◌++◌, ℕ, length, IfOk, OnOk};
ghost use Rattle.lucid_tables.specs.Numbers.{rising};
ghost use Rattle.lucid_tables.specs.Placed.{named_by};
ghost use Rattle.lucid_layout_text.specs.Text as spec;

use crate::table_line::TableLine;
use lucid_base::{Items, Memory};
use lucid_code::Op;
use lucid_stages::arrays_in;
use lucid_tables::{StageCode, Table, put_numbers};
use std::alloc::Global;
use std::slice::from_ref;

/// Returns a line for each table of these stages.
pub(crate) fn lines(
    alloc: Global,
    ops: &[Op],
    stages: &[StageCode],
) -> Result<Vec<TableLine>, Memory>
    ensures { IfOk result (λ lines. lines.items ≡ spec.lines ops.now stages.now) }
{
    let mut lines = Vec::new(alloc);
    for (number, stage) in stages.iter().enumerate() {
        push_lines(
            alloc,
            ops,
            number as u64,
            stage.tables.as_slice(),
            &mut lines,
        )?;
    }
    Ok(lines)
}

/// Pushes a line for each of these tables of a stage.
fn push_lines(
    alloc: Global,
    ops: &[Op],
    stage: u64,
    tables: &[Table],
    lines: &mut Vec<TableLine>,
) -> Result<(), Memory>
    ensures { OnOk result (lines.new.items ≡ lines.old.items ++ spec.lines_in ops.now stage tables.now) }
{
    for (number, table) in tables.iter().enumerate() {
        lines.push(line(alloc, ops, stage, number as u64, table)?)?;
    }
    Ok(())
}

/// Returns the line of a table.
fn line(
    alloc: Global,
    ops: &[Op],
    stage: u64,
    number: u64,
    table: &Table,
) -> Result<TableLine, Memory>
    ensures { IfOk result (λ line. line ≡ spec.line_of ops.now stage number table.now) }
{
    let arrays = arrays_in(alloc, ops, from_ref(table))?;
    Ok(TableLine {
        stage,
        table: number,
        rows: table.rows.len() as u64,
        ops: named(alloc, table)?.len() as u64,
        arrays: Items::from_vec(arrays),
    })
}

/// Returns the operations that the rows of a table name, in rising order, each once.
fn named(alloc: Global, table: &Table) -> Result<Vec<u32>, Memory>
    ensures { IfOk result (λ named. named.items ≡ rising (named_by table.now)) }
{
    let mut named = Vec::new(alloc);
    for row in table.rows.as_slice() {
        put_numbers(row.ops.as_slice(), &mut named)?;
    }
    Ok(named)
}
