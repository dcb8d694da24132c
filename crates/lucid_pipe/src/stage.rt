// A stage, executed on registers and cells: each table's first row that matches acts.
ghost use Rattle.std.specs.Prelude.{◌≡◌, ◌<◌, length, slice_get};
ghost use Rattle.std.specs.List.{fold};
ghost use Rattle.std.specs.Option.{option_map_or};
ghost use Rattle.lucid_code.specs.Guards.{all_hold, holds};
ghost use Rattle.lucid_tables.specs.Registers.{registers_of};
ghost use Rattle.lucid_tables.specs.Stages.{stage};
ghost use Rattle.lucid_pipe.specs.Blocks.{machine, on_registers};
ghost use Rattle.lucid_pipe.specs.InPlace.{run_number, run_rows, run_all_rows};

use crate::act::act;
use crate::read::register;
use crate::sent::Sent;
use lucid_base::{Cells, Items};
use lucid_code::Literal;
use lucid_tables::{Placed, Row};

/// Executes stage `k`.
pub(crate) fn execute(
    placed: &Placed,
    k: usize,
    registers: &mut [u64],
    cells: &mut Cells,
    sent: &mut Sent,
)
    requires long { length registers.old ≡ length (registers_of placed.now.code) }
    requires there { k < length placed.now.stages }
    ensures machine { let before = machine placed.now.code registers.old cells.old sent.old in
        machine placed.now.code registers.new cells.new sent.new
        ≡ option_map_or (stage placed.now.code before) (slice_get placed.now.stages k) before }
    ensures long { length registers.new ≡ length registers.old }
{
    let _placed = placed.stages();
    let _valid = placed.code().ops();
    let stages = placed.stages_by_register();
    let tables = &stages[k];
    run_all_rows(placed, tables.as_slice(), registers, cells, sent);
}

/// The tables, one after another, each of which is its rows.
fn run_all_rows(
    placed: &Placed,
    tables: &[Items<Row>],
    registers: &mut [u64],
    cells: &mut Cells,
    sent: &mut Sent,
)
    requires long { length registers.old ≡ length (registers_of placed.now.code) }
    ensures machine { on_registers registers.new cells.new sent.new
        ≡ run_all_rows placed.now.code (on_registers registers.old cells.old sent.old) tables.now }
    ensures long { length registers.new ≡ length registers.old }
{
    for rows in tables {
        run_rows(placed, rows.as_slice(), registers, cells, sent);
    }
}

/// The first row that matches acts.
fn run_rows(
    placed: &Placed,
    rows: &[Row],
    registers: &mut [u64],
    cells: &mut Cells,
    sent: &mut Sent,
)
    requires long { length registers.old ≡ length (registers_of placed.now.code) }
    ensures machine { on_registers registers.new cells.new sent.new
        ≡ run_rows placed.now.code (on_registers registers.old cells.old sent.old) rows.now }
    ensures long { length registers.new ≡ length registers.old }
{
    for row in rows {
        if all_hold(registers, row.pattern.as_slice()) {
            run_ops(placed, row.ops.as_slice(), registers, cells, sent);
            return;
        }
    }
}

/// Returns whether all literals hold. Most patterns that fail do so at their first literal, which is asked without a loop.
#[inline(always)]
fn all_hold(registers: &[u64], pattern: &[Literal]) -> bool
    ensures { result ≡ all_hold registers.now pattern.now }
{
    match pattern {
        [] => true,
        [first, rest @ ..] => holds(registers, *first) && each_holds(registers, rest),
    }
}

fn each_holds(registers: &[u64], pattern: &[Literal]) -> bool
    ensures { result ≡ all_hold registers.now pattern.now }
{
    for literal in pattern {
        if !holds(registers, *literal) {
            return false;
        }
    }
    true
}

#[inline(always)]
fn holds(registers: &[u64], literal: Literal) -> bool
    ensures { result ≡ holds registers.now literal }
{
    (register(registers, literal.field) == literal.value) == literal.equal
}

/// The operations of these numbers, one after another.
fn run_ops(placed: &Placed, ops: &[u32], registers: &mut [u64], cells: &mut Cells, sent: &mut Sent)
    requires long { length registers.old ≡ length (registers_of placed.now.code) }
    ensures machine { on_registers registers.new cells.new sent.new
        ≡ fold (run_number placed.now.code) (on_registers registers.old cells.old sent.old) ops.now }
    ensures long { length registers.new ≡ length registers.old }
{
    for number in ops {
        run_op(placed, *number, registers, cells, sent);
    }
}

/// The operation of this number.
fn run_op(placed: &Placed, number: u32, registers: &mut [u64], cells: &mut Cells, sent: &mut Sent)
    requires long { length registers.old ≡ length (registers_of placed.now.code) }
    ensures machine { on_registers registers.new cells.new sent.new
        ≡ run_number placed.now.code (on_registers registers.old cells.old sent.old) number }
    ensures long { length registers.new ≡ length registers.old }
{
    let _valid = placed.code().ops();
    let acts = placed.acts_by_register();
    let at = number as usize;
    if at < acts.len() {
        let widths = placed.widths_by_register();
        act(widths, &acts[at], registers, cells, sent);
    }
}
