// Stages and acts by register, made once for all pipes of a code, so that no pipe looks up the register of a field as it runs.
ghost use Rattle.std.specs.Prelude.{◌≡◌, length, IfOk};
ghost use Rattle.lucid_tables.specs.Registers.{registers_of, places_of};
ghost use Rattle.lucid_tables.specs.ByRegister.{place_of, pattern_by_register, rows_by_register, tables_by_register, stages_by_register, operand_by_register, act_by_register, acts_by_register};

use crate::registers::register_at;
use crate::{Row, StageCode, Table};
use lucid_base::{Items, Memory};
use lucid_code::{Act, Code, Literal, Op, Operand, Rename};
use std::alloc::Global;

/// Which registers the fields of a code have: for each field its register, if it has one, and how many registers there are.
#[derive(Clone, Copy)]
pub(crate) struct Numbering<'a> {
    pub(crate) code: &'a Code,
    pub(crate) registers: &'a [Option<u32>],
    pub(crate) count: u32,
    pub(crate) ghost registers_are: { registers.now ≡ places_of (registers_of code.now) (length code.now.fields) },
    pub(crate) ghost count_is: { count ≡ length (registers_of code.now) },
}

/// Returns the register of a field, or how many there are if it has none.
#[tactic(auto, using(crate::proofs::Places::register_is))]
fn place(numbering: Numbering, field: u32) -> u32
    ensures { result ≡ place_of numbering.entry.code.now field }
{
    let _valid = numbering.code.fields();
    match register_at(numbering.registers, field as usize) {
        Some(at) => at,
        None => numbering.count,
    }
}

// ---- rows

pub(crate) fn stages_by_register(
    alloc: Global,
    numbering: Numbering,
    stages: &[StageCode],
) -> Result<Vec<Items<Items<Row>>>, Memory>
    ensures { IfOk result (λ it. it.items ≡ stages_by_register numbering.entry.code.now stages.now) }
{
    let mut made = Vec::new(alloc);
    for stage in stages {
        made.push(tables_by_register(alloc, numbering, stage.tables.as_slice())?)?;
    }
    Ok(made)
}

fn tables_by_register(
    alloc: Global,
    numbering: Numbering,
    tables: &[Table],
) -> Result<Items<Items<Row>>, Memory>
    ensures { IfOk result (λ it. it ≡ tables_by_register numbering.entry.code.now tables.now) }
{
    let mut made = Items::new(alloc);
    for table in tables {
        made.push(rows_by_register(alloc, numbering, table.rows.as_slice())?)?;
    }
    Ok(made)
}

fn rows_by_register(alloc: Global, numbering: Numbering, rows: &[Row]) -> Result<Items<Row>, Memory>
    ensures { IfOk result (λ it. it ≡ rows_by_register numbering.entry.code.now rows.now) }
{
    let mut made = Items::new(alloc);
    for row in rows {
        let pattern = pattern_by_register(alloc, numbering, row.pattern.as_slice())?;
        let ops = Items::from_slice(alloc, row.ops.as_slice())?;
        made.push(Row { pattern, ops })?;
    }
    Ok(made)
}

fn pattern_by_register(
    alloc: Global,
    numbering: Numbering,
    pattern: &[Literal],
) -> Result<Items<Literal>, Memory>
    ensures { IfOk result (λ it. it ≡ pattern_by_register numbering.entry.code.now pattern.now) }
{
    let mut made = Items::new(alloc);
    for literal in pattern {
        made.push(Literal {
            field: place(numbering, literal.field),
            ..*literal
        })?;
    }
    Ok(made)
}

// ---- acts

pub(crate) fn acts_by_register(
    alloc: Global,
    numbering: Numbering,
    ops: &[Op],
) -> Result<Vec<Act>, Memory>
    ensures { IfOk result (λ it. it.items ≡ acts_by_register numbering.entry.code.now ops.now) }
{
    let mut made = Vec::new(alloc);
    for op in ops {
        made.push(act_by_register(alloc, numbering, &op.act)?)?;
    }
    Ok(made)
}

#[tactic(auto, using(crate::proofs::ByRegister::renamed_by_register))]
fn act_by_register(alloc: Global, numbering: Numbering, act: &Act) -> Result<Act, Memory>
    ensures { IfOk result (λ it. it ≡ act_by_register numbering.entry.code.now act.now) }
{
    act.map(alloc, &numbering)
}

impl Rename for Numbering<'_> {
    ghost use Rattle.lucid_tables.specs.ByRegister.{place_of, operand_by_register};

    ghost operand_of = { λ n. operand_by_register n.code.now };

    ghost field_of = { λ n. place_of n.code.now };

    fn rename(&self, operand: Operand) -> Operand {
        operand_by_register(*self, operand)
    }

    fn rename_field(&self, field: u32) -> u32 {
        place(*self, field)
    }
}

fn operand_by_register(numbering: Numbering, operand: Operand) -> Operand
    ensures { result ≡ operand_by_register numbering.entry.code.now operand }
{
    match operand {
        Operand::Fixed(v) => Operand::Fixed(v),
        Operand::Field(k) => Operand::Field(place(numbering, k)),
    }
}
