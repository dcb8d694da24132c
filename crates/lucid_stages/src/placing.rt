// Stages as they are placed.
ghost use Rattle.std.specs.Prelude.{◌≡◌, [], ◌∷◌, map, IfOk, OnOk, IsTrue};
ghost use Rattle.lucid_tables.specs.Numbers.{rises, with_numbers};
ghost use Rattle.lucid_tables.specs.Placed.{named_by};
ghost use Rattle.lucid_stages.specs.Placing.{arrays_at, arrays_in, stage_code};

use crate::stage::Stage;
use lucid_base::{Items, Memory};
use lucid_code::Op;
use lucid_tables::{StageCode, Table, put_number};
use std::alloc::Global;

/// The stages with the arrays of the operations that their tables name.
pub fn stage_codes(alloc: Global, ops: &[Op], stages: Vec<Stage>) -> Result<Vec<StageCode>, Memory>
    ensures { IfOk result (λ codes. codes.items ≡ map (stage_code ops.now) stages.items) }
{
    let mut codes = Vec::new(alloc);
    for stage in stages {
        codes.push(stage_code(alloc, ops, stage)?)?;
    }
    Ok(codes)
}

/// A stage with the arrays of the operations that its tables name.
fn stage_code(alloc: Global, ops: &[Op], stage: Stage) -> Result<StageCode, Memory>
    ensures { IfOk result (λ code. code ≡ stage_code ops.now stage) }
{
    let Stage { tables, .. } = stage;
    let arrays = arrays_in(alloc, ops, tables.as_slice())?;
    Ok(StageCode {
        tables,
        arrays: Items::from_vec(arrays),
    })
}

/// The arrays of the operations that these tables name, in rising order.
#[tactic(auto, using(crate::proofs::PlacingLemmas::more_arrays))]
pub fn arrays_in(alloc: Global, ops: &[Op], tables: &[Table]) -> Result<Vec<u32>, Memory>
    ensures { IfOk result (λ arrays. arrays.items ≡ arrays_in ops.now tables.now) }
{
    let mut arrays = Vec::new(alloc);
    for table in tables {
        put_named(ops, table, &mut arrays)?;
    }
    Ok(arrays)
}

/// Puts the arrays of the operations that a table names at their places.
#[tactic(auto, using(crate::proofs::PlacingLemmas::more_arrays))]
fn put_named(ops: &[Op], table: &Table, arrays: &mut Vec<u32>) -> Result<(), Memory>
    requires { IsTrue (rises arrays.old.items) }
    ensures value { OnOk result (arrays.new.items ≡ with_numbers arrays.old.items (arrays_at ops.now (named_by table.now))) }
    ensures rises { OnOk result (IsTrue (rises arrays.new.items)) }
{
    for row in table.rows.as_slice() {
        put_arrays(ops, row.ops.as_slice(), arrays)?;
    }
    Ok(())
}

/// Puts the arrays that the operations at these places call at their places.
fn put_arrays(ops: &[Op], places: &[u32], arrays: &mut Vec<u32>) -> Result<(), Memory>
    requires { IsTrue (rises arrays.old.items) }
    ensures value { OnOk result (arrays.new.items ≡ with_numbers arrays.old.items (arrays_at ops.now places.now)) }
    ensures rises { OnOk result (IsTrue (rises arrays.new.items)) }
{
    for place in places {
        put_array(ops, *place, arrays)?;
    }
    Ok(())
}

/// Puts the array that the operation at a place calls at its place.
fn put_array(ops: &[Op], place: u32, arrays: &mut Vec<u32>) -> Result<(), Memory>
    requires { IsTrue (rises arrays.old.items) }
    ensures value { OnOk result (arrays.new.items ≡ with_numbers arrays.old.items (arrays_at ops.now (place ∷ []))) }
    ensures rises { OnOk result (IsTrue (rises arrays.new.items)) }
{
    match ops.get(place as usize) {
        None => Ok(()),
        Some(op) => match op.act.called() {
            None => Ok(()),
            Some(array) => put_number(arrays, array),
        },
    }
}
