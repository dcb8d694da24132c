// Rows of cells, copied in place.
ghost use Rattle.std.specs.Prelude.{◌≡◌, ℕ, ◌≤◌, length, slice_index, slice_set, if◌then◌else◌, IfOk};
ghost use Rattle.lucid_base.specs.Cells.{cell_at, place_of, row_of};
ghost use Rattle.lucid_pipe.specs.Pipe.{sizes};
ghost use Rattle.lucid_tables.specs.Numbers.{is_in};
ghost use Rattle.lucid_snap.specs.Snap.{arrays_of, free_first};

use lucid_base::{Items, Memory};
use lucid_pipe::Pipe;
use lucid_tables::StageCode;
use std::alloc::Global;

/// Returns the arrays of each stage.
#[tactic(auto, using(crate::proofs::Copying::arrays_next))]
pub(crate) fn arrays_of(alloc: Global, stages: &[StageCode]) -> Result<Vec<Items<u32>>, Memory>
    ensures { IfOk result (λ arrays. arrays.items ≡ arrays_of stages.now) }
{
    let mut arrays = Vec::new(alloc);
    for k in 0..stages.len() {
        arrays.push(Items::from_slice(alloc, stages[k].arrays.as_slice())?)?;
    }
    Ok(arrays)
}

/// The same rows, in memory of their own.
pub(crate) fn copied(alloc: Global, rows: &[Items<u64>]) -> Result<Vec<Items<u64>>, Memory>
    ensures { IfOk result (λ copy. copy.items ≡ rows.now) }
{
    let mut copy = Vec::new(alloc);
    for row in rows {
        copy.push(Items::from_slice(alloc, row.as_slice())?)?;
    }
    Ok(copy)
}

/// Returns how many slots are free before the first packet.
#[tactic(auto, using(crate::proofs::Copying::free_start, crate::proofs::Copying::free_next, crate::proofs::Copying::free_found, crate::proofs::Copying::free_end))]
pub(crate) fn free_first(pipe: &Pipe) -> usize
    ensures { result ≡ free_first pipe.now.slots }
{
    let count = pipe.stages();
    for k in 0..count {
        if pipe.slot(k) {
            return k;
        }
    }
    count
}

/// Copies the cells of these arrays.
#[tactic(auto, using(crate::proofs::Copying::row_sized))]
pub(crate) fn copy_arrays(pipe: &Pipe, arrays: &[u32], copies: &mut Vec<Items<u64>>)
    requires sized { sizes copies.old.items ≡ sizes pipe.now.cells }
    ensures sized { sizes copies.new.items ≡ sizes copies.old.items }
    ensures rows { (g : ℕ) → row_of copies.new.items g ≡ (if is_in g arrays.now then row_of pipe.now.cells g else row_of copies.old.items g) }
{
    for array in arrays {
        copy_array(pipe, *array, copies);
    }
}

/// Copies the cells of an array.
#[tactic(auto, using(crate::proofs::Copying::set_none))]
fn copy_array(pipe: &Pipe, array: u32, copies: &mut Vec<Items<u64>>)
    requires sized { length (row_of copies.old.items array) ≡ length (row_of pipe.now.cells array) }
    ensures { copies.new.items ≡ slice_set copies.old.items array (row_of pipe.now.cells array) }
{
    if (array as usize) < copies.len() {
        fill(pipe, array, &mut copies[array as usize]);
    }
}

/// Fills a row of as many cells with those of an array.
#[tactic(auto, using(crate::proofs::Copying::fill_next, crate::proofs::Copying::fill_all))]
fn fill(pipe: &Pipe, array: u32, row: &mut Items<u64>)
    requires { length row.old ≡ length (row_of pipe.now.cells array) }
    ensures { row.new ≡ row_of pipe.now.cells array }
{
    for at in 0..row.len() {
        row.set(at, pipe.look(array, at as u64));
    }
}

/// Returns a cell of an array. Cell `i` is `i` modulo the size; an array that does not exist holds 0.
pub(crate) fn read(copies: &[Items<u64>], array: u32, cell: u64) -> u64
    ensures { result ≡ cell_at copies.now array cell }
{
    match copies.get(array as usize) {
        None => 0,
        Some(row) => read_row(row.as_slice(), cell),
    }
}

fn read_row(row: &[u64], cell: u64) -> u64
    ensures { result ≡ slice_index row.now (place_of row.now cell) }
{
    if row.is_empty() {
        0
    } else {
        row[(cell % row.len() as u64) as usize]
    }
}
