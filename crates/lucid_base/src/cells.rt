// The cells of arrays.
ghost use Rattle.std.specs.Prelude.{◌≡◌, ◌<◌, [], IfOk, length, slice_index, slice_set};
ghost use Rattle.lucid_base.specs.Cells.{zero_cells, cell_at, with_cell, place_of};
ghost use Rattle.lucid_base.specs.Memop.{memop_of, memop_value};

use crate::{ArrayDef, Bits, Items, MemAlu, Memory};
use std::alloc::Global;
use std::marker::Model;

/// The cells of all arrays. Contracts see them as a list of lists.
#[derive(Drop)]
pub struct Cells {
    arrays: Vec<Items<u64>>,
}

/// The old value of a cell and the answer of the call.
#[derive(Clone, Copy)]
pub struct Touched {
    pub held: u64,
    pub answer: Bits,
}

impl Model for Cells {
    ghost use Rattle.std.specs.Prelude.{List, ℕ};

    ghost Value = { List (List ℕ) };

    ghost view = { λ c. c.arrays.items };
}

impl Cells {
    /// Returns the cells of these arrays, all 0.
    pub fn zeros(alloc: Global, arrays: &[ArrayDef]) -> Result<Cells, Memory>
        ensures { IfOk result (λ cells. cells ≡ zero_cells arrays.now) }
    {
        let mut rows = Vec::new(alloc);
        for array in arrays {
            let row = vec![in alloc; 0; array.size as usize]?;
            rows.push(Items::from_vec(row))?;
        }
        Ok(Cells { arrays: rows })
    }

    /// Returns the cells of no arrays.
    pub fn none(alloc: Global) -> Cells
        ensures { result ≡ [] }
    {
        Cells {
            arrays: Vec::new(alloc),
        }
    }

    /// The same cells by array, in memory of their own.
    pub fn rows(&self, alloc: Global) -> Result<Items<Items<u64>>, Memory>
        ensures { IfOk result (λ rows. rows ≡ self.now) }
    {
        copied(alloc, self.arrays.as_slice())
    }

    /// Returns a cell of an array. Cell `i` is `i` modulo the size; an array that does not exist or has no cells holds 0.
    pub fn get(&self, array: u32, cell: u64) -> u64
        ensures { result ≡ cell_at self.now array cell }
    {
        match self.arrays.get(array as usize) {
            None => 0,
            Some(row) => read(row.as_slice(), cell),
        }
    }

    /// Lets a cell of an array hold `value` if it exists. Cell `i` is `i` modulo the size.
    pub fn set(&mut self, array: u32, cell: u64, value: u64)
        ensures { self.new ≡ with_cell self.old array cell value }
    {
        if (array as usize) < self.arrays.len() {
            let row = &mut self.arrays[array as usize];
            write(row, cell, value);
        }
    }

    /// Writes the memop's result for the old value and an argument into a cell, if the cell exists, and returns the old value. Cell `i`
    /// is `i` modulo the size; an array that does not exist or has no cells held 0. Finds the cell once.
    pub fn set_by(&mut self, array: u32, cell: u64, set: &MemAlu, arg: u64) -> u64
        ensures held { result ≡ cell_at self.old array cell }
        ensures stored { self.new ≡ with_cell self.old array cell (memop_of set.now (cell_at self.old array cell) arg) }
    {
        if (array as usize) < self.arrays.len() {
            let row = &mut self.arrays[array as usize];
            write_by(row, cell, set, arg)
        } else {
            0
        }
    }

    /// Does a call of an array as the memory of a stage does it: the cell gets the result of `set` and the call returns the result of
    /// `get`, both applied to the old value.
    pub fn touch(
        &mut self,
        array: u32,
        cell: u64,
        get: &MemAlu,
        get_arg: u64,
        set: &MemAlu,
        set_arg: u64,
    ) -> Touched
        ensures held { result.held ≡ cell_at self.old array cell }
        ensures answer { result.answer ≡ memop_value get.now (cell_at self.old array cell) get_arg }
        ensures stored { self.new ≡ with_cell self.old array cell (memop_of set.now (cell_at self.old array cell) set_arg) }
    {
        let held = self.set_by(array, cell, set, set_arg);
        Touched {
            held,
            answer: get.apply_low(held, get_arg),
        }
    }
}

fn copied(alloc: Global, rows: &[Items<u64>]) -> Result<Items<Items<u64>>, Memory>
    ensures { IfOk result (λ copy. copy ≡ rows.now) }
{
    let mut copy = Items::new(alloc);
    for row in rows {
        copy.push(Items::from_slice(alloc, row.as_slice())?)?;
    }
    Ok(copy)
}

fn read(row: &[u64], cell: u64) -> u64
    ensures { result ≡ slice_index row.now (place_of row.now cell) }
{
    if row.is_empty() {
        0
    } else {
        row[within(row, cell)]
    }
}

fn write(row: &mut Items<u64>, cell: u64, value: u64)
    ensures { row.new ≡ slice_set row.old (place_of row.old cell) value }
{
    if !row.is_empty() {
        let at = within(row.as_slice(), cell);
        row.set(at, value);
    }
}

fn write_by(row: &mut Items<u64>, cell: u64, set: &MemAlu, arg: u64) -> u64
    ensures held { result ≡ slice_index row.old (place_of row.old cell) }
    ensures stored { row.new ≡ slice_set row.old (place_of row.old cell) (memop_of set.now (slice_index row.old (place_of row.old cell)) arg) }
{
    if row.is_empty() {
        0
    } else {
        let at = within(row.as_slice(), cell);
        let held = row.as_slice()[at];
        row.set(at, set.apply_low(held, arg).value);
        held
    }
}

/// Where a cell lies in a row: modulo the size, and without a division where it is below that.
#[tactic(auto, using(crate::proofs::CellPlaces::below_is_place))]
fn within(row: &[u64], cell: u64) -> usize
    requires { 0 < length row.now }
    ensures value { result ≡ place_of row.now cell }
    ensures there { result < length row.now }
{
    let size = row.len() as u64;
    let place = if cell < size { cell } else { cell % size };
    place as usize
}
