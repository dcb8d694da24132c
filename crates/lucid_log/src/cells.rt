// The cells that aren't 0.
ghost use Rattle.std.specs.Prelude.{◌≡◌, ◌≤◌, ◌^◌, ◌++◌, ℕ, List, length, OnOk, OnErr};
ghost use Rattle.lucid_base.specs.Cells.{cell_at};
ghost use Rattle.lucid_io.specs.Puts.{PutsAll, PutsPart, Leaves};
ghost use Rattle.lucid_log.specs.Cells.{shown_line, lines_from, cells_text};

use crate::cell::hold_line;
use lucid_base::ArrayDef;
use lucid_core::Cells;
use lucid_io::{ROOM, Room, Sink, WriteFault, release};

/// The values of cells, by the number of their array and their own, as a core's cells or a pipeline's registers have them.
pub trait ArrayCells {
    /// The cells of each array.
    ghost held: { Self → List (List ℕ) };

    /// Returns a cell of an array. Cell `i` is `i` modulo the size; an array that does not exist or has no cells holds 0.
    fn value(&self, array: u32, cell: u64) -> u64
        ensures { result ≡ cell_at (held self.now) array cell };
}

impl ArrayCells for Cells {
    ghost held = { λ cells. cells };

    fn value(&self, array: u32, cell: u64) -> u64 {
        self.get(array, cell)
    }
}

/// Writes a line for each cell of these arrays on a switch that isn't 0, by array and cell (`cells_text`): all of the lines, or a proper prefix of
/// them where the sink's count of faults rose in this call. Many lines are one write. Takes no memory.
pub fn put_cells<S: Sink, C: ArrayCells>(
    sink: &mut S,
    switch: u32,
    arrays: &[ArrayDef],
    cells: &C,
) -> Result<(), WriteFault>
    requires { length arrays.now ≤ 2 ^ 32 }
    ensures all { OnOk result (PutsAll S.written S.faults sink.old sink.new (cells_text switch arrays.now (C.held cells.now))) }
    ensures part { OnErr result (PutsPart S.written S.faults sink.old sink.new (cells_text switch arrays.now (C.held cells.now))) }
{
    let mut room = Room::<ROOM>::new();
    hold_cells(sink, &mut room, switch, arrays, cells)?;
    release(sink, &mut room)
}

fn hold_cells<S: Sink, C: ArrayCells, const N: usize>(
    sink: &mut S,
    room: &mut Room<N>,
    switch: u32,
    arrays: &[ArrayDef],
    cells: &C,
) -> Result<(), WriteFault>
    requires { length arrays.now ≤ 2 ^ 32 }
    ensures all { OnOk result (Leaves S.written S.faults sink.old sink.new (room.old ++ cells_text switch arrays.now (C.held cells.now)) room.new) }
    ensures part { OnErr result (PutsPart S.written S.faults sink.old sink.new (room.old ++ cells_text switch arrays.now (C.held cells.now))) }
{
    for (number, array) in arrays.iter().enumerate() {
        let name = array.name.bytes();
        hold_array(sink, room, switch, cells, number as u32, name, array.size)?;
    }
    Ok(())
}

// The cells of one array, of this name and size.
fn hold_array<S: Sink, C: ArrayCells, const N: usize>(
    sink: &mut S,
    room: &mut Room<N>,
    switch: u32,
    cells: &C,
    array: u32,
    name: &[u8],
    size: u32,
) -> Result<(), WriteFault>
    ensures all { OnOk result (Leaves S.written S.faults sink.old sink.new (room.old ++ lines_from switch (C.held cells.now) array name.now 0 size) room.new) }
    ensures part { OnErr result (PutsPart S.written S.faults sink.old sink.new (room.old ++ lines_from switch (C.held cells.now) array name.now 0 size)) }
{
    for cell in 0..size {
        let value = cells.value(array, cell as u64);
        hold_shown(sink, room, switch, name, cell as u64, value)?;
    }
    Ok(())
}

// The line of one cell, unless it holds 0.
fn hold_shown<S: Sink, const N: usize>(
    sink: &mut S,
    room: &mut Room<N>,
    switch: u32,
    name: &[u8],
    cell: u64,
    value: u64,
) -> Result<(), WriteFault>
    ensures all { OnOk result (Leaves S.written S.faults sink.old sink.new (room.old ++ shown_line switch name.now cell value) room.new) }
    ensures part { OnErr result (PutsPart S.written S.faults sink.old sink.new (room.old ++ shown_line switch name.now cell value)) }
{
    if value == 0 {
        return Ok(());
    }
    hold_line(sink, room, switch, name, cell, value)
}
