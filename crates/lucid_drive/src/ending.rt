// The text at the end of a drive: the cells that aren't 0, and the ending.
ghost use Rattle.std.specs.Prelude.{◌++◌, OnOk, OnErr};
ghost use Rattle.lucid_io.specs.Puts.{PutsAll, PutsPart};
ghost use Rattle.lucid_log.specs.Cells.{cells_text};
ghost use Rattle.lucid_drive.specs.Drive.{ending_text};

use lucid_core::Core;
use lucid_io::{Sink, WriteFault};
use lucid_log::{ArrayCells, Piece, put_cells, put_pieces};
use lucid_pipe::Pipe;

/// The cells of a pipe.
#[derive(Clone, Copy)]
struct PipeCells<'a, 'p> {
    pipe: &'p Pipe<'a>,
}

impl<'a, 'p> ArrayCells for PipeCells<'a, 'p> {
    ghost held = { λ c. c.pipe.now.cells };

    fn value(&self, array: u32, cell: u64) -> u64 {
        self.pipe.look(array, cell)
    }
}

/// Writes the cells of the pipe that aren't 0, and how many events entered and how many are left.
pub(crate) fn put_end<S: Sink>(
    sink: &mut S,
    core: &Core,
    pipe: &Pipe,
    entered: u64,
    left: u64,
) -> Result<(), WriteFault>
    ensures all { OnOk result (PutsAll S.written S.faults sink.old sink.new (cells_text 0 core.now.arrays pipe.now.cells ++ ending_text entered left)) }
    ensures part { OnErr result (PutsPart S.written S.faults sink.old sink.new (cells_text 0 core.now.arrays pipe.now.cells ++ ending_text entered left)) }
{
    put_cells(sink, 0, core.arrays(), &PipeCells { pipe })?;
    put_pieces(
        sink,
        &[
            Piece::Text(b"entered "),
            Piece::Number(entered),
            Piece::Text(b" left "),
            Piece::Number(left),
            Piece::Text(b"\n"),
        ],
    )
}
