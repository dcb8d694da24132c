// The line of a cell.
ghost use Rattle.std.specs.Prelude.{◌++◌, OnOk, OnErr};
ghost use Rattle.lucid_io.specs.Puts.{PutsPart, Leaves};
ghost use Rattle.lucid_log.specs.Cell.{line_of};

use crate::pieces::{Piece, hold_pieces};
use lucid_io::{Room, Sink, WriteFault};

// The line of a cell of the array of this name.
pub(crate) fn hold_line<'a, S: Sink, const N: usize>(
    sink: &mut S,
    room: &mut Room<N>,
    switch: u32,
    name: &'a [u8],
    cell: u64,
    value: u64,
) -> Result<(), WriteFault>
    ensures all { OnOk result (Leaves S.written S.faults sink.old sink.new (room.old ++ line_of switch name.now cell value) room.new) }
    ensures part { OnErr result (PutsPart S.written S.faults sink.old sink.new (room.old ++ line_of switch name.now cell value)) }
{
    hold_pieces(
        sink,
        room,
        &[
            Piece::Text(b"s"),
            Piece::Number(switch as u64),
            Piece::Text(b" "),
            Piece::Text(name),
            Piece::Text(b"["),
            Piece::Number(cell),
            Piece::Text(b"] = "),
            Piece::Number(value),
            Piece::Text(b"\n"),
        ],
    )
}
