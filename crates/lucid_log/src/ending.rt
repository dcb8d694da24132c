// The last line of a network's run.
ghost use Rattle.std.specs.Prelude.{OnOk, OnErr};
ghost use Rattle.lucid_io.specs.Puts.{PutsAll, PutsPart};
ghost use Rattle.lucid_log.specs.Ending.{ending_text};

use crate::pieces::{Piece, put_pieces};
use lucid_io::{Sink, WriteFault};

/// Writes how many events entered, were lost, and never entered (`ending_text`): all of the line, or a proper prefix of it
/// if the sink's count of faults rose in this call.
pub fn put_ending<S: Sink>(
    sink: &mut S,
    entered: u64,
    lost: u64,
    pending: u64,
) -> Result<(), WriteFault>
    ensures all { OnOk result (PutsAll S.written S.faults sink.old sink.new (ending_text entered lost pending)) }
    ensures part { OnErr result (PutsPart S.written S.faults sink.old sink.new (ending_text entered lost pending)) }
{
    put_pieces(
        sink,
        &[
            Piece::Text(b"entered "),
            Piece::Number(entered),
            Piece::Text(b" lost "),
            Piece::Number(lost),
            Piece::Text(b" pending "),
            Piece::Number(pending),
            Piece::Text(b"\n"),
        ],
    )
}
