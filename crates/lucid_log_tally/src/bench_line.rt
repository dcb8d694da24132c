// The line that summarizes a network's log.
ghost use Rattle.std.specs.Prelude.{OnOk, OnErr};
ghost use Rattle.lucid_io.specs.Puts.{PutsAll, PutsPart};
ghost use Rattle.lucid_log_tally.specs.Bench.{bench_line};

use crate::tally::Tally;
use lucid_io::{Sink, WriteFault};
use lucid_log::{Piece, put_pieces};

/// Writes the line of a run of `n` events of this seed whose log the tally was written (`bench_line`): all of it, or a proper prefix of it
/// if the sink's count of faults rose in this call.
pub fn put_bench<S: Sink>(sink: &mut S, seed: u64, n: u64, tally: &Tally) -> Result<(), WriteFault>
    ensures all { OnOk result (PutsAll S.written S.faults sink.old sink.new (bench_line seed n tally.now.bytes)) }
    ensures part { OnErr result (PutsPart S.written S.faults sink.old sink.new (bench_line seed n tally.now.bytes)) }
{
    put_pieces(
        sink,
        &[
            Piece::Text(b"bench seed "),
            Piece::Number(seed),
            Piece::Text(b" n "),
            Piece::Number(n),
            Piece::Text(b" "),
            Piece::Text(tally.line()),
            Piece::Text(b" bytes "),
            Piece::Number(tally.count()),
            Piece::Text(b" fnv "),
            Piece::Hex(tally.hash()),
            Piece::Text(b"\n"),
        ],
    )
}
