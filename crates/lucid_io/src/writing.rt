// A whole piece, written.
ghost use Rattle.std.specs.Prelude.{OnOk, OnErr};
ghost use Rattle.lucid_io.specs.Puts.{PutsAll, PutsPart};

use crate::sink::Sink;

/// A piece was cut, since a write of the sink failed.
#[derive(Clone, Copy, Debug, PartialEq, Eq)]
pub struct WriteFault;

/// Writes the whole piece, or, if the sink's count of faults rose in this call, a proper prefix of it. Takes no memory.
pub fn put_all<S: Sink>(sink: &mut S, piece: &[u8]) -> Result<(), WriteFault>
    ensures all { OnOk result (PutsAll S.written S.faults sink.old sink.new piece.now) }
    ensures part { OnErr result (PutsPart S.written S.faults sink.old sink.new piece.now) }
{
    let mut at = 0;
    'put: while at < piece.len() {
        match sink.write(&piece[at..]) {
            Ok(count) => at += count,
            Err(_) => return Err(WriteFault),
        }
    }
    Ok(())
}
