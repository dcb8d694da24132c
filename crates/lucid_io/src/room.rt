// A room in which bytes wait to be written, so that many short pieces become one write.
ghost use Rattle.std.specs.Prelude.{◌≡◌, ◌+◌, ◌≤◌, [], ◌++◌, length, nat_le, if◌then◌else◌, IsOk, OnOk, OnErr};
ghost use Rattle.lucid_io.specs.Puts.{PutsAll, PutsPart, Leaves};

use crate::sink::Sink;
use crate::writing::{WriteFault, put_all};
use std::marker::Model;

/// How many bytes a room has for a text of any length.
pub const ROOM: usize = 4096;

/// A room for bytes that wait to be written, on the stack. It takes no memory. Contracts see the bytes that wait in it.
///
/// All of its bytes are zeroed where it is made, so a short text is put sooner through a room of few.
#[derive(Drop)]
pub struct Room<const N: usize> {
    bytes: [u8; N],
    len: usize,
}

impl<const N: usize> Model for Room<N> {
    ghost use Rattle.std.specs.Prelude.{List, ℕ, ◌≤◌, take};

    ghost Value = { List ℕ };

    ghost view = { λ room. take room.len room.bytes };

    ghost invariant = { λ room. room.len ≤ N };
}

impl<const N: usize> Room<N> {
    /// Returns an empty room.
    pub fn new() -> Room<N>
        ensures { result ≡ [] }
    {
        Room {
            bytes: [0; N],
            len: 0,
        }
    }

    // Appends the piece to the buffer and returns true, if it fits.
    #[inline(always)]
    fn admit(&mut self, piece: &[u8]) -> bool
        ensures fits { result ≡ nat_le (length self.old + length piece.now) N }
        ensures after { self.new ≡ (if result then self.old ++ piece.now else self.old) }
    {
        if piece.len() > N - self.len {
            return false;
        }
        let end = self.len + piece.len();
        let bytes = &mut self.bytes[..];
        bytes[self.len..end].copy_from_slice(piece);
        self.len = end;
        true
    }
}

/// Appends the piece to the buffer. If it doesn't fit, the buffer is flushed first, and a piece that is longer than the buffer is written
/// too.
///
/// Of both together all was written except the bytes still in the buffer; or, if the sink's count of faults rose in this call, a proper
/// prefix was written, and the buffer is empty. Nothing is written if both fit, as nearly all pieces do, so that case is inlined.
#[inline(always)]
pub fn hold<S: Sink, const N: usize>(
    sink: &mut S,
    room: &mut Room<N>,
    piece: &[u8],
) -> Result<(), WriteFault>
    ensures all { OnOk result (Leaves S.written S.faults sink.old sink.new (room.old ++ piece.now) room.new) }
    ensures part { OnErr result (PutsPart S.written S.faults sink.old sink.new (room.old ++ piece.now)) }
    ensures fits { length room.old + length piece.now ≤ N → IsOk result × (room.new ≡ room.old ++ piece.now) × (sink.new ≡ sink.old) }
    ensures lost { OnErr result (room.new ≡ []) }
{
    if room.admit(piece) {
        return Ok(());
    }
    hold_behind(sink, room, piece)
}

// Flushes the buffer, then appends the piece, or writes it too if it is longer than the buffer.
#[inline(never)]
fn hold_behind<S: Sink, const N: usize>(
    sink: &mut S,
    room: &mut Room<N>,
    piece: &[u8],
) -> Result<(), WriteFault>
    ensures all { OnOk result (Leaves S.written S.faults sink.old sink.new (room.old ++ piece.now) room.new) }
    ensures part { OnErr result (PutsPart S.written S.faults sink.old sink.new (room.old ++ piece.now)) }
    ensures lost { OnErr result (room.new ≡ []) }
{
    release(sink, room)?;
    if room.admit(piece) {
        return Ok(());
    }
    put_all(sink, piece)
}

/// Writes all that waits in the room, or, if the sink's count of faults rose in this call, a proper prefix of it. Then nothing waits.
pub fn release<S: Sink, const N: usize>(sink: &mut S, room: &mut Room<N>) -> Result<(), WriteFault>
    ensures all { OnOk result (PutsAll S.written S.faults sink.old sink.new room.old) }
    ensures part { OnErr result (PutsPart S.written S.faults sink.old sink.new room.old) }
    ensures emptied { room.new ≡ [] }
{
    let bytes = &room.bytes[..];
    let put = put_all(sink, &bytes[..room.len]);
    room.len = 0;
    put
}
