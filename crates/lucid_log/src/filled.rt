// The texts of prints, with numbers in place of `%d`.
ghost use Rattle.std.specs.Prelude.{◌≡◌, ◌+◌, ◌<◌, ◌≤◌, ◌++◌, length, take, drop, codes, OnOk, OnErr};
ghost use Rattle.lucid_core.specs.Texts.{holes_of};
ghost use Rattle.lucid_io.specs.Puts.{PutsPart, Leaves};
ghost use Rattle.lucid_log.specs.Filled.{filled};

use crate::pieces::{Piece, hold_pieces};
use lucid_io::{Room, Sink, WriteFault, hold};

// Lets the text wait in the room, with its `%d` replaced by the numbers, from the left.
pub(crate) fn hold_filled<S: Sink, const N: usize>(
    sink: &mut S,
    room: &mut Room<N>,
    text: &[u8],
    numbers: &[u64],
) -> Result<(), WriteFault>
    requires { holes_of text.now ≡ length numbers.now }
    ensures all { OnOk result (Leaves S.written S.faults sink.old sink.new (room.old ++ filled text.now numbers.now) room.new) }
    ensures part { OnErr result (PutsPart S.written S.faults sink.old sink.new (room.old ++ filled text.now numbers.now)) }
{
    let mut rest = text;
    for number in numbers {
        let (before, after) = split_at_hole(rest);
        hold_pieces(sink, room, &[Piece::Text(before), Piece::Number(*number)])?;
        rest = after;
    }
    hold(sink, room, rest)
}

// Splits a text at its first `%d`.
fn split_at_hole(text: &[u8]) -> (&[u8], &[u8])
    requires { 0 < holes_of text.now }
    ensures none_before { holes_of result.0.now ≡ 0 }
    ensures parts { text.now ≡ result.0.now ++ codes "%d" ++ result.1.now }
{
    let at = first_hole(text);
    (&text[..at], &text[at + 2..])
}

// Where the first `%d` begins.
fn first_hole(text: &[u8]) -> usize
    requires { 0 < holes_of text.now }
    ensures within { result + 2 ≤ length text.now }
    ensures none_before { holes_of (take result text.now) ≡ 0 }
    ensures found { text.now ≡ take result text.now ++ codes "%d" ++ drop (result + 2) text.now }
{
    let mut at = 0;
    'search: while text[at] != b'%' || text[at + 1] != b'd' {
        at += 1;
    }
    at
}
