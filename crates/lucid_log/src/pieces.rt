// Texts in pieces, and the numbers in them. Numbers are printed on the stack.
ghost use Rattle.std.specs.Prelude.{◌≡◌, ◌<◌, [], ◌++◌, codes, decimal, OnOk, OnErr};
ghost use Rattle.lucid_io.specs.Puts.{PutsAll, PutsPart, Leaves};
ghost use Rattle.lucid_log.specs.Pieces.{numbers_text, hex_digit as digit_of, hex_text, piece_text, text_of};

use itoa::Buffer;
use lucid_io::{ROOM, Room, Sink, WriteFault, hold, release};

// How many bytes a room has for a short text, as most blocks are.
pub(crate) const SHORT: usize = 512;

// How many bytes a room has for a line of few numbers. All of a room is zeroed, which takes longer than such a line.
const LINE: usize = 64;

/// A piece of a text.
#[derive(Clone, Copy, Debug)]
pub enum Piece<'a> {
    /// These bytes.
    Text(&'a [u8]),
    /// The decimal digits of a number.
    Number(u64),
    /// Numbers in decimal digits, with a comma between each two.
    Numbers(&'a [u64]),
    /// The 16 hexadecimal digits of a number, in lower case.
    Hex(u64),
}

/// Writes the pieces, one after another: all of their text (`text_of`), or a proper prefix of it if the sink's count of faults rose in this call.
pub fn put_pieces<S: Sink>(sink: &mut S, pieces: &[Piece]) -> Result<(), WriteFault>
    ensures all { OnOk result (PutsAll S.written S.faults sink.old sink.new (text_of pieces.now)) }
    ensures part { OnErr result (PutsPart S.written S.faults sink.old sink.new (text_of pieces.now)) }
{
    let most = most_of(pieces);
    if most <= LINE {
        put_line(sink, pieces)
    } else if most <= SHORT {
        put_short(sink, pieces)
    } else {
        put_long(sink, pieces)
    }
}

/// Writes a word, a number and a line feed: a short line, and most lines of a drive are such. It costs less than by pieces.
pub fn put_numbered<S: Sink>(sink: &mut S, word: &[u8], n: u64) -> Result<(), WriteFault>
    ensures all { OnOk result (PutsAll S.written S.faults sink.old sink.new (word.now ++ decimal n ++ codes "\n")) }
    ensures part { OnErr result (PutsPart S.written S.faults sink.old sink.new (word.now ++ decimal n ++ codes "\n")) }
{
    let mut room = Room::<LINE>::new();
    hold(sink, &mut room, word)?;
    hold_number(sink, &mut room, n)?;
    hold(sink, &mut room, b"\n")?;
    release(sink, &mut room)
}

fn put_line<S: Sink>(sink: &mut S, pieces: &[Piece]) -> Result<(), WriteFault>
    ensures all { OnOk result (PutsAll S.written S.faults sink.old sink.new (text_of pieces.now)) }
    ensures part { OnErr result (PutsPart S.written S.faults sink.old sink.new (text_of pieces.now)) }
{
    let mut room = Room::<LINE>::new();
    put_through(sink, &mut room, pieces)
}

fn put_short<S: Sink>(sink: &mut S, pieces: &[Piece]) -> Result<(), WriteFault>
    ensures all { OnOk result (PutsAll S.written S.faults sink.old sink.new (text_of pieces.now)) }
    ensures part { OnErr result (PutsPart S.written S.faults sink.old sink.new (text_of pieces.now)) }
{
    let mut room = Room::<SHORT>::new();
    put_through(sink, &mut room, pieces)
}

fn put_long<S: Sink>(sink: &mut S, pieces: &[Piece]) -> Result<(), WriteFault>
    ensures all { OnOk result (PutsAll S.written S.faults sink.old sink.new (text_of pieces.now)) }
    ensures part { OnErr result (PutsPart S.written S.faults sink.old sink.new (text_of pieces.now)) }
{
    let mut room = Room::<ROOM>::new();
    put_through(sink, &mut room, pieces)
}

// Writes the pieces through a room in which nothing waits.
fn put_through<S: Sink, const N: usize>(
    sink: &mut S,
    room: &mut Room<N>,
    pieces: &[Piece],
) -> Result<(), WriteFault>
    requires { room.old ≡ [] }
    ensures all { OnOk result (PutsAll S.written S.faults sink.old sink.new (text_of pieces.now)) }
    ensures part { OnErr result (PutsPart S.written S.faults sink.old sink.new (text_of pieces.now)) }
{
    hold_pieces(sink, room, pieces)?;
    release(sink, room)
}

// The most bytes of the text of the pieces. No clause needs it: it only decides which buffer size is worth its zeroing.
fn most_of(pieces: &[Piece]) -> usize {
    let mut most: usize = 0;
    for piece in pieces {
        most = most.saturating_add(most_of_piece(piece));
    }
    most
}

fn most_of_piece(piece: &Piece) -> usize {
    match *piece {
        Piece::Text(bytes) => bytes.len(),
        Piece::Number(_) => 20,
        Piece::Numbers(numbers) => numbers.len().saturating_mul(21),
        Piece::Hex(_) => 16,
    }
}

// Buffers the pieces, or writes them on the way. Of the buffered bytes and the new text all was written except the bytes still in the
// buffer.
pub(crate) fn hold_pieces<S: Sink, const N: usize>(
    sink: &mut S,
    room: &mut Room<N>,
    pieces: &[Piece],
) -> Result<(), WriteFault>
    ensures all { OnOk result (Leaves S.written S.faults sink.old sink.new (room.old ++ text_of pieces.now) room.new) }
    ensures part { OnErr result (PutsPart S.written S.faults sink.old sink.new (room.old ++ text_of pieces.now)) }
{
    for piece in pieces {
        hold_piece(sink, room, piece)?;
    }
    Ok(())
}

fn hold_piece<S: Sink, const N: usize>(
    sink: &mut S,
    room: &mut Room<N>,
    piece: &Piece,
) -> Result<(), WriteFault>
    ensures all { OnOk result (Leaves S.written S.faults sink.old sink.new (room.old ++ piece_text piece.now) room.new) }
    ensures part { OnErr result (PutsPart S.written S.faults sink.old sink.new (room.old ++ piece_text piece.now)) }
{
    match *piece {
        Piece::Text(bytes) => hold(sink, room, bytes),
        Piece::Number(n) => hold_number(sink, room, n),
        Piece::Numbers(numbers) => hold_numbers(sink, room, numbers),
        Piece::Hex(n) => hold(sink, room, &hex_digits(n)),
    }
}

pub(crate) fn hold_number<S: Sink, const N: usize>(
    sink: &mut S,
    room: &mut Room<N>,
    n: u64,
) -> Result<(), WriteFault>
    ensures all { OnOk result (Leaves S.written S.faults sink.old sink.new (room.old ++ decimal n) room.new) }
    ensures part { OnErr result (PutsPart S.written S.faults sink.old sink.new (room.old ++ decimal n)) }
{
    let mut digits = Buffer::new();
    hold(sink, room, digits.format(n).as_bytes())
}

pub(crate) fn hold_numbers<S: Sink, const N: usize>(
    sink: &mut S,
    room: &mut Room<N>,
    numbers: &[u64],
) -> Result<(), WriteFault>
    ensures all { OnOk result (Leaves S.written S.faults sink.old sink.new (room.old ++ numbers_text numbers.now) room.new) }
    ensures part { OnErr result (PutsPart S.written S.faults sink.old sink.new (room.old ++ numbers_text numbers.now)) }
{
    let [first, rest @ ..] = numbers else {
        return Ok(());
    };
    hold_number(sink, room, *first)?;
    for number in rest {
        hold(sink, room, b",")?;
        hold_number(sink, room, *number)?;
    }
    Ok(())
}

// The 16 hexadecimal digits.
fn hex_digits(n: u64) -> [u8; 16]
    ensures { result ≡ hex_text n }
{
    let mut digits = [0u8; 16];
    for i in 0..16 {
        digits[i] = hex_digit((n >> (60 - 4 * i)) % 16);
    }
    digits
}

fn hex_digit(digit: u64) -> u8
    requires { digit < 16 }
    ensures { result ≡ digit_of digit }
{
    if digit < 10 {
        b'0' + digit as u8
    } else {
        b'a' - 10 + digit as u8
    }
}
