// Why the width instances of a program can't be expanded, and the line that says so.
ghost use Rattle.std.specs.Prelude.{OnOk, OnErr};
ghost use Rattle.lucid_io.specs.Puts.{PutsAll, PutsPart};
ghost use Rattle.lucid_top_words.specs.Sizes.{sizes_line};

use crate::line::put_count;
use lucid_base::Id;
use lucid_io::{Sink, WriteFault, put_all};
use lucid_log::{Piece, put_pieces};

/// Why a program with functions over a width has no expansion.
#[derive(Drop)]
pub enum BadSizes {
    /// The function over a width whose `fun` is this token, from 1, is the first that has no name or no body.
    Broken(usize),
    /// The first name that two functions over a width have.
    Twice(Id),
    /// The expanded text has more than 8,388,608 bytes.
    TooLong,
}

impl BadSizes {
    /// Writes the line (`sizes_line`). Takes no memory.
    pub(crate) fn put<E: Sink>(&self, err: &mut E) -> Result<(), WriteFault>
        ensures all { OnOk result (PutsAll E.written E.faults err.old err.new (sizes_line self.now)) }
        ensures part { OnErr result (PutsPart E.written E.faults err.old err.new (sizes_line self.now)) }
    {
        match self {
            BadSizes::Broken(token) => put_count(err, b"sizes: broken at token ", *token as u64),
            BadSizes::Twice(name) => put_pieces(
                err,
                &[
                    Piece::Text(b"sizes: "),
                    Piece::Text(name.bytes()),
                    Piece::Text(b" twice\n"),
                ],
            ),
            BadSizes::TooLong => put_all(err, b"sizes: too long\n"),
        }
    }
}
