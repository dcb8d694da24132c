// `check P`: the declarations of the program, if it is accepted.
ghost use Rattle.std.specs.Prelude.{◌≡◌, OnOk, OnErr, Ok, length};
ghost use Rattle.lucid_io.specs.Puts.{PutsAll, PutsPart};
ghost use Rattle.lucid_top.specs.Check.{CheckAnswers, counts_line};
ghost use Rattle.lucid_top_words.specs.Files.{texts_in};
ghost use Rattle.lucid_top_words.specs.Outcome.{Prepares};
ghost use Rattle.lucid_top_words.specs.Words.{word_at};
ghost use Rattle.lucid_top_words.specs.Writing.{Performs, nowhere};

use crate::commands::text_at;
use lucid_core::Core;
use lucid_io::{Sink, WriteFault};
use lucid_log::{Piece, put_pieces};
use lucid_top_program::accepted;
use lucid_top_words::Refusal;
use std::alloc::Global;

/// Writes how many declarations of each kind the program of this text has.
pub fn check<W: Sink>(alloc: Global, texts: &[Vec<u8>], out: &mut W) -> Result<(), Refusal>
    requires { length texts.now ≡ 1 }
    ensures { let answers = CheckAnswers (word_at (texts_in texts.now) 0) in
        Performs nowhere answers W.written W.faults out.old out.new result }
{
    let core = prepare(alloc, text_at(texts, 0))?;
    let ended = put(out, &core);
    drop(core);
    ended?;
    Ok(())
}

// The program whose declarations are counted.
fn prepare(alloc: Global, text: &[u8]) -> Result<Core, Refusal>
    ensures { Prepares (CheckAnswers text.now) counts_line result }
{
    let core = accepted(alloc, text)?;
    Ok(core)
}

// Writes the line. Takes no memory.
fn put<W: Sink>(out: &mut W, core: &Core) -> Result<(), WriteFault>
    ensures all { OnOk result (PutsAll W.written W.faults out.old out.new (counts_line core.now)) }
    ensures part { OnErr result (PutsPart W.written W.faults out.old out.new (counts_line core.now)) }
{
    put_pieces(
        out,
        &[
            Piece::Text(b"ok arrays "),
            Piece::Number(core.arrays().len() as u64),
            Piece::Text(b" memops "),
            Piece::Number(core.memops().len() as u64),
            Piece::Text(b" events "),
            Piece::Number(core.events().len() as u64),
            Piece::Text(b" handlers "),
            Piece::Number(core.handlers().len() as u64),
            Piece::Text(b" functions "),
            Piece::Number(core.funs().len() as u64),
            Piece::Text(b"\n"),
        ],
    )
}
