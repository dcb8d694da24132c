// `audit P L Q`: the placement of a file, printed as a layout if it is accepted.
ghost use Rattle.std.specs.Prelude.{◌≡◌, ◌<◌, IfOk, length};
ghost use Rattle.lucid_top_fit.specs.Passes.{PassesRun, passes_view};
ghost use Rattle.lucid_top_words.specs.Files.{texts_in};
ghost use Rattle.lucid_top_words.specs.Outcome.{Prepares};
ghost use Rattle.lucid_top_words.specs.Words.{word_at};
ghost use Rattle.lucid_top_words.specs.Writing.{Performs, nowhere};
ghost use Rattle.lucid_top.specs.Held.{PipesKeep, pipes_view};
ghost use Rattle.lucid_top.specs.Pipes.{RunsCode};
ghost use Rattle.lucid_top.specs.Placed.{AuditAnswers, IsAudit};

use crate::commands::layout::{names, put_fit};
use crate::commands::setup::{Measured, Pipes};
use crate::commands::text_at;
use lucid_io::Sink;
use lucid_pass::Pass;
use lucid_top_words::Refusal;
use std::alloc::Global;

/// Writes the lines of the placement of the third text, for the program of the first under the limits of the second, after these passes.
pub fn audit<W: Sink>(
    alloc: Global,
    texts: &[Vec<u8>],
    out: &mut W,
    passes: &mut Vec<Box<dyn Pass>>,
) -> Result<(), Refusal>
    requires { length texts.now ≡ 3 }
    ensures performs { let text = word_at (texts_in texts.now) in
        let answers = AuditAnswers (text 0) (text 1) (text 2) (passes_view called gives count passes.old.items) in
        Performs nowhere answers W.written W.faults out.old out.new result }
    ensures ran { let text = word_at (texts_in texts.now) in let seen = passes_view called gives count in
        PassesRun (RunsCode (text 0) (text 1)) (seen passes.old.items) (seen passes.new.items) result }
{
    let names = names(alloc, passes)?;
    let pipes = prepare(alloc, texts, passes)?;
    let ended = put_fit(alloc, out, names.as_slice(), &pipes.fitted);
    drop(pipes);
    ended
}

// The pipeline with the places of the third text.
fn prepare(
    alloc: Global,
    texts: &[Vec<u8>],
    passes: &mut Vec<Box<dyn Pass>>,
) -> Result<Pipes, Refusal>
    requires { 2 < length texts.now }
    ensures pipes { let text = word_at (texts_in texts.now) in
        Prepares (IsAudit (text 0) (text 1) (text 2) (passes_view called gives count passes.old.items)) pipes_view result }
    ensures keeps { IfOk result PipesKeep }
    ensures ran { let text = word_at (texts_in texts.now) in let seen = passes_view called gives count in
        PassesRun (RunsCode (text 0) (text 1)) (seen passes.old.items) (seen passes.new.items) result }
{
    let measured = Measured::read(alloc, texts, passes)?;
    measured.place(alloc, text_at(texts, 2))
}
