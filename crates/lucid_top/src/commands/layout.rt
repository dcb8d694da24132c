// `layout P L`: first fit in the stages of a target, and the number of operations that each pass removed before.
ghost use Rattle.std.specs.Prelude.{◌≡◌, ◌++◌, IfOk, Ok, OnOk, OnErr, length, map};
ghost use Rattle.lucid_io.specs.Puts.{PutsAll, PutsPart};
ghost use Rattle.lucid_top_fit.specs.Fit.{fit_view};
ghost use Rattle.lucid_top_fit.specs.Passes.{PassesRun, passes_view};
ghost use Rattle.lucid_top_words.specs.Files.{texts_in};
ghost use Rattle.lucid_top_words.specs.Words.{word_at};
ghost use Rattle.lucid_top_words.specs.Writing.{Performs, nowhere};
ghost use Rattle.lucid_top.specs.Layout.{LayoutAnswers, fit_text, pass_line, passes_text};
ghost use Rattle.lucid_top.specs.Pipes.{RunsCode};

use crate::commands::setup::Pipes;
use lucid_base::Memory;
use lucid_io::{Sink, WriteFault};
use lucid_layout_text::LayoutText;
use lucid_log::{Piece, put_pieces};
use lucid_pass::{Name, Pass};
use lucid_top_fit::Fitting;
use lucid_top_words::Refusal;
use std::alloc::Global;

/// Writes the layout of the program of the first text under the limits of the second, after these passes.
pub fn layout<W: Sink>(
    alloc: Global,
    texts: &[Vec<u8>],
    out: &mut W,
    passes: &mut Vec<Box<dyn Pass>>,
) -> Result<(), Refusal>
    requires { length texts.now ≡ 2 }
    ensures performs { let text = word_at (texts_in texts.now) in
        let answers = LayoutAnswers (text 0) (text 1) (passes_view called gives count passes.old.items) in
        Performs nowhere answers W.written W.faults out.old out.new result }
    ensures ran { let text = word_at (texts_in texts.now) in let seen = passes_view called gives count in
        PassesRun (RunsCode (text 0) (text 1)) (seen passes.old.items) (seen passes.new.items) result }
{
    let names = names(alloc, passes)?;
    let pipes = Pipes::read(alloc, texts, passes)?;
    let ended = put_fit(alloc, out, names.as_slice(), &pipes.fitted);
    drop(pipes);
    ended
}

/// Writes the lines of the passes of these names, and those of the layout.
pub fn put_fit<W: Sink>(
    alloc: Global,
    out: &mut W,
    names: &[Name],
    fitted: &Fitting,
) -> Result<(), Refusal>
    ensures { let text = fit_text names.now (fit_view fitted.now) in
        Performs nowhere (λ o. o ≡ Ok text) W.written W.faults out.old out.new result }
{
    let text = LayoutText::new(alloc, &fitted.placed)?;
    put(out, names, fitted.gone.as_slice(), &text)?;
    Ok(())
}

/// Returns the names of the passes.
pub fn names(alloc: Global, passes: &Vec<Box<dyn Pass>>) -> Result<Vec<Name>, Memory>
    ensures { IfOk result (λ names. names.items ≡ map called passes.now.items) }
{
    let mut names = Vec::new(alloc);
    for i in 0..passes.len() {
        names.push(name_of(&passes[i]))?;
    }
    Ok(names)
}

fn name_of(pass: &Box<dyn Pass>) -> Name
    ensures { result ≡ called pass.now }
{
    pass.name()
}

// Writes the lines of the passes, and then those of the layout. Takes no memory.
fn put<W: Sink>(
    out: &mut W,
    names: &[Name],
    gone: &[u64],
    text: &LayoutText<'_>,
) -> Result<(), WriteFault>
    ensures all { OnOk result (PutsAll W.written W.faults out.old out.new (passes_text names.now gone.now ++ text.now)) }
    ensures part { OnErr result (PutsPart W.written W.faults out.old out.new (passes_text names.now gone.now ++ text.now)) }
{
    put_passes(out, names, gone)?;
    text.put(out)
}

// A line for each pass.
fn put_passes<W: Sink>(out: &mut W, names: &[Name], gone: &[u64]) -> Result<(), WriteFault>
    ensures all { OnOk result (PutsAll W.written W.faults out.old out.new (passes_text names.now gone.now)) }
    ensures part { OnErr result (PutsPart W.written W.faults out.old out.new (passes_text names.now gone.now)) }
{
    for i in 0..names.len().min(gone.len()) {
        put_pass(out, &names[i], gone[i])?;
    }
    Ok(())
}

fn put_pass<W: Sink>(out: &mut W, name: &Name, gone: u64) -> Result<(), WriteFault>
    ensures all { OnOk result (PutsAll W.written W.faults out.old out.new (pass_line name.now gone)) }
    ensures part { OnErr result (PutsPart W.written W.faults out.old out.new (pass_line name.now gone)) }
{
    put_pieces(
        out,
        &[
            Piece::Text(b"pass "),
            Piece::Text(name.bytes()),
            Piece::Text(b" removed "),
            Piece::Number(gone),
            Piece::Text(b"\n"),
        ],
    )
}
