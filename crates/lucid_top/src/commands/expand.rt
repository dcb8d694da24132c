// `expand P`: the text of a program in which functions over a width are expanded.
ghost use Rattle.std.specs.Prelude.{◌≡◌, length};
ghost use Rattle.lucid_top_program.specs.Source.{text_of};
ghost use Rattle.lucid_top_words.specs.Files.{texts_in};
ghost use Rattle.lucid_top_words.specs.Outcome.{Prepares};
ghost use Rattle.lucid_top_words.specs.Words.{word_at};
ghost use Rattle.lucid_top_words.specs.Writing.{Performs, nowhere};
ghost use Rattle.lucid_top.specs.Expand.{ExpandAnswers};

use crate::commands::text_at;
use lucid_io::{Sink, put_all};
use lucid_top_program::Source;
use lucid_top_words::Refusal;
use std::alloc::Global;

/// Writes the expanded text of the program of this text.
pub fn expand<W: Sink>(alloc: Global, texts: &[Vec<u8>], out: &mut W) -> Result<(), Refusal>
    requires { length texts.now ≡ 1 }
    ensures { let answers = ExpandAnswers (word_at (texts_in texts.now) 0) in
        Performs nowhere answers W.written W.faults out.old out.new result }
{
    let text = text_at(texts, 0);
    let source = prepare(alloc, text)?;
    put_all(out, source.text(text))?;
    Ok(())
}

// The source of the text.
fn prepare(alloc: Global, text: &[u8]) -> Result<Source, Refusal>
    ensures { Prepares (ExpandAnswers text.now) (text_of text.now) result }
{
    let source = Source::read(alloc, text)?;
    Ok(source)
}
