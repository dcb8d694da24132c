// The commands, one file each, and the one match over them. A command prepares its output, or refuses, and then writes it.
ghost use Rattle.std.specs.Prelude.{◌≡◌, ◌<◌, length};
ghost use Rattle.lucid_top_fit.specs.Passes.{PassesRun, passes_view};
ghost use Rattle.lucid_top_words.specs.Command.{HasCount, files_of};
ghost use Rattle.lucid_top_words.specs.Files.{texts_in};
ghost use Rattle.lucid_top_words.specs.Words.{word_at};
ghost use Rattle.lucid_top_words.specs.Writing.{Performs};
ghost use Rattle.lucid_top.specs.Answer.{CommandAnswers, CommandRuns, CommandShows, MayStop};
ghost use Rattle.lucid_top.specs.Call.{given'};
ghost use Rattle.lucid_top_pipes.specs.Watching.{Shown};

mod audit;
mod check;
mod drive;
mod expand;
mod generated;
mod layout;
mod measured;
mod network;
mod once;
mod pipes;
mod run_pipe;
mod run_placed;
mod run_whole;
mod setup;
mod snap;
mod target;

use audit::audit;
use check::check;
use drive::drive;
use expand::expand;
use generated::{bench, generate};
use layout::layout;
use lucid_io::Sink;
use lucid_pass::Pass;
use lucid_pipe::Watch;
use lucid_top_words::{Command, Refusal};
use once::once;
use run_pipe::run_pipe;
use run_placed::run_placed;
use run_whole::run_whole;
use snap::snap;
use std::alloc::Global;

/// Performs a command of these words over the texts of its files, in word order. A command that makes no layout isn't handed the passes, and
/// one that shows nothing isn't handed the watch.
pub fn perform<W: Sink, V: Watch>(
    alloc: Global,
    command: Command,
    words: &[String],
    texts: &[Vec<u8>],
    out: &mut W,
    passes: &mut Vec<Box<dyn Pass>>,
    watch: &mut V,
) -> Result<(), Refusal>
    requires texts { length texts.now ≡ length (files_of command) }
    requires counted { HasCount command }
    ensures performs { let g = given' words.now texts.now (passes_view called gives count passes.old.items) in
        Performs (MayStop command g) (CommandAnswers command g) W.written W.faults out.old out.new result }
    ensures ran { let seen = passes_view called gives count in let g = given' words.now texts.now (seen passes.old.items) in
        PassesRun (CommandRuns command g) (seen passes.old.items) (seen passes.new.items) result }
    ensures shown { let g = given' words.now texts.now (passes_view called gives count passes.old.items) in
        Shown (CommandShows command g) (V.seen watch.old) (V.seen watch.new) result }
{
    match command {
        Command::Check => check(alloc, texts, out),
        Command::Once { arguments } => once(alloc, words, texts, arguments, out),
        Command::Expand => expand(alloc, texts, out),
        Command::Layout => layout(alloc, texts, out, passes),
        Command::RunWhole => run_whole(alloc, texts, out),
        Command::RunPipe => run_pipe(alloc, texts, out, passes, watch),
        Command::RunPlaced => run_placed(alloc, texts, out, passes, watch),
        Command::Drive => drive(alloc, texts, out, passes, watch),
        Command::Audit => audit(alloc, texts, out, passes),
        Command::Snap { after } => snap(alloc, texts, after, out, passes),
        Command::Gen { kind, seed, count } => generate(alloc, kind, seed, count, out),
        Command::Bench { seed, count } => bench(alloc, seed, count, out, passes, watch),
    }
}

// The text of this number, from 0.
fn text_at(texts: &[Vec<u8>], at: usize) -> &[u8]
    requires { at < length texts.now }
    ensures { result.now ≡ word_at (texts_in texts.now) at }
{
    texts[at].as_slice()
}
