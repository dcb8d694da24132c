// `run pipe P L T`: the network of a scenario on pipelines.
ghost use Rattle.std.specs.Prelude.{◌≡◌, length};
ghost use Rattle.lucid_top_fit.specs.Passes.{PassesRun, passes_view};
ghost use Rattle.lucid_top_words.specs.Files.{texts_in};
ghost use Rattle.lucid_top_words.specs.Words.{word_at};
ghost use Rattle.lucid_top_words.specs.Writing.{Performs};
ghost use Rattle.lucid_top.specs.Pipes.{RunsCode};
ghost use Rattle.lucid_top.specs.RunPipe.{RunPipeAnswers, RunPipeShows, StopsPiped};
ghost use Rattle.lucid_top_pipes.specs.Watching.{Shown};

use crate::commands::network::run_network;
use crate::commands::setup::Ready;
use lucid_io::Sink;
use lucid_pass::Pass;
use lucid_pipe::Watch;
use lucid_top_words::Refusal;
use std::alloc::Global;

/// Writes the log of the network that the third text sets up for the program of the first, placed under the limits of the second after
/// these passes, and shows the watch its pipes.
pub fn run_pipe<W: Sink, V: Watch>(
    alloc: Global,
    texts: &[Vec<u8>],
    out: &mut W,
    passes: &mut Vec<Box<dyn Pass>>,
    watch: &mut V,
) -> Result<(), Refusal>
    requires { length texts.now ≡ 3 }
    ensures performs { let text = word_at (texts_in texts.now) in let passes' = passes_view called gives count passes.old.items in
        let stops = StopsPiped (text 0) (text 1) (text 2) passes' in
        Performs stops (RunPipeAnswers (text 0) (text 1) (text 2) passes') W.written W.faults out.old out.new result }
    ensures ran { let text = word_at (texts_in texts.now) in let seen = passes_view called gives count in
        PassesRun (RunsCode (text 0) (text 1)) (seen passes.old.items) (seen passes.new.items) result }
    ensures shown { let text = word_at (texts_in texts.now) in let passes' = passes_view called gives count passes.old.items in
        Shown (RunPipeShows (text 0) (text 1) (text 2) passes') (V.seen watch.old) (V.seen watch.new) result }
{
    let ready = Ready::read(alloc, texts, passes)?;
    run_network(alloc, ready, out, watch)
}
