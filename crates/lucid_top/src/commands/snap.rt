// `snap P L T K`: the steps of a scenario on one pipeline, and a snapshot that is taken after K of them while packets move.
ghost use Rattle.std.specs.Prelude.{◌≡◌, Ok, length};
ghost use Rattle.lucid_snap.specs.Log.{snap_log};
ghost use Rattle.lucid_top_fit.specs.Passes.{PassesRun, passes_view};
ghost use Rattle.lucid_top_words.specs.Files.{texts_in};
ghost use Rattle.lucid_top_words.specs.Words.{word_at};
ghost use Rattle.lucid_top_words.specs.Writing.{Performs, anywhere};
ghost use Rattle.lucid_top.specs.Drive.{driven};
ghost use Rattle.lucid_top.specs.Held.{ReadyKeeps, ready_view};
ghost use Rattle.lucid_top.specs.Pipes.{RunsCode};
ghost use Rattle.lucid_top.specs.Snap.{SnapAnswers};

use crate::causes::of_snap;
use crate::commands::setup::Ready;
use lucid_io::Sink;
use lucid_pass::Pass;
use lucid_pipe::Pipe;
use lucid_snap::snap as snap_pipe;
use lucid_top_words::Refusal;
use std::alloc::Global;

/// Does the steps of the scenario of the third text on the pipeline of the program of the first, placed under the limits of the second after
/// these passes; then writes the snapshot that was begun after the first `after` steps, or after all if there are fewer.
pub fn snap<W: Sink>(
    alloc: Global,
    texts: &[Vec<u8>],
    after: u64,
    out: &mut W,
    passes: &mut Vec<Box<dyn Pass>>,
) -> Result<(), Refusal>
    requires { length texts.now ≡ 3 }
    ensures performs { let text = word_at (texts_in texts.now) in let passes' = passes_view called gives count passes.old.items in
        Performs anywhere (SnapAnswers after (text 0) (text 1) (text 2) passes') W.written W.faults out.old out.new result }
    ensures ran { let text = word_at (texts_in texts.now) in let seen = passes_view called gives count in
        PassesRun (RunsCode (text 0) (text 1)) (seen passes.old.items) (seen passes.new.items) result }
{
    let ready = Ready::read(alloc, texts, passes)?;
    let ended = snap_ready(alloc, &ready, after, out);
    drop(ready);
    ended
}

fn snap_ready<W: Sink>(alloc: Global, ready: &Ready, after: u64, out: &mut W) -> Result<(), Refusal>
    requires { ReadyKeeps ready.now }
    ensures { let text = snap_log (driven (ready_view ready.now)) after in
        Performs anywhere (λ o. o ≡ Ok text) W.written W.faults out.old out.new result }
{
    let placed = &ready.pipes.fitted.placed;
    let mut pipe = Pipe::new(alloc, placed)?;
    let core = &ready.pipes.target.core;
    let ended = snap_pipe(alloc, &mut pipe, placed, core, &ready.scene, after, out);
    drop(pipe);
    match ended {
        Ok(()) => Ok(()),
        Err(error) => Err(of_snap(error)),
    }
}
