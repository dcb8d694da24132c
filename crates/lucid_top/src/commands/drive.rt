// `drive P L T`: the steps of a scenario on one pipeline. The output is the log of handlers that run whole; the watch is shown the pipe
// after each step.
ghost use Rattle.std.specs.Prelude.{◌≡◌, Ok, length};
ghost use Rattle.lucid_drive.specs.Drive.{drive_log};
ghost use Rattle.lucid_drive.specs.Sights.{sights};
ghost use Rattle.lucid_top_fit.specs.Passes.{PassesRun, passes_view};
ghost use Rattle.lucid_top_words.specs.Files.{texts_in};
ghost use Rattle.lucid_top_words.specs.Words.{word_at};
ghost use Rattle.lucid_top_words.specs.Writing.{Performs, nowhere};
ghost use Rattle.lucid_top.specs.Drive.{DriveAnswers, DriveShows, driven};
ghost use Rattle.lucid_top.specs.Held.{ReadyKeeps, ready_view};
ghost use Rattle.lucid_top.specs.Pipes.{RunsCode};
ghost use Rattle.lucid_top_pipes.specs.Watching.{Shown};

use crate::commands::setup::Ready;
use lucid_io::Sink;
use lucid_pass::Pass;
use lucid_pipe::Watch;
use lucid_top_pipes::drive_on_pipe;
use lucid_top_words::Refusal;
use std::alloc::Global;

/// Does the steps of the scenario of the third text on the pipeline of the program of the first, placed under the limits of the second after
/// these passes.
pub fn drive<W: Sink, V: Watch>(
    alloc: Global,
    texts: &[Vec<u8>],
    out: &mut W,
    passes: &mut Vec<Box<dyn Pass>>,
    watch: &mut V,
) -> Result<(), Refusal>
    requires { length texts.now ≡ 3 }
    ensures performs { let text = word_at (texts_in texts.now) in let passes' = passes_view called gives count passes.old.items in
        Performs nowhere (DriveAnswers (text 0) (text 1) (text 2) passes') W.written W.faults out.old out.new result }
    ensures ran { let text = word_at (texts_in texts.now) in let seen = passes_view called gives count in
        PassesRun (RunsCode (text 0) (text 1)) (seen passes.old.items) (seen passes.new.items) result }
    ensures shown { let text = word_at (texts_in texts.now) in let passes' = passes_view called gives count passes.old.items in
        Shown (DriveShows (text 0) (text 1) (text 2) passes') (V.seen watch.old) (V.seen watch.new) result }
{
    let ready = Ready::read(alloc, texts, passes)?;
    drive_ready(alloc, ready, out, watch)
}

// Does the steps, and takes no memory once the pipe is there.
fn drive_ready<W: Sink, V: Watch>(
    alloc: Global,
    ready: Ready,
    out: &mut W,
    watch: &mut V,
) -> Result<(), Refusal>
    requires { ReadyKeeps ready }
    ensures performs { let text = drive_log (driven (ready_view ready)) in
        Performs nowhere (λ o. o ≡ Ok text) W.written W.faults out.old out.new result }
    ensures shown { Shown (λ o. o ≡ Ok (sights (driven (ready_view ready)))) (V.seen watch.old) (V.seen watch.new) result }
{
    let core = &ready.pipes.target.core;
    let placed = &ready.pipes.fitted.placed;
    let ended = drive_on_pipe(alloc, core, placed, &ready.scene, out, watch);
    drop(ready);
    ended
}
