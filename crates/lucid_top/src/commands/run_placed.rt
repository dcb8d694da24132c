// `run placed P L T Q`: the network of a scenario on pipelines with the places of a file.
ghost use Rattle.std.specs.Prelude.{◌≡◌, ◌<◌, IfOk, length};
ghost use Rattle.lucid_conf.specs.Kept.{IsScene};
ghost use Rattle.lucid_top_fit.specs.Passes.{PassesRun, passes_view};
ghost use Rattle.lucid_top_words.specs.Files.{texts_in};
ghost use Rattle.lucid_top_words.specs.Outcome.{Prepares};
ghost use Rattle.lucid_top_words.specs.Words.{word_at};
ghost use Rattle.lucid_top_words.specs.Writing.{Performs};
ghost use Rattle.lucid_top.specs.Held.{MeasuredKeeps, ReadyKeeps, measured_view, ready_view};
ghost use Rattle.lucid_top.specs.Pipes.{RunsCode};
ghost use Rattle.lucid_top.specs.Placed.{IsPlacedOn, IsReadyOn, IsReadyPlaced, RunPlacedAnswers, RunPlacedShows, StopsPlaced};
ghost use Rattle.lucid_top_pipes.specs.Watching.{Shown};

use crate::commands::network::run_network;
use crate::commands::setup::{Measured, Ready};
use crate::commands::text_at;
use lucid_conf::Scene;
use lucid_io::Sink;
use lucid_pass::Pass;
use lucid_pipe::Watch;
use lucid_top_program::scenario;
use lucid_top_words::Refusal;
use std::alloc::Global;

/// Writes the log of the network that the third text sets up for the program of the first, under the limits of the second after these
/// passes, with the places of the fourth; and shows the watch its pipes.
pub fn run_placed<W: Sink, V: Watch>(
    alloc: Global,
    texts: &[Vec<u8>],
    out: &mut W,
    passes: &mut Vec<Box<dyn Pass>>,
    watch: &mut V,
) -> Result<(), Refusal>
    requires { length texts.now ≡ 4 }
    ensures performs { let text = word_at (texts_in texts.now) in let passes' = passes_view called gives count passes.old.items in
        let stops = StopsPlaced (text 0) (text 1) (text 2) (text 3) passes' in
        Performs stops (RunPlacedAnswers (text 0) (text 1) (text 2) (text 3) passes') W.written W.faults out.old out.new result }
    ensures ran { let text = word_at (texts_in texts.now) in let seen = passes_view called gives count in
        PassesRun (RunsCode (text 0) (text 1)) (seen passes.old.items) (seen passes.new.items) result }
    ensures shown { let text = word_at (texts_in texts.now) in let passes' = passes_view called gives count passes.old.items in
        Shown (RunPlacedShows (text 0) (text 1) (text 2) (text 3) passes') (V.seen watch.old) (V.seen watch.new) result }
{
    let ready = prepare(alloc, texts, passes)?;
    run_network(alloc, ready, out, watch)
}

// The pipelines with the places of the fourth text, ready to run.
fn prepare(
    alloc: Global,
    texts: &[Vec<u8>],
    passes: &mut Vec<Box<dyn Pass>>,
) -> Result<Ready, Refusal>
    requires { 3 < length texts.now }
    ensures ready { let text = word_at (texts_in texts.now) in let passes' = passes_view called gives count passes.old.items in
        Prepares (IsReadyPlaced (text 0) (text 1) (text 2) (text 3) passes') ready_view result }
    ensures keeps { IfOk result ReadyKeeps }
    ensures ran { let text = word_at (texts_in texts.now) in let seen = passes_view called gives count in
        PassesRun (RunsCode (text 0) (text 1)) (seen passes.old.items) (seen passes.new.items) result }
{
    let measured = Measured::read(alloc, texts, passes)?;
    with_scenario(alloc, measured, text_at(texts, 2), text_at(texts, 3))
}

fn with_scenario(
    alloc: Global,
    measured: Measured,
    text: &[u8],
    placement: &[u8],
) -> Result<Ready, Refusal>
    requires { MeasuredKeeps measured }
    ensures ready { Prepares (IsReadyOn text.now placement.now (measured_view measured)) ready_view result }
    ensures keeps { IfOk result ReadyKeeps }
{
    match scenario(alloc, text, &measured.target.core) {
        Ok(scene) => with_places(alloc, measured, scene, placement),
        Err(refusal) => {
            drop(measured);
            Err(refusal)
        }
    }
}

fn with_places(
    alloc: Global,
    measured: Measured,
    scene: Scene,
    placement: &[u8],
) -> Result<Ready, Refusal>
    requires scene { IsScene measured.target.core scene }
    requires measured { MeasuredKeeps measured }
    ensures ready { Prepares (IsPlacedOn scene placement.now (measured_view measured)) ready_view result }
    ensures keeps { IfOk result ReadyKeeps }
{
    match measured.place(alloc, placement) {
        Ok(pipes) => Ok(Ready { pipes, scene }),
        Err(refusal) => {
            drop(scene);
            Err(refusal)
        }
    }
}
