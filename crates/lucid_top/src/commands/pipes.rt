// The setup of commands over pipelines from the texts of their files: a program that is placed in the stages of a target, and a scenario.
ghost use Rattle.std.specs.Prelude.{◌<◌, IfOk, length};
ghost use Rattle.lucid_top_fit.specs.Passes.{PassesRun, passes_view};
ghost use Rattle.lucid_top_words.specs.Files.{texts_in};
ghost use Rattle.lucid_top_words.specs.Outcome.{Prepares};
ghost use Rattle.lucid_top_words.specs.Words.{word_at};
ghost use Rattle.lucid_top.specs.Held.{PipesKeep, ReadyKeeps, pipes_view, ready_view};
ghost use Rattle.lucid_top.specs.Pipes.{IsPiped, IsReady, RunsCode};

use crate::commands::setup::{Pipes, Ready, Target};
use crate::commands::text_at;
use lucid_pass::Pass;
use lucid_top_fit::fitted;
use lucid_top_program::scenario;
use lucid_top_words::Refusal;
use std::alloc::Global;

impl Pipes {
    /// Returns the pipeline of the program of the first text under the limits of the second, after these passes.
    pub fn read(
        alloc: Global,
        texts: &[Vec<u8>],
        passes: &mut Vec<Box<dyn Pass>>,
    ) -> Result<Pipes, Refusal>
        requires { 1 < length texts.now }
        ensures pipes { let text = word_at (texts_in texts.now) in
            Prepares (IsPiped (text 0) (text 1) (passes_view called gives count passes.old.items)) pipes_view result }
        ensures keeps { IfOk result PipesKeep }
        ensures ran { let text = word_at (texts_in texts.now) in let seen = passes_view called gives count in
            PassesRun (RunsCode (text 0) (text 1)) (seen passes.old.items) (seen passes.new.items) result }
    {
        let target = Target::read(alloc, texts)?;
        match fitted(alloc, &target.core, &target.limits, passes) {
            Ok(fitted) => Ok(Pipes { target, fitted }),
            Err(refusal) => {
                drop(target);
                Err(refusal)
            }
        }
    }
}

impl Ready {
    /// Returns the pipelines of the three texts, ready to run.
    pub fn read(
        alloc: Global,
        texts: &[Vec<u8>],
        passes: &mut Vec<Box<dyn Pass>>,
    ) -> Result<Ready, Refusal>
        requires { 2 < length texts.now }
        ensures ready { let text = word_at (texts_in texts.now) in
            Prepares (IsReady (text 0) (text 1) (text 2) (passes_view called gives count passes.old.items)) ready_view result }
        ensures keeps { IfOk result ReadyKeeps }
        ensures ran { let text = word_at (texts_in texts.now) in let seen = passes_view called gives count in
            PassesRun (RunsCode (text 0) (text 1)) (seen passes.old.items) (seen passes.new.items) result }
    {
        let pipes = Pipes::read(alloc, texts, passes)?;
        match scenario(alloc, text_at(texts, 2), &pipes.target.core) {
            Ok(scene) => Ok(Ready { pipes, scene }),
            Err(refusal) => {
                drop(pipes);
                Err(refusal)
            }
        }
    }
}
