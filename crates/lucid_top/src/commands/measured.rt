// A target and the code that passes make of its program, of which the counts keep their limits; and the places that a file assigns to its
// nodes.
ghost use Rattle.std.specs.Prelude.{◌≡◌, ◌<◌, IfOk, length};
ghost use Rattle.lucid_pass_spec.specs.Replace.{MayReplace};
ghost use Rattle.lucid_top_fit.specs.Fit.{made_view, normal_of};
ghost use Rattle.lucid_top_fit.specs.Passes.{PassesRun, passes_view};
ghost use Rattle.lucid_top_words.specs.Files.{texts_in};
ghost use Rattle.lucid_top_words.specs.Outcome.{Prepares};
ghost use Rattle.lucid_top_words.specs.Words.{word_at};
ghost use Rattle.lucid_top.specs.Held.{MeasuredKeeps, PipesKeep, TargetKeeps, measured_view, pipes_view, target_view};
ghost use Rattle.lucid_top.specs.Pipes.{RunsCode};
ghost use Rattle.lucid_top.specs.Placed.{IsAuditedIn, IsMeasured, IsMeasuredAs};

use crate::commands::setup::{Measured, Pipes, Target};
use lucid_pass::Pass;
use lucid_top_fit::{Composition, Fitting, audited, composed, counted, plan};
use lucid_top_words::Refusal;
use std::alloc::Global;

impl Measured {
    /// Prepares the code that the passes make of the program of the first text, of which the counts keep the limits of the second.
    pub fn read(
        alloc: Global,
        texts: &[Vec<u8>],
        passes: &mut Vec<Box<dyn Pass>>,
    ) -> Result<Measured, Refusal>
        requires { 1 < length texts.now }
        ensures measured { let text = word_at (texts_in texts.now) in
            Prepares (IsMeasured (text 0) (text 1) (passes_view called gives count passes.old.items)) measured_view result }
        ensures keeps { IfOk result MeasuredKeeps }
        ensures ran { let text = word_at (texts_in texts.now) in let seen = passes_view called gives count in
            PassesRun (RunsCode (text 0) (text 1)) (seen passes.old.items) (seen passes.new.items) result }
    {
        let target = Target::read(alloc, texts)?;
        match composed(alloc, &target.core, passes) {
            Ok(made) => measured_as(alloc, target, made),
            Err(refusal) => {
                drop(target);
                Err(refusal)
            }
        }
    }

    /// Returns the pipeline with the places that the text gives.
    pub fn place(self, alloc: Global, text: &[u8]) -> Result<Pipes, Refusal>
        requires { MeasuredKeeps self }
        ensures pipes { Prepares (IsAuditedIn text.now (measured_view self)) pipes_view result }
        ensures keeps { IfOk result PipesKeep }
        ensures target { IfOk result (λ p. p.target ≡ self.target) }
    {
        let Measured { target, made } = self;
        match plan(alloc, text, &made.code) {
            Ok(plan) => match audited(alloc, &target.core, &target.limits, made.code, &plan) {
                Ok(placed) => Ok(Pipes {
                    target,
                    fitted: Fitting {
                        placed,
                        gone: made.gone,
                    },
                }),
                Err(refusal) => {
                    drop(target);
                    Err(refusal)
                }
            },
            Err(refusal) => {
                drop(target);
                drop(made);
                Err(refusal)
            }
        }
    }
}

// The counts keep their limits.
fn measured_as(alloc: Global, target: Target, made: Composition) -> Result<Measured, Refusal>
    requires target { TargetKeeps target }
    requires replaces { MayReplace (normal_of target.core) made.code }
    ensures measured { Prepares (IsMeasuredAs (target_view target) (made_view made)) measured_view result }
    ensures keeps { IfOk result MeasuredKeeps }
{
    match counted(alloc, &target.core, &target.limits, &made.code) {
        Ok(()) => Ok(Measured { target, made }),
        Err(refusal) => {
            drop(target);
            drop(made);
            Err(refusal)
        }
    }
}
