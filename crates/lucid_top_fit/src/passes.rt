// From a program to the code that its passes make.
ghost use Rattle.std.specs.Prelude.{◌≡◌, IfErr, IfOk, IsTrue, List, map};
ghost use Rattle.lucid_code.specs.Nodes.{nodes_follow_writes};
ghost use Rattle.lucid_effects_spec.specs.Order.{IsAccepted};
ghost use Rattle.lucid_inline_spec.specs.Flat.{flat_of};
ghost use Rattle.lucid_pass_spec.specs.Replace.{MayReplace};
ghost use Rattle.lucid_top_fit.specs.Fit.{HasNormal, IsComposed, RunsOn, normal_of, made_view};
ghost use Rattle.lucid_top_fit.specs.Passes.{KeepNodes, PassView, PassesRun, passes_view};
ghost use Rattle.lucid_top_words.specs.Outcome.{Declines, Prepares};

use crate::causes::of_inline;
use crate::law;
use lucid_code::Code;
use lucid_core::{Core, Flat};
use lucid_inline::inline;
use lucid_normal::normal;
use lucid_pass::{Pass, run_passes_told};
use lucid_top_words::Refusal;
use std::alloc::Global;

/// The most operations of the normal form of a program.
const MOST_OPS: usize = 4_096;

/// The code that passes make of the normal form of a program.
#[derive(Drop)]
pub struct Composition {
    /// The code behind the last pass.
    pub code: Code,
    /// How many operations went in each pass.
    pub gone: Vec<u64>,
}

/// Applies the passes to the normal form of an accepted program (`IsComposed` of specs/Fit); `NoFit` if a count of the program exceeds
/// its bound, found before anything is built, and then no pass runs. For any passes, the code may replace the normal form.
pub fn composed(
    alloc: Global,
    core: &Core,
    passes: &mut Vec<Box<dyn Pass>>,
) -> Result<Composition, Refusal>
    requires { IsAccepted core.now }
    ensures composed { let seen = passes_view called gives count in
        Prepares (IsComposed core.now (seen passes.old.items)) made_view result }
    ensures ran { let seen = passes_view called gives count in
        PassesRun (RunsOn core.now) (seen passes.old.items) (seen passes.new.items) result }
    ensures replaces { IfOk result (λ c. MayReplace (normal_of core.now) c.code) }
    ensures forward { KeepNodes (map gives passes.old.items) → IfOk result (λ c. IsTrue (nodes_follow_writes c.code.ops)) }
{
    law::lists_keep_the_laws();
    let flat = flat(alloc, core)?;
    let code = normal(alloc, &flat)?;
    let told = run_passes_told(alloc, passes, code)?;
    Ok(Composition {
        code: told.0,
        gone: told.1,
    })
}

// The flat form of the program, if its counts keep their bounds.
fn flat(alloc: Global, core: &Core) -> Result<Flat, Refusal>
    requires { IsAccepted core.now }
    ensures flat { IfOk result (λ flat. flat ≡ flat_of core.now) }
    ensures accepted { IfOk result (λ flat. IsAccepted flat) }
    ensures fits { IfOk result (λ flat. HasNormal core.now) }
    ensures refused { (passes : List PassView) → IfErr result (Declines (IsComposed core.now passes)) }
{
    law::counts_are_exact(core);
    match inline(alloc, core, MOST_OPS) {
        Ok(flat) => Ok(flat),
        Err(error) => Err(of_inline(error)),
    }
}
