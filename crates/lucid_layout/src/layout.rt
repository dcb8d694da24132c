// The layout of code within limits.
ghost use Rattle.std.specs.Prelude.{◌≡◌, [], IfOk, IfErr};
ghost use Rattle.lucid_conf.specs.Kept.{AreLimits};
ghost use Rattle.lucid_layout.specs.Fit.{IsFirstFit};
ghost use Rattle.lucid_stages.specs.Stage.{laid, seats};
ghost use Rattle.lucid_layout.specs.Layout.{IsLayout, IsRefused, stages_of};
ghost use Rattle.lucid_stages.specs.NodeWorks.{works as works_of};

use crate::fit::{Layout, fit};
use crate::{FitError, law};
use lucid_base::Memory;
use lucid_code::Code;
use lucid_conf::Limits;
use lucid_stages::{nodes, stage_codes, test_counts, works};
use lucid_tables::Placed;
use std::alloc::Global;

/// Lays code out in stages and tables by first fit. Returns Ok exactly if its counts keep their limits and each node has a place
/// (`IsLayout` of specs/Layout), and otherwise the first cause (`IsRefused`). By `Placed::code`, a pass through the stages has the effect
/// of the code.
#[tactic(auto, using(crate::proofs::ErrorLemmas::counts_refuse))]
pub fn place(alloc: Global, code: &Code, limits: &Limits) -> Result<Placed, FitError>
    requires { AreLimits limits.now }
    ensures ok { IfOk result (IsLayout code.now limits.now) }
    ensures err { IfErr result (IsRefused code.now limits.now) }
{
    test_counts(alloc, code, limits)?;
    let nodes = nodes(alloc, code)?;
    let works = works(alloc, code.ops(), nodes.as_slice())?;
    let layout = fit(alloc, code, works.as_slice(), limits)?;
    match placed(alloc, code, limits, layout) {
        Ok(placed) => Ok(placed),
        Err(_) => Err(FitError::Memory),
    }
}

/// Returns the placed code of a first fit.
fn placed(alloc: Global, code: &Code, limits: &Limits, layout: Layout) -> Result<Placed, Memory>
    requires fit { IsFirstFit code.now.ops limits.now [] (works_of code.now.ops) layout.pairs }
    requires stages { layout.stages.items ≡ laid code.now.ops limits.now (seats (works_of code.now.ops) layout.pairs) }
    requires limits { AreLimits limits.now }
    ensures code { IfOk result (λ p. p.code ≡ code.now) }
    ensures stages { IfOk result (λ p. p.stages ≡ stages_of code.now limits.now layout.pairs) }
{
    law::products_act();
    law::products_name();
    law::guards_contradict();
    let ops = code.ops();
    let copy = code.copy()?;
    let Layout { stages, .. } = layout;
    let stages = stage_codes(alloc, ops, stages)?;
    Placed::new(alloc, copy, stages)
}
