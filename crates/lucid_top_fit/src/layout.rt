// From a program to its placed code.
ghost use Rattle.std.specs.Prelude.{◌≡◌, IfOk, IsTrue, length, map};
ghost use Rattle.lucid_code.specs.Nodes.{nodes_follow_writes};
ghost use Rattle.lucid_conf.specs.Kept.{AreLimits};
ghost use Rattle.lucid_effects_spec.specs.Order.{IsAccepted};
ghost use Rattle.lucid_normal_spec.specs.Stands.{StandsFor};
ghost use Rattle.lucid_top_fit.specs.Fit.{IsFitted, IsPlaced, NoRoomIn, RunsOn, composed as composed_of, fit_view};
ghost use Rattle.lucid_top_fit.specs.Passes.{KeepNodes, PassesRun, passes_view};
ghost use Rattle.lucid_top_words.specs.Outcome.{Prepares};

use crate::causes::of_fit;
use crate::law;
use crate::passes::composed;
use lucid_code::Code;
use lucid_conf::Limits;
use lucid_core::Core;
use lucid_layout::place;
use lucid_pass::Pass;
use lucid_tables::Placed;
use lucid_top_words::Refusal;
use std::alloc::Global;

/// Placed code, and the number of operations that each pass removed.
#[derive(Drop)]
pub struct Fitting {
    pub placed: Placed,
    /// How many operations went in each pass.
    pub gone: Vec<u64>,
}

/// Fits an accepted program into the stages of a target: its normal form, the result of the passes, and the layout of that by first fit
/// (`IsFitted` of specs/Fit); `NoFit` with the first cause if there is no layout. The placed code has at every event the effect of the
/// program.
pub fn fitted(
    alloc: Global,
    core: &Core,
    limits: &Limits,
    passes: &mut Vec<Box<dyn Pass>>,
) -> Result<Fitting, Refusal>
    requires accepted { IsAccepted core.now }
    requires limits { AreLimits limits.now }
    ensures fitted { let seen = passes_view called gives count in
        Prepares (IsFitted core.now limits.now (seen passes.old.items)) fit_view result }
    ensures ran { let seen = passes_view called gives count in
        PassesRun (RunsOn core.now) (seen passes.old.items) (seen passes.new.items) result }
    ensures stands { IfOk result (λ f. StandsFor f.placed.code core.now) }
    ensures arrays { IfOk result (λ f. f.placed.code.arrays ≡ core.now.arrays) }
    ensures stages { IfOk result (λ f. length f.placed.stages ≡ limits.now.stages) }
    ensures room { let seen = passes_view called gives count in
        KeepNodes (map gives passes.old.items) → NoRoomIn limits.now (composed_of core.now (seen passes.old.items)).code result }
{
    law::code_stands(core);
    let made = composed(alloc, core, passes)?;
    let placed = placed(alloc, core, limits, &made.code)?;
    Ok(Fitting {
        placed,
        gone: made.gone,
    })
}

/// Places the code of a program by first fit (`IsPlaced` of specs/Fit); `NoFit` with the first cause if there is no layout. If nodes
/// follow their reads, a node has no place only because no stage has room for it.
pub fn placed(alloc: Global, core: &Core, limits: &Limits, code: &Code) -> Result<Placed, Refusal>
    requires { AreLimits limits.now }
    ensures placed { Prepares (IsPlaced core.now limits.now code.now) (λ p. p) result }
    ensures code { IfOk result (λ p. p.code ≡ code.now) }
    ensures stages { IfOk result (λ p. length p.stages ≡ limits.now.stages) }
    ensures room { IsTrue (nodes_follow_writes code.now.ops) → NoRoomIn limits.now code.now result }
{
    law::layouts_are_one();
    law::stuck_for_room();
    match place(alloc, code, limits) {
        Ok(placed) => Ok(placed),
        Err(error) => {
            let cause = of_fit(alloc, core, error)?;
            Err(cause)
        }
    }
}
