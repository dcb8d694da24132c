// A program from text, placed by first fit without passes, with the limits of its target and a scenario.
ghost use Rattle.lucid_conf.specs.Kept.{AreLimits, IsScene};
ghost use Rattle.lucid_effects_spec.specs.Order.{IsAccepted};
ghost use Rattle.lucid_tests.specs.Setup.{Runs};

use lucid_conf::{Limits, Scene};
use lucid_core::Core;
use lucid_pass::Pass;
use lucid_tables::Placed;
use lucid_top_fit::fitted;
use lucid_top_program::{accepted, limits, scenario};
use std::alloc::Global;
use std::process::Abort;

/// All that a run on pipelines needs.
#[derive(Drop)]
pub(crate) struct Setup {
    pub(crate) core: Core,
    pub(crate) placed: Placed,
    pub(crate) limits: Limits,
    pub(crate) scene: Scene,
}

/// Reads and places a program, and reads its scenario.
pub(crate) fn set_up(
    rt: &impl Abort,
    alloc: Global,
    program: &str,
    target: &str,
    events: &str,
) -> Setup
    ensures { Runs result.core result.placed result.limits result.scene }
{
    match accepted(alloc, program.as_bytes()) {
        Ok(core) => place(rt, alloc, core, target, events),
        Err(_) => panic!(rt; "refused"),
    }
}

fn limits_of(rt: &impl Abort, alloc: Global, target: &str) -> Limits
    ensures { AreLimits result }
{
    match limits(alloc, target.as_bytes()) {
        Ok(limits) => limits,
        Err(_) => panic!(rt; "limits"),
    }
}

fn scene_of(rt: &impl Abort, alloc: Global, events: &str, core: &Core) -> Scene
    ensures { IsScene core.now result }
{
    match scenario(alloc, events.as_bytes(), core) {
        Ok(scene) => scene,
        Err(_) => panic!(rt; "scenario"),
    }
}

fn place(rt: &impl Abort, alloc: Global, core: Core, target: &str, events: &str) -> Setup
    requires { IsAccepted core }
    ensures { Runs result.core result.placed result.limits result.scene }
{
    let mut passes: Vec<Box<dyn Pass>> = Vec::new(alloc);
    let limits = limits_of(rt, alloc, target);
    let scene = scene_of(rt, alloc, events, &core);
    let fitted = fitted(alloc, &core, &limits, &mut passes);
    drop(passes);
    match fitted {
        Ok(fitting) => Setup {
            core,
            placed: fitting.placed,
            limits,
            scene,
        },
        Err(_) => panic!(rt; "no layout"),
    }
}
