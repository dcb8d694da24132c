// From the text of a limits file to the limits, and from that of a scenario to the scenario.
ghost use Rattle.std.specs.Prelude.{IfOk};
ghost use Rattle.lucid_conf.specs.Kept.{AreLimits, IsScene};
ghost use Rattle.lucid_top_words.specs.Outcome.{Prepares};
ghost use Rattle.lucid_top_program.specs.Settings.{IsLimits, IsScenario};

use crate::causes::{of_limits, of_scene};
use lucid_conf::{Limits, Scene, limits_of, scene_of};
use lucid_core::Core;
use lucid_top_words::Refusal;
use std::alloc::Global;

/// Returns the limits that the text writes, or the reason why it writes none.
pub fn limits(alloc: Global, text: &[u8]) -> Result<Limits, Refusal>
    ensures limits { Prepares (IsLimits text.now) (λ limits. limits) result }
    ensures keeps { IfOk result AreLimits }
{
    match limits_of(alloc, text) {
        Ok(limits) => Ok(limits),
        Err(error) => Err(of_limits(error)),
    }
}

/// Returns the scenario that the text writes for this program, or the reason why it writes none.
pub fn scenario(alloc: Global, text: &[u8], core: &Core) -> Result<Scene, Refusal>
    ensures scene { Prepares (IsScenario core.now text.now) (λ scene. scene) result }
    ensures keeps { IfOk result (IsScene core.now) }
{
    match scene_of(alloc, text, core) {
        Ok(scene) => Ok(scene),
        Err(error) => Err(of_scene(error)),
    }
}
