// The flat form of a core within its limits.
ghost use Rattle.std.specs.Prelude.{◌≡◌, IfErr, IfOk};
ghost use Rattle.lucid_inline_spec.specs.Flat.{flat_of};
ghost use Rattle.lucid_inline_spec.specs.Laws.{KeepsOrder, KeepsSteps};
ghost use Rattle.lucid_inline.specs.Refusals.{Fits, Refused, largest};
ghost use Rattle.lucid_effects_spec.specs.Order.{IsAccepted};

use crate::error::InlineError;
use crate::law;
use crate::program::flatten;
use lucid_core::{Core, Flat};
use lucid_inline_count::count_core;
use std::alloc::Global;

/// The largest flat form that is built.
fn most() -> u64
    ensures { result ≡ largest }
{
    262_144
}

/// Inlines a core. Both counts are found first, in proportion to the core, and nothing is built if one exceeds its bound: `TooMany` if
/// the normal form has more than `room` ops, otherwise `TooLarge` if the flat form has more than 262,144 statements and calls. The flat
/// form has the effect of the core at each event, calls the same arrays in the same order, and is in order if the core is; that of an
/// accepted core is accepted.
pub fn inline(alloc: Global, core: &Core, room: usize) -> Result<Flat, InlineError>
    ensures flat { IfOk result (λ flat. flat ≡ flat_of core.now) }
    ensures fits { IfOk result (λ flat. Fits core.now room) }
    ensures refused { IfErr result (Refused core.now room) }
    ensures steps { KeepsSteps core.now }
    ensures order { KeepsOrder core.now }
    ensures accepted { IsAccepted core.now → IfOk result (λ flat. IsAccepted flat) }
{
    law::keeps_steps(core);
    law::keeps_order(core);
    let totals = count_core(alloc, core, room as u64, most())?;
    if let Some(handler) = totals.length.passed {
        let count = totals.length.total;
        return Err(InlineError::TooMany { handler, count });
    }
    if let Some(handler) = totals.size.passed {
        let size = totals.size.total;
        return Err(InlineError::TooLarge { handler, size });
    }
    Ok(flatten(alloc, core)?)
}
