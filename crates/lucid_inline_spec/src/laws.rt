// Laws of the flat form, each on a function that does nothing.
ghost use Rattle.lucid_core.specs.Valid.{IsValidFlat};
ghost use Rattle.lucid_inline_spec.specs.Flat.{flat_of};
ghost use Rattle.lucid_inline_spec.specs.Laws.{HasFewLocals, KeepsCounts, KeepsOrder, KeepsSteps};

use lucid_core::Core;

/// At each event that fits, the flat form of a core has the effect of the core, and calls the same arrays in the same order: for all
/// cells, at every tick and on every switch.
pub fn keeps_steps(core: &Core)
    ensures { KeepsSteps core.now }
{
    let _valid = core.arrays();
}

/// Each handler of the flat form is in order exactly if that of the core is.
pub fn keeps_order(core: &Core)
    ensures { KeepsOrder core.now }
{
    let _valid = core.arrays();
}

/// The counts of the flat form are those that are found over the core, handler by handler.
pub fn keeps_counts(core: &Core)
    ensures { KeepsCounts core.now }
{
    let _valid = core.arrays();
}

/// The flat form of a core is a valid flat core.
pub fn flat_is_valid(core: &Core)
    ensures { IsValidFlat (flat_of core.now) }
{
    let _valid = core.arrays();
}

/// The locals of each handler of the flat form are at most 8, and 8 times the size that is counted over the core's handler.
pub fn has_few_locals(core: &Core)
    ensures { HasFewLocals core.now }
{
    let _valid = core.arrays();
}
