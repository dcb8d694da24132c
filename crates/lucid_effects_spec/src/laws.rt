// Laws of the order, each on a function that does nothing.
ghost use Rattle.lucid_effects_spec.specs.Laws.{TouchesRise, OwnNumbersDecide, EndsTurnOnDeclared, PathsDecide, EndsAreGreatest, CyclesRefuse, TouchesFollowPaths};
ghost use Rattle.lucid_effects_spec.specs.Order.{IsAccepted};

use lucid_core::{Core, Flat};

/// In an accepted core every event calls each array at most once, in the order of their declarations: for all cells, at every tick, on
/// every switch, and also if the event does not fit.
pub fn touches_rise(core: &Core)
    ensures { IsAccepted core.now → TouchesRise core.now }
{
    let _valid = core.arrays();
}

/// A handler is in order exactly if its body has a derivation with the array numbers themselves.
pub fn own_numbers_decide(core: &Core)
    ensures { OwnNumbersDecide core.now }
{
    let _valid = core.arrays();
}

/// The law `own_numbers_decide` for a flat core.
pub fn flat_own_numbers_decide(flat: &Flat)
    ensures { OwnNumbersDecide flat.now }
{
    let _valid = flat.arrays();
}

/// Two numberings that agree on the declared arrays give a handler the same end, or both give it none.
pub fn ends_turn_on_declared(core: &Core)
    ensures { EndsTurnOnDeclared core.now }
{
    let _valid = core.arrays();
}

/// Where a body ends, by its paths: it has a derivation exactly if the numbering rises along each of them, and then ends at the
/// greatest place at which one of them ends. So a body that has a cycle is not in order.
pub fn paths_decide()
    ensures derived { PathsDecide }
    ensures end { EndsAreGreatest }
    ensures cycles { CyclesRefuse }
{}

/// The calls of an event are one of the paths of its handler, in every program, valid or not.
pub fn touches_follow_paths()
    ensures { TouchesFollowPaths }
{}
