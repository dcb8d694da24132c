// Laws of schemes, each on a function that does nothing.
ghost use Rattle.lucid_effects_spec.specs.SchemeLaws.{SchemesArePrincipal, CyclesTell, WalksAreShort};

use lucid_core::Core;

/// The constraints of a scheme hold exactly if its body has a derivation, for every numbering and place, and the greatest of its ends is
/// the end of the body.
pub fn schemes_are_principal()
    ensures { SchemesArePrincipal }
{}

/// A numbering of a scheme's pairs puts its body in order, and a cycle of them is one of the body's paths.
pub fn cycles_tell()
    ensures { CyclesTell }
{}

/// The walk along each body takes at most `2 * (arrays + 9)^2` steps for each of its nodes.
pub fn walks_are_short(core: &Core)
    ensures { WalksAreShort core.now }
{
    let _valid = core.arrays();
}
