// Laws of all forms of a program, each on a function that makes nothing.
ghost use Rattle.lucid_pass_laws.specs.Core.{CodeStands, LengthIsCounted, SizeIsCounted};

use lucid_core::Core;
use lucid_inline_spec::{flat_is_valid, keeps_counts, keeps_steps};

/// The normal form of the flat form of a program represents the program, and so does all code that may replace it.
pub fn code_stands(core: &Core)
    ensures { CodeStands core.now }
{
    keeps_steps(core);
    flat_is_valid(core);
}

/// The length and the size that are counted over a program, before anything is built, are those of its normal form and of its flat form.
pub fn counts_are_exact(core: &Core)
    ensures length { LengthIsCounted core.now }
    ensures size { SizeIsCounted core.now }
{
    keeps_counts(core);
    flat_is_valid(core);
}
