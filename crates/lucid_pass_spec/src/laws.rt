// Laws of the four passes, each on a function that makes nothing.
ghost use Rattle.lucid_pass_spec.specs.Dead.{alive, IsLeft, live};
ghost use Rattle.lucid_pass_spec.specs.Direct.{direct};
ghost use Rattle.lucid_pass_spec.specs.Laws.{KeepsNodes, Replaces};
ghost use Rattle.lucid_pass_spec.specs.Looks.{copies, folded};

use lucid_code::Code;

/// The result of a pass on valid code may replace it.
pub fn passes_replace()
    ensures fold { Replaces folded }
    ensures copies { Replaces copies }
    ensures dead { Replaces alive }
    ensures direct { Replaces direct }
{}

/// If every node that writes a field precedes each other node that reads it, this holds for the result of a pass too.
pub fn passes_keep_nodes()
    ensures fold { KeepsNodes folded }
    ensures copies { KeepsNodes copies }
    ensures dead { KeepsNodes alive }
    ensures direct { KeepsNodes direct }
{}

/// The result of `Dead` does not depend on the order in which unneeded operations are removed.
pub fn dead_is_left(code: &Code)
    ensures { IsLeft code.now.ops (live code.now.ops) }
{
    let _valid = code.ops();
}
