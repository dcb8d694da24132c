// Laws of the further passes, each on a function that makes nothing.
ghost use Rattle.lucid_pass_spec.specs.Laws.{KeepsNodes, Replaces};
ghost use Rattle.lucid_pass_more_spec.specs.Casts.{uncast};
ghost use Rattle.lucid_pass_more_spec.specs.Lift.{lift};
ghost use Rattle.lucid_pass_more_spec.specs.Merge.{merged};
ghost use Rattle.lucid_pass_more_spec.specs.Sources.{sources};

/// The result of a pass on valid code may replace it.
pub fn more_passes_replace()
    ensures casts { Replaces uncast }
    ensures sources { Replaces sources }
    ensures merge { Replaces merged }
    ensures lift { Replaces lift }
{}

/// If every node that writes a field precedes each other node that reads it, this holds for the result of a pass too.
pub fn more_passes_keep_nodes()
    ensures casts { KeepsNodes uncast }
    ensures sources { KeepsNodes sources }
    ensures merge { KeepsNodes merged }
    ensures lift { KeepsNodes lift }
{}
