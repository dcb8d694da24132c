// The law of the order. Nothing runs.
ghost use Rattle.lucid_effects_laws.specs.Laws.{BodiesAreDecided};

/// A body of a function or a handler is in order, or its paths have a cycle.
pub fn bodies_are_decided()
    ensures { BodiesAreDecided }
{}
