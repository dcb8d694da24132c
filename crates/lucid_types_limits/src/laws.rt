// The law over the limits, on a function that does nothing.
ghost use Rattle.lucid_types_limits.specs.Laws.{OnlyTheNew};

/// After declarations that exceed no limit, the limit that a declaration exceeds is that of its own additions.
pub fn only_the_new_counts()
    ensures { OnlyTheNew }
{}
