// The meaning of pairs, ends and cycles, as facts of functions that do nothing: callers name their clauses in proofs.
ghost use Rattle.lucid_constraints.specs.Laws.{PairsKeepMeaning, AllowedNumberingsRise};

/// Dropping repeats keeps the meaning of pairs and ends, and a function's pairs and ends mean the same to a caller as to the function.
pub fn pairs_keep_meaning()
    ensures { PairsKeepMeaning }
{}

/// A numbering that rises along the declared arrays allows the pairs exactly if it rises along all that must come first:
/// no cycle is there exactly if such a numbering is.
pub fn allowed_numberings_rise()
    ensures { AllowedNumberingsRise }
{}
